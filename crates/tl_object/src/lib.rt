//! Entries of the package database, read and written.
#![tactic(auto)]

mod builder;
mod fault;
mod file;
mod head;
mod key;
mod read;
mod section;
mod source;
mod value;
mod write;

pub use fault::{LineKind, ObjectError};
pub use read::{Entry, Named, read_entry, read_entry_name, read_object};
pub use source::next_entry;
pub use tl_entry::{
    BinFiles, BinList, Container, Copied, DocFile, DocFileList, DocFiles, Fact, Facts, Files,
    Keyed, Object, Paths, Texts, copies, place_for,
};
pub use tl_path::Platform;
pub use write::{append_object, write_object};
