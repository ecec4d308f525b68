//! The words of a command line: which command they ask for, or where they fail to ask for one.
#![tactic(auto)]

mod error;
mod faults;
mod line;
mod operands;
mod parts;
mod plains;
mod read;
mod settings;
mod values;

pub use error::{WordKind, WordsError};
pub use faults::Fault;
pub use line::split_line;
pub use read::{read_shell_words, read_words, refuse_option};
pub use tl_action::{
    Action, Bytes, Command, Names, OptionName, PinAction, Repositories, Repository, Texts, usage,
};
pub use tl_path::Check;
