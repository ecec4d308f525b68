//! An entry of the database.
use crate::lists::{BinList, DocFileList, Facts, Texts};
use crate::paths::Paths;
use std::marker::Model;
use tl_path::{Category, Name, Path, Platform};
use tl_text::Text;

/// What is known of a package's container. Each is absent where nothing is known.
#[derive(Clone, Copy)]
pub struct Container {
    /// Its size in bytes.
    pub size: Option<u64>,
    /// Its SHA-512.
    pub digest: Option<[u8; 64]>,
}

/// A documentation file.
#[derive(Drop)]
pub struct DocFile {
    pub path: Path,
    /// What the file is, without `"`.
    pub details: Option<Text>,
    /// The language that it is in, without `"`.
    pub language: Option<Text>,
}

impl Model for DocFile {
    ghost use Rattle.std.specs.Prelude.{◌≡◌, true};
    ghost use Rattle.tl_entry.specs.Forms.{is_unquoted};
    ghost use Rattle.tl_entry.specs.Parts.{FileEntry};

    ghost Value = { FileEntry };

    ghost view = { λ a. record { path = a.path; details = a.details; language = a.language } };

    ghost invariant = { λ a. (is_unquoted a.details ≡ true) × (is_unquoted a.language ≡ true) };
}

/// What the catalogue says of a package under a key.
#[derive(Drop)]
pub struct Fact {
    /// 1 to 65,536 lower case letters, digits and `-`.
    pub key: Text,
    pub value: Text,
}

impl Model for Fact {
    ghost use Rattle.std.specs.Prelude.{◌≡◌, true};
    ghost use Rattle.tl_entry.specs.Forms.{is_fact_key};
    ghost use Rattle.tl_entry.specs.Parts.{FactEntry};

    ghost Value = { FactEntry };

    ghost view = { λ a. record { key = a.key; value = a.value } };

    ghost invariant = { λ a. is_fact_key a.key ≡ true };
}

/// The files of a section.
#[derive(Drop)]
pub struct Files {
    /// Their size in blocks of 4,096 bytes, each file rounded up by itself.
    pub blocks: u64,
    pub paths: Paths,
}

/// The documentation files.
#[derive(Drop)]
pub struct DocFiles {
    /// Their size in blocks of 4,096 bytes, each file rounded up by itself.
    pub blocks: u64,
    pub files: DocFileList,
}

/// The binaries for a platform.
#[derive(Drop)]
pub struct BinFiles {
    pub platform: Platform,
    /// Their size in blocks of 4,096 bytes, each file rounded up by itself.
    pub blocks: u64,
    pub paths: Paths,
}

/// An entry of the database: what is known of a package. A field that an entry's text may leave out is `None`, `false`,
/// 0 or empty there, and the category is then `Package`.
#[derive(Drop)]
pub struct Object {
    pub name: Name,
    pub category: Category,
    pub revision: u32,
    pub catalogue: Option<Text>,
    pub shortdesc: Option<Text>,
    pub relocated: bool,
    pub longdesc: Texts,
    pub depends: Texts,
    pub executes: Texts,
    pub postactions: Texts,
    pub run_box: Container,
    pub doc_box: Container,
    pub src_box: Container,
    pub doc: DocFiles,
    pub src: Files,
    pub run: Files,
    pub bin: BinList,
    pub catalogue_facts: Facts,
}
