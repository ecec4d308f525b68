ghost use Rattle.std.specs.Prelude.{◌≡◌};

use std::marker::Model;
use tl_path::Path;

/// Bytes, as those of a file. Contracts see the list of them.
#[derive(Debug, Drop)]
pub struct Bytes {
    items: Vec<u8>,
}

impl Model for Bytes {
    ghost use Rattle.std.specs.Prelude.{List, ℕ};

    ghost Value = { List ℕ };

    ghost view = { λ b. b.items.items };
}

impl Bytes {
    /// These bytes, without memory.
    pub fn new(items: Vec<u8>) -> Bytes
        ensures { result ≡ items.items }
    {
        Bytes { items }
    }

    /// The bytes.
    pub fn as_slice(&self) -> &[u8]
        ensures { result.now ≡ self.now }
    {
        self.items.as_slice()
    }

    /// The bytes, given back without memory.
    pub fn into_vec(self) -> Vec<u8>
        ensures { result.items ≡ self }
    {
        self.items
    }
}

/// A file: its path and what it holds.
#[derive(Debug, Drop)]
pub struct FileBytes {
    /// Its path.
    pub path: Path,
    /// What it holds.
    pub bytes: Bytes,
}

/// Files, in an order. Contracts see the list.
#[derive(Debug, Drop)]
pub struct FileList {
    files: Vec<FileBytes>,
}

impl Model for FileList {
    ghost use Rattle.std.specs.Prelude.{List};
    ghost use Rattle.tl_file.specs.declared.file.FileBytes.{FileBytes};

    ghost Value = { List FileBytes };

    ghost view = { λ l. l.files.items };
}

impl FileList {
    /// These files, without memory.
    pub fn new(files: Vec<FileBytes>) -> FileList
        ensures { result ≡ files.items }
    {
        FileList { files }
    }

    /// The files.
    pub fn as_slice(&self) -> &[FileBytes]
        ensures { result.now ≡ self.now }
    {
        self.files.as_slice()
    }

    /// The files, given back without memory.
    pub fn into_vec(self) -> Vec<FileBytes>
        ensures { result.items ≡ self }
    {
        self.files
    }
}
