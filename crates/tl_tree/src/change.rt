ghost use Rattle.std.specs.Prelude.{◌≡◌};

use std::marker::Model;
use tl_file::{Bytes, FileList};
use tl_object::Object;
use tl_path::{Name, Path};

/// One part of a change.
#[derive(Drop)]
pub enum Part {
    /// The entry and its files come, and the files of the old entry of that name leave.
    Put { entry: Object, files: FileList },
    /// The entry of this name and its files leave.
    Remove { name: Name },
    /// The entry comes in the place of the one with its name. No file comes or leaves.
    Entry { entry: Object },
    /// The path holds these bytes.
    Write { path: Path, bytes: Bytes },
    /// The path is absent.
    Erase { path: Path },
    /// As a `Put`, but the bytes of its files come later.
    Stream { entry: Object },
    /// As a `Write` of each path, but the bytes come later.
    Later { paths: PathList },
}

/// Paths, in an order. Contracts see the list.
#[derive(Drop)]
pub struct PathList {
    paths: Vec<Path>,
}

impl Model for PathList {
    ghost use Rattle.std.specs.Prelude.{List, ℕ};

    ghost Value = { List (List ℕ) };

    ghost view = { λ l. l.paths.items };
}

impl PathList {
    /// These paths, without memory.
    pub fn new(paths: Vec<Path>) -> PathList
        ensures { result ≡ paths.items }
    {
        PathList { paths }
    }

    /// The paths.
    pub fn as_slice(&self) -> &[Path]
        ensures { result.now ≡ self.now }
    {
        self.paths.as_slice()
    }
}

/// The parts of a change, in order. Contracts see the list.
#[derive(Drop)]
pub struct PartList {
    parts: Vec<Part>,
}

impl Model for PartList {
    ghost use Rattle.std.specs.Prelude.{List};
    ghost use Rattle.tl_tree.specs.declared.change.Part.{Part};

    ghost Value = { List Part };

    ghost view = { λ l. l.parts.items };
}

impl PartList {
    /// These parts, without memory.
    pub fn new(parts: Vec<Part>) -> PartList
        ensures { result ≡ parts.items }
    {
        PartList { parts }
    }

    /// The parts.
    pub fn as_slice(&self) -> &[Part]
        ensures { result.now ≡ self.now }
    {
        self.parts.as_slice()
    }
}

/// What one step does to a tree, and the line that acknowledges it, with its line end.
#[derive(Drop)]
pub struct Change {
    pub parts: PartList,
    pub label: Bytes,
}
