//! The lists that an entry is made of.
ghost use Rattle.std.specs.Prelude.{◌≡◌, ◌++◌, ◌∷◌, [], true, OnOk};
ghost use Rattle.tl_entry.specs.Rising.{is_rising};

use crate::object::{BinFiles, DocFile, Fact, Object};
use crate::rising::Keyed;
use std::alloc::AllocError;
use std::marker::Model;
use tl_path::Path;
use tl_text::Text;

/// Texts in the order in which they were read.
#[derive(Drop)]
pub struct Texts {
    items: Vec<Text>,
}

impl Model for Texts {
    ghost use Rattle.std.specs.Prelude.{◌≡◌, ℕ, List, true};

    ghost Value = { List (List ℕ) };

    ghost view = { λ a. a.items.items };
}

impl Texts {
    /// The list of these elements. Takes no memory.
    pub fn new(items: Vec<Text>) -> Self
        ensures { result ≡ items.items }
    {
        Texts { items }
    }

    /// The elements. Takes no memory.
    pub fn as_slice(&self) -> &[Text]
        ensures items { result.now ≡ self.now }
    {
        self.items.as_slice()
    }

    /// The elements, given back. Takes no memory.
    pub fn into_vec(self) -> Vec<Text>
        ensures { result.items ≡ self }
    {
        self.items
    }

    /// Adds a text at the end.
    pub fn push(&mut self, item: Text) -> Result<(), AllocError>
        ensures { OnOk result (self.new ≡ self.old ++ item ∷ []) }
    {
        self.items.push(item)?;
        Ok(())
    }
}

/// What the catalogue says of a package, in the order in which it was read.
#[derive(Drop)]
pub struct Facts {
    items: Vec<Fact>,
}

impl Model for Facts {
    ghost use Rattle.std.specs.Prelude.{◌≡◌, List, true};
    ghost use Rattle.tl_entry.specs.Parts.{FactEntry};

    ghost Value = { List FactEntry };

    ghost view = { λ a. a.items.items };
}

impl Facts {
    /// The list of these elements. Takes no memory.
    pub fn new(items: Vec<Fact>) -> Self
        ensures { result ≡ items.items }
    {
        Facts { items }
    }

    /// The elements. Takes no memory.
    pub fn as_slice(&self) -> &[Fact]
        ensures items { result.now ≡ self.now }
    {
        self.items.as_slice()
    }

    /// The elements, given back. Takes no memory.
    pub fn into_vec(self) -> Vec<Fact>
        ensures { result.items ≡ self }
    {
        self.items
    }

    /// Adds a fact at the end.
    pub fn push(&mut self, item: Fact) -> Result<(), AllocError>
        ensures { OnOk result (self.new ≡ self.old ++ item ∷ []) }
    {
        self.items.push(item)?;
        Ok(())
    }
}

/// Documentation files in rising order of their paths, each path once.
#[derive(Drop)]
pub struct DocFileList {
    items: Vec<DocFile>,
}

impl Model for DocFileList {
    ghost use Rattle.std.specs.Prelude.{◌≡◌, List, true};
    ghost use Rattle.tl_entry.specs.Parts.{FileEntry};
    ghost use Rattle.tl_entry.specs.Rising.{is_rising};

    ghost Value = { List FileEntry };

    ghost view = { λ a. a.items.items };

    ghost invariant = { λ a. is_rising (λ file. file.path) a.items.items ≡ true };
}

impl DocFileList {
    /// The list of these elements, which rise strictly. Takes no memory.
    pub fn new(items: Vec<DocFile>) -> Self
        requires { is_rising (λ file. file.path) items.items ≡ true }
        ensures { result ≡ items.items }
    {
        DocFileList { items }
    }

    /// The elements. Takes no memory.
    pub fn as_slice(&self) -> &[DocFile]
        ensures items { result.now ≡ self.now }
        ensures rising { is_rising (λ file. file.path) self.now ≡ true }
    {
        self.items.as_slice()
    }

    /// The elements, given back. Takes no memory.
    pub fn into_vec(self) -> Vec<DocFile>
        ensures { result.items ≡ self }
    {
        self.items
    }
}

/// Sections of binaries in rising order of their platforms, each platform once.
#[derive(Drop)]
pub struct BinList {
    items: Vec<BinFiles>,
}

impl Model for BinList {
    ghost use Rattle.std.specs.Prelude.{◌≡◌, List, true};
    ghost use Rattle.tl_entry.specs.declared.object.BinFiles.{BinFiles};
    ghost use Rattle.tl_entry.specs.Rising.{is_rising};

    ghost Value = { List BinFiles };

    ghost view = { λ a. a.items.items };

    ghost invariant = { λ a. is_rising (λ bin. bin.platform) a.items.items ≡ true };
}

impl BinList {
    /// The list of these elements, which rise strictly. Takes no memory.
    pub fn new(items: Vec<BinFiles>) -> Self
        requires { is_rising (λ bin. bin.platform) items.items ≡ true }
        ensures { result ≡ items.items }
    {
        BinList { items }
    }

    /// The elements. Takes no memory.
    pub fn as_slice(&self) -> &[BinFiles]
        ensures items { result.now ≡ self.now }
        ensures rising { is_rising (λ bin. bin.platform) self.now ≡ true }
    {
        self.items.as_slice()
    }

    /// The elements, given back. Takes no memory.
    pub fn into_vec(self) -> Vec<BinFiles>
        ensures { result.items ≡ self }
    {
        self.items
    }
}

impl Keyed for Path {
    ghost key = { λ path. path };

    fn key(&self) -> &[u8] {
        self.bytes()
    }
}

impl Keyed for DocFile {
    ghost key = { λ file. file.path };

    fn key(&self) -> &[u8] {
        self.path.bytes()
    }
}

impl Keyed for Object {
    ghost key = { λ object. object.name };

    fn key(&self) -> &[u8] {
        self.name.bytes()
    }
}

impl Keyed for BinFiles {
    ghost key = { λ bin. bin.platform };

    fn key(&self) -> &[u8] {
        self.platform.bytes()
    }
}
