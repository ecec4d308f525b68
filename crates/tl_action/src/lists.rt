// Small lists that a command holds.
use std::marker::Model;
use tl_path::Name;

/// Texts in order, seen as the list of their bytes.
#[derive(Drop)]
pub struct Texts {
    items: Vec<Vec<u8>>,
}

impl Model for Texts {
    ghost use Rattle.std.specs.Prelude.{List, ℕ};
    ghost use Rattle.tl_action.specs.Texts.{texts};

    ghost Value = { List (List ℕ) };

    ghost view = { λ a. texts a.items.items };
}

impl Texts {
    ghost use Rattle.std.specs.Prelude.{◌≡◌};
    ghost use Rattle.tl_action.specs.Texts.{texts};

    /// These texts. No memory.
    pub fn new(items: Vec<Vec<u8>>) -> Texts
        ensures { result ≡ texts items.items }
    {
        Texts { items }
    }

    /// The texts.
    pub fn as_slice(&self) -> &[Vec<u8>]
        ensures { texts result.now ≡ self.now }
    {
        self.items.as_slice()
    }

    /// The texts as a vector. No memory.
    pub fn into_vec(self) -> Vec<Vec<u8>>
        ensures { texts result.items ≡ self }
    {
        self.items
    }
}

/// Names in order, seen as the list of them.
#[derive(Drop)]
pub struct Names {
    items: Vec<Name>,
}

impl Model for Names {
    ghost use Rattle.std.specs.Prelude.{List, ℕ};

    ghost Value = { List (List ℕ) };

    ghost view = { λ a. a.items.items };
}

impl Names {
    ghost use Rattle.std.specs.Prelude.{◌≡◌};

    /// These names. No memory.
    pub fn new(items: Vec<Name>) -> Names
        ensures { result ≡ items.items }
    {
        Names { items }
    }

    /// The names.
    pub fn as_slice(&self) -> &[Name]
        ensures { result.now ≡ self.now }
    {
        self.items.as_slice()
    }

    /// The names as a vector. No memory.
    pub fn into_vec(self) -> Vec<Name>
        ensures { result.items ≡ self }
    {
        self.items
    }
}
