//! What an execute says.
use std::alloc::{AllocError, AllocFailed};
use std::marker::Model;
use tl_text::Text;

/// What is done with the map file of an execute.
#[derive(Clone, Copy, Debug, PartialEq, Eq)]
pub enum MapKind {
    Plain,
    Mixed,
    Kanji,
}

/// Some texts, in order.
#[derive(Drop)]
pub struct Texts {
    items: Vec<Text>,
}

impl Model for Texts {
    ghost use Rattle.std.specs.Prelude.{ℕ, List};

    ghost Value = { List (List ℕ) };

    ghost view = { λ t. t.items.items };
}

impl Texts {
    ghost use Rattle.std.specs.Prelude.{◌≡◌};

    /// These texts. Takes no memory.
    pub fn new(items: Vec<Text>) -> Self
        ensures { result ≡ items.items }
    {
        Texts { items }
    }

    /// The texts as a vector. Takes no memory.
    pub fn into_vec(self) -> Vec<Text>
        ensures { result.items ≡ self }
    {
        self.items
    }

    /// The texts in order. Takes no memory.
    pub fn as_slice(&self) -> &[Text]
        ensures { result.now ≡ self.now }
    {
        self.items.as_slice()
    }
}

/// What an execute says.
#[derive(Drop)]
pub enum Execute {
    /// A map file.
    Map {
        kind: MapKind,
        file: Text,
    },
    /// A format and the packages whose change makes it anew.
    Format {
        name: Text,
        engine: Text,
        options: Option<Text>,
        patterns: Option<Text>,
        disabled: bool,
        triggers: Texts,
    },
    /// Hyphenation patterns: the least numbers of letters at the left and right, other names, and the databases
    /// that they stand in.
    Hyphen {
        name: Text,
        file: Text,
        left: u32,
        right: u32,
        synonyms: Texts,
        dat: bool,
        def: bool,
        lua: bool,
        patterns: Option<Text>,
        exceptions: Option<Text>,
        special: Option<Text>,
    },
}

/// The kinds of faults of an execute, in the order in which they are looked for.
#[derive(Clone, Copy, Debug, PartialEq, Eq)]
pub enum ExecuteKind {
    /// A double quote has no partner.
    Quote,
    /// The first word is none of those that begin an execute.
    Word,
    /// A word has no equals sign, or a key that isn't one of its kind of execute.
    Key,
    /// A key comes twice.
    Repeated,
    /// A required key or a map's file is missing.
    Missing,
    /// A least number of letters isn't empty and isn't a `u32`.
    Number,
    /// A mode is neither `disabled` nor `enabled`, a required value is empty, more words follow a map's file, or a
    /// value isn't a `Text`.
    Value,
}

/// Why an execute doesn't read.
#[derive(Debug, Drop)]
pub enum ExecuteError {
    BadExecute { kind: ExecuteKind },
    NoMemory,
}

impl From<AllocError> for ExecuteError {
    ghost use Rattle.std.specs.Prelude.{◌≡◌};
    ghost use Rattle.tl_execute.specs.declared.execute.ExecuteError.TheVariants.{NoMemory};

    ghost from_gives = { λ _ e. e ≡ NoMemory };

    fn from(_error: AllocError) -> ExecuteError {
        ExecuteError::NoMemory
    }
}

impl<T: Drop> From<AllocFailed<T>> for ExecuteError {
    ghost use Rattle.std.specs.Prelude.{◌≡◌};
    ghost use Rattle.tl_execute.specs.declared.execute.ExecuteError.TheVariants.{NoMemory};

    ghost from_gives = { λ _ e. e ≡ NoMemory };

    fn from(_error: AllocFailed<T>) -> ExecuteError {
        ExecuteError::NoMemory
    }
}
