//! Marks as values.
ghost use Rattle.std.specs.Prelude.{◌≡◌, None, [], true};
ghost use Rattle.tl_marks.specs.Reading.{AreMarks};

use std::alloc::{AllocError, Global};
use std::marker::Model;
use thiserror::Error;
use tl_path::{Path, Platforms};

/// Platforms, and when they last changed.
#[derive(Drop)]
pub struct MarkedPlatforms {
    pub mark: u32,
    pub platforms: Platforms,
}

/// A path, when it last changed, and whether its file stood there afterwards.
#[derive(Drop)]
pub struct MarkedPath {
    pub lives: bool,
    pub mark: u32,
    pub path: Path,
}

/// The count of all changes of a master, and which of them was the last one of its platforms and of each path. The paths
/// rise strictly; each mark is from 1 to the counter.
#[derive(Drop)]
pub struct Marks {
    counter: u32,
    platforms: Option<MarkedPlatforms>,
    paths: Vec<MarkedPath>,
}

/// Why a text has no marks.
#[derive(Clone, Copy, Debug, PartialEq, Eq, Error)]
pub enum MarksError {
    /// The first line, counted from 1, that hasn't its form.
    #[error("line {line} of the marks is bad")]
    BadMarks { line: u32 },
    #[error("out of memory")]
    NoMemory,
}

impl From<AllocError> for MarksError {
    ghost use Rattle.std.specs.Prelude.{◌≡◌};
    ghost use Rattle.tl_marks.specs.declared.marks.MarksError.TheVariants.{NoMemory};

    ghost from_gives = { λ _ e. e ≡ NoMemory };

    fn from(_error: AllocError) -> MarksError {
        MarksError::NoMemory
    }
}

impl Model for Marks {
    ghost use Rattle.tl_marks.specs.Form.{MarksEntry};
    ghost use Rattle.tl_marks.specs.Reading.{AreMarks};

    ghost Value = { MarksEntry };

    ghost view = { λ a. record { counter = a.counter; platforms = a.platforms; paths = a.paths.items } };

    ghost invariant = { λ a. AreMarks (record { counter = a.counter; platforms = a.platforms; paths = a.paths.items }) };
}

impl Marks {
    /// The marks of a master of which nothing was ever changed. Takes no memory.
    pub fn none(alloc: Global) -> Marks
        ensures { result ≡ record { counter = 0; platforms = None; paths = [] } }
    {
        Marks {
            counter: 0,
            platforms: None,
            paths: Vec::new(alloc),
        }
    }

    /// The marks with these parts, which keep the rules. Takes no memory.
    pub(crate) fn of(
        counter: u32,
        platforms: Option<MarkedPlatforms>,
        paths: Vec<MarkedPath>,
    ) -> Marks
        requires { AreMarks (record { counter = counter; platforms = platforms; paths = paths.items }) }
        ensures { result ≡ record { counter = counter; platforms = platforms; paths = paths.items } }
    {
        Marks {
            counter,
            platforms,
            paths,
        }
    }

    /// How many changes there were. Takes no memory.
    pub fn counter(&self) -> u32
        ensures { result ≡ self.now.counter }
    {
        self.counter
    }

    /// The platforms with their mark, where they were ever set. Takes no memory.
    pub fn platforms(&self) -> &Option<MarkedPlatforms>
        ensures { result.now ≡ self.now.platforms }
    {
        &self.platforms
    }

    /// The marked paths in rising order. Takes no memory.
    pub fn paths(&self) -> &[MarkedPath]
        ensures paths { result.now ≡ self.now.paths }
        ensures marks { AreMarks self.now }
    {
        self.paths.as_slice()
    }
}
