//! A compiled regular expression, and why there is none.
ghost use Rattle.std.specs.Prelude.{◌≡◌, IfOk};
ghost use Rattle.tl_regexp.specs.Finds.{IsRead};

use crate::matcher::ReMatcher;
use regex::Regex;
use std::alloc::{AllocError, Global};
use std::marker::Model;
use thiserror::Error;

/// A regular expression that stands for the whole of a path. Contracts see its text.
#[derive(Drop)]
pub struct Regexp {
    pub(crate) text: String,
    pub(crate) regex: Regex,
}

impl Model for Regexp {
    ghost use Rattle.std.specs.Prelude.{List, ℕ, string_bytes};
    ghost use Rattle.tl_regexp.specs.Finds.{IsOf};

    ghost Value = { List ℕ };

    ghost view = { λ a. string_bytes a.text };

    ghost invariant = { λ a. IsOf (string_bytes a.text) a.regex };
}

/// Why there is no regular expression of a text.
#[derive(Clone, Copy, Debug, PartialEq, Eq, Error)]
pub enum RegexpError {
    /// The grammar reads no pattern from it, or it nests too deep.
    #[error("not a regular expression")]
    Syntax,
    /// It would become too large.
    #[error("too large a regular expression")]
    Size,
    #[error("out of memory")]
    NoMemory,
}

impl From<AllocError> for RegexpError {
    ghost use Rattle.std.specs.Prelude.{◌≡◌};
    ghost use Rattle.tl_regexp.specs.declared.regexp.RegexpError.TheVariants.{NoMemory};

    ghost from_gives = { λ _ e. e ≡ NoMemory };

    fn from(_error: AllocError) -> RegexpError {
        RegexpError::NoMemory
    }
}

impl Regexp {
    /// Its text. Takes no memory.
    pub fn text(&self) -> &str
        ensures text { result.now ≡ self.now }
        ensures read { IsRead self.now }
    {
        self.text.as_str()
    }

    /// What tries paths against it. A matcher keeps the memory of its searches, so that one serves for many paths.
    pub fn matcher(&self, alloc: Global) -> Result<ReMatcher<'_>, AllocError>
        ensures { IfOk result (λ matcher. matcher ≡ self.now) }
    {
        ReMatcher::of(alloc, self)
    }
}
