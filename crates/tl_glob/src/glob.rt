//! A glob as a value.
ghost use Rattle.std.specs.Prelude.{◌≡◌, ◌<◌, nat_eq, length, MatchResult};
ghost use Rattle.std.specs.Cmp.{partial_equiv_from_equiv};
ghost use Rattle.std.specs.Cmp.Lexicographic.{pointwise, nat_list_eq_equiv};
ghost use Rattle.tl_glob.specs.Matches.{is_match};
ghost use Rattle.tl_glob.specs.Errors.{IsGlobErrorOf};

use crate::matching::matches;
use std::alloc::{AllocError, Global};
use std::marker::Model;
use thiserror::Error;

/// A text that stands for others: `*` for any bytes, `?` for one byte, and every other byte for itself.
#[derive(Drop)]
pub struct Glob {
    bytes: Vec<u8>,
}

/// Why a text is no glob.
#[derive(Clone, Copy, Debug, PartialEq, Eq, Error)]
pub enum GlobError {
    /// The text is empty.
    #[error("an empty glob")]
    Empty,
    /// No memory for the glob.
    #[error("no memory")]
    NoMemory,
}

impl Model for Glob {
    ghost use Rattle.std.specs.Prelude.{◌<◌, List, ℕ, length};

    ghost Value = { List ℕ };

    ghost view = { λ a. a.bytes.items };

    ghost invariant = { λ a. 0 < length a.bytes.items };
}

impl Glob {
    /// The glob of a text. `Empty` comes exactly for the empty text; `NoMemory` comes only for another.
    pub fn parse(alloc: Global, text: &[u8]) -> Result<Glob, GlobError>
        ensures { MatchResult result (λ glob. (glob ≡ text.now) × (0 < length text.now)) (IsGlobErrorOf text.now) }
    {
        if text.is_empty() {
            return Err(GlobError::Empty);
        }
        match Vec::from_slice(alloc, text) {
            Ok(bytes) => Ok(Glob { bytes }),
            Err(_) => Err(GlobError::NoMemory),
        }
    }

    /// The text of the glob. Takes no memory.
    pub fn bytes(&self) -> &[u8]
        ensures bytes { result.now ≡ self.now }
        ensures some { 0 < length self.now }
    {
        self.bytes.as_slice()
    }

    /// Whether the glob stands for a text. Takes no memory, and time in proportion to the product of both lengths at most.
    pub fn matches(&self, text: &[u8]) -> bool
        ensures { result ≡ is_match self.now text.now }
    {
        matches(self.bytes(), text)
    }
}

impl Clone for Glob {
    ghost is_clone = { λ s t. t ≡ s };

    fn clone(&self) -> Result<Glob, AllocError> {
        Ok(Glob {
            bytes: self.bytes.clone()?,
        })
    }
}

impl PartialEq for Glob {
    ghost eq = { pointwise nat_eq };

    ghost laws = { partial_equiv_from_equiv nat_list_eq_equiv };

    fn eq(&self, other: &Glob) -> bool {
        self.bytes() == other.bytes()
    }
}

impl Eq for Glob {
    ghost laws = { nat_list_eq_equiv };
}
