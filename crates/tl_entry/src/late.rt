//! Elements that came late, and their keys.
ghost use Rattle.std.specs.Prelude.{◌≡◌, ◌++◌, ◌∷◌, [], true, false, IfOk, OnErr, MatchBool};
ghost use Rattle.tl_entry.specs.Rising.{has_key};

use crate::rising::Keyed;
use std::alloc::{AllocError, Global};
use std::collections::BTreeSet;
use std::marker::Model;

/// Elements in the order in which they came, no two with one key.
#[derive(Drop)]
pub(crate) struct Late<T: Keyed + Drop> {
    items: Vec<T>,
    keys: BTreeSet<Vec<u8>>,
}

impl<T: Keyed + Drop> Model for Late<T> {
    ghost use Rattle.std.specs.Prelude.{List};
    ghost use Rattle.tl_entry.specs.Gathering.{IsKeySet};

    ghost Value = { List T };

    ghost view = { λ a. a.items.items };

    ghost invariant = { λ a. IsKeySet T.key a.items.items a.keys.keys };
}

impl<T: Keyed + Drop> Late<T> {
    /// No elements. Takes no memory.
    pub(crate) fn new(alloc: Global) -> Self
        ensures { result ≡ [] }
    {
        Late {
            items: Vec::new(alloc),
            keys: BTreeSet::new(alloc),
        }
    }

    pub(crate) fn has(&self, key: &[u8]) -> bool
        ensures { result ≡ has_key T.key key.now self.now }
    {
        self.keys.contains(key)
    }

    /// Adds an element, unless one has its key already: then the answer is `false`.
    pub(crate) fn add(&mut self, alloc: Global, item: T) -> Result<bool, AllocError>
        ensures ok { IfOk result (λ added. MatchBool added
            ((has_key T.key (T.key item) self.old ≡ false) × (self.new ≡ self.old ++ item ∷ []))
            ((has_key T.key (T.key item) self.old ≡ true) × (self.new ≡ self.old))) }
        ensures err { OnErr result (self.new ≡ self.old) }
    {
        let key = Vec::from_slice(alloc, item.key())?;
        self.items.reserve(1)?;
        if !self.keys.insert(key)? {
            return Ok(false);
        }
        self.items.push(item)?;
        Ok(true)
    }

    /// The elements. Takes no memory.
    pub(crate) fn into_vec(self) -> Vec<T>
        ensures { result.items ≡ self }
    {
        self.items
    }
}
