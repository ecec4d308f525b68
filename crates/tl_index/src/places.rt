//! A set of places.
ghost use Rattle.std.specs.Prelude.{◌≡◌, ◌+◌, ◌==◌, ◌&&◌, ◌≤◌, [], if◌then◌else◌, OnOk};
ghost use Rattle.tl_index.specs.Places.{has_place, AreSet};

use std::alloc::{AllocError, Global};
use std::collections::BTreeSet;
use std::marker::Model;

#[derive(Drop)]
pub(crate) struct Places {
    pub(crate) set: BTreeSet<usize>,
}

impl Model for Places {
    ghost use Rattle.std.specs.Prelude.{List, ℕ};

    ghost Value = { List ℕ };

    ghost view = { λ a. a.set.keys };
}

impl Places {
    ghost use Rattle.std.specs.Prelude.{ℕ, Bool};

    pub(crate) fn new(alloc: Global) -> Places
        ensures { result ≡ [] }
    {
        Places {
            set: BTreeSet::new(alloc),
        }
    }

    // Puts a place in, or takes it out.
    pub(crate) fn set(&mut self, place: usize, positive: bool) -> Result<(), AllocError>
        ensures { OnOk result ((i : ℕ) → has_place self.new i ≡ (if i == place then positive else has_place self.old i)) }
    {
        if positive {
            self.set.insert(place)?;
        } else {
            self.set.remove(&place);
        }
        Ok(())
    }

    // Puts a place in, or takes it out, where that is to be done.
    pub(crate) fn set_if(
        &mut self,
        is_hit: bool,
        place: usize,
        positive: bool,
    ) -> Result<(), AllocError>
        ensures { OnOk result ((i : ℕ) → has_place self.new i ≡ (if is_hit && i == place then positive else has_place self.old i)) }
    {
        if is_hit {
            self.set(place, positive)?;
        }
        Ok(())
    }

    // Puts all places from one on in, before another, or takes them out.
    pub(crate) fn set_all(
        &mut self,
        low: usize,
        high: usize,
        positive: bool,
    ) -> Result<(), AllocError>
        requires { low ≤ high }
        ensures { OnOk result (AreSet low high positive self.old self.new) }
    {
        for place in low..high {
            self.set(place, positive)?;
        }
        Ok(())
    }
}
