//! Names of formats, each once.
ghost use Rattle.std.specs.Prelude.{◌≡◌, [], OnOk};
ghost use Rattle.tl_trigger.specs.Stale.{with_format};

use std::alloc::{AllocError, Global};
use std::collections::HashSet;
use std::marker::Model;
use tl_text::Text;

// The names in the order in which they came, and the same names as a set.
#[derive(Drop)]
pub(crate) struct Formats {
    names: Vec<Text>,
    seen: HashSet<String>,
}

impl Model for Formats {
    ghost use Rattle.std.specs.Prelude.{◌≡◌, ℕ, List, bytes_eq};
    ghost use Rattle.std.specs.List.{list_any};
    ghost use Rattle.std.specs.HashSet.{contains_text};

    ghost Value = { List (List ℕ) };

    ghost view = { λ a. a.names.items };

    ghost invariant = { λ a. (text : List ℕ) → contains_text a.seen text ≡ list_any (bytes_eq text) a.names.items };
}

impl Formats {
    pub(crate) fn new(alloc: Global) -> Formats
        ensures { result ≡ [] }
    {
        Formats {
            names: Vec::new(alloc),
            seen: HashSet::new(alloc),
        }
    }

    // Adds a name, unless it is there.
    pub(crate) fn add(&mut self, alloc: Global, name: &Text) -> Result<(), AllocError>
        ensures { OnOk result (self.new ≡ with_format self.old name.now) }
    {
        if self.seen.contains(name.text()) {
            return Ok(());
        }
        self.names.reserve(1)?;
        let copy = name.try_clone(alloc)?;
        self.seen.insert(String::from_str(alloc, name.text())?)?;
        self.names.push(copy)?;
        Ok(())
    }

    pub(crate) fn into_vec(self) -> Vec<Text>
        ensures { result.items ≡ self }
    {
        self.names
    }
}
