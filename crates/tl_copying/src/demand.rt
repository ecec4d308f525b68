//! The containers that a database names.
ghost use Rattle.std.specs.Prelude.{◌≡◌, ◌++◌, ◌∷◌, [], OnOk};
ghost use Rattle.std.specs.List.{list_all};
ghost use Rattle.tl_copying.specs.Demands.{suits, is_met};

use std::alloc::{AllocError, Global};
use std::marker::Model;
use tl_entry::Keyed;
use tl_path::Path;

/// A container that a database names: its name in the repository, and the size and the SHA-512 that an entry states of it.
#[derive(Drop)]
pub struct Demand {
    pub name: Path,
    pub size: u64,
    pub digest: [u8; 64],
}

impl Demand {
    /// Whether this size and digest are the stated ones.
    pub(crate) fn is_met(&self, size: u64, digest: &[u8; 64]) -> bool
        ensures { result ≡ is_met size digest.now self.now }
    {
        self.size == size && self.digest == *digest
    }

    // Whether a container has the stated size and digest, where it is the demanded one.
    fn suits(&self, name: &Path, size: u64, digest: &[u8; 64]) -> bool
        ensures { result ≡ suits name.now size digest.now self.now }
    {
        self.name != *name || self.is_met(size, digest)
    }
}

impl Keyed for Demand {
    ghost key = { λ demand. demand.name };

    fn key(&self) -> &[u8] {
        self.name.bytes()
    }
}

/// Containers that a database names, in an order. Contracts see the list.
#[derive(Drop)]
pub struct DemandList {
    items: Vec<Demand>,
}

impl Model for DemandList {
    ghost use Rattle.std.specs.Prelude.{List};
    ghost use Rattle.tl_copying.specs.declared.demand.Demand.{Demand};

    ghost Value = { List Demand };

    ghost view = { λ l. l.items.items };
}

impl DemandList {
    /// None. No memory.
    pub(crate) fn new(alloc: Global) -> DemandList
        ensures { result ≡ [] }
    {
        DemandList {
            items: Vec::new(alloc),
        }
    }

    /// These. No memory.
    pub(crate) fn of(items: Vec<Demand>) -> DemandList
        ensures { result ≡ items.items }
    {
        DemandList { items }
    }

    /// Adds one at the end.
    pub(crate) fn push(&mut self, demand: Demand) -> Result<(), AllocError>
        ensures { OnOk result (self.new ≡ self.old ++ demand ∷ []) }
    {
        self.items.push(demand)?;
        Ok(())
    }

    /// They. No memory.
    pub fn as_slice(&self) -> &[Demand]
        ensures { result.now ≡ self.now }
    {
        self.items.as_slice()
    }

    /// Whether a container has the size and digest of each of them that has its name. No memory.
    pub(crate) fn all_fit(&self, name: &Path, size: u64, digest: &[u8; 64]) -> bool
        ensures { result ≡ list_all (suits name.now size digest.now) self.now }
    {
        self.items
            .iter()
            .all(|demand| demand.suits(name, size, digest))
    }
}
