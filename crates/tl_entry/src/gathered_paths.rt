//! Paths that come in any order, and rise.
ghost use Rattle.std.specs.Prelude.{◌≡◌, [], true, false, IfOk, OnErr, MatchBool};
ghost use Rattle.tl_entry.specs.Rising.{has_key, insert_by};

use crate::file_paths::append_paths;
use crate::gathered::in_order;
use crate::late::Late;
use crate::paths::Paths;
use std::alloc::{AllocError, Global};
use std::marker::Model;
use tl_path::{Path, PathRef};

/// Paths in rising order of their bytes, each once, as they come. One that is greater than all before costs one
/// comparison; in any order n of them take time in proportion to n log n.
#[derive(Drop)]
pub struct GatheredPaths {
    sorted: Paths,
    // Those that came behind a greater one.
    late: Late<Path>,
}

impl Model for GatheredPaths {
    ghost use Rattle.std.specs.Prelude.{List, ℕ};
    ghost use Rattle.tl_entry.specs.Gathering.{with_all, AreGathered};

    ghost Value = { List (List ℕ) };

    ghost view = { λ a. with_all (λ p. p) a.late a.sorted };

    ghost invariant = { λ a. AreGathered (λ p. p) a.sorted a.late };
}

impl GatheredPaths {
    /// No paths. Takes no memory.
    pub fn new(alloc: Global) -> Self
        ensures { result ≡ [] }
    {
        GatheredPaths {
            sorted: Paths::new(alloc),
            late: Late::new(alloc),
        }
    }

    /// Puts a path in its place, unless it is there already: then the answer is `false`, and nothing changes. Where memory
    /// runs out nothing changes.
    pub fn add(&mut self, alloc: Global, path: PathRef<'_>) -> Result<bool, AllocError>
        ensures ok { IfOk result (λ added. MatchBool added
            ((has_key (λ p. p) path.entry self.old ≡ false) × (self.new ≡ insert_by (λ p. p) path.entry self.old))
            ((has_key (λ p. p) path.entry self.old ≡ true) × (self.new ≡ self.old))) }
        ensures err { OnErr result (self.new ≡ self.old) }
    {
        let Some(at) = self.sorted.place_for(path.bytes()) else {
            return Ok(false);
        };
        if at < self.sorted.len() {
            return self.late.add(alloc, path.to_path(alloc)?);
        }
        self.sorted.push(path)?;
        Ok(true)
    }

    /// The paths in order.
    pub fn finish(self, alloc: Global) -> Result<Paths, AllocError>
        ensures { IfOk result (λ paths. paths ≡ self) }
    {
        let GatheredPaths { sorted, late } = self;
        let late = late.into_vec();
        if late.is_empty() {
            return Ok(sorted);
        }
        let mut paths = Vec::new(alloc);
        append_paths(alloc, &mut paths, &sorted)?;
        let paths = in_order(paths, late)?;
        Paths::of(alloc, paths.as_slice())
    }
}
