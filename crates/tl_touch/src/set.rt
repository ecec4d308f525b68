//! Paths in order.
ghost use Rattle.std.specs.Prelude.{◌≡◌, ◌<◌, ◌||◌, ◌&&◌, ℕ, nat_lt, length, slice_index_or, List, [], true, IfOk};
ghost use Rattle.std.specs.List.{list_any};
ghost use Rattle.tl_path.specs.Components.{is_below, is_touching};
ghost use Rattle.tl_entry.specs.Rising.{is_rising, has_key};

use std::alloc::{AllocError, Global};
use std::marker::Model;
use tl_entry::place_for;
use tl_path::Path;

/// Paths in the order of their bytes, each once, by which it is found whether one touches a path.
#[derive(Drop)]
pub struct PathSet {
    paths: Vec<Path>,
}

impl Model for PathSet {
    ghost use Rattle.std.specs.Prelude.{◌≡◌, true, ℕ, List};
    ghost use Rattle.tl_entry.specs.Rising.{is_rising};

    ghost Value = { List (List ℕ) };

    ghost view = { λ s. s.paths.items };

    ghost invariant = { λ s. is_rising (λ (p : List ℕ). p) s.paths.items ≡ true };
}

impl PathSet {
    /// These paths, which may come in any order and more than once. Takes no memory.
    pub fn of(paths: Vec<Path>) -> Self
        ensures { (path : List ℕ) → has_key (λ p. p) path result ≡ has_key (λ p. p) path paths.items }
    {
        let mut paths = paths;
        paths.sort_unstable();
        paths.dedup();
        PathSet { paths }
    }

    /// The paths in their order. Takes no memory.
    pub fn as_slice(&self) -> &[Path]
        ensures { result.now ≡ self.now }
    {
        self.paths.as_slice()
    }

    /// Whether a path is among them: log n comparisons of n paths. Takes no memory.
    pub fn has(&self, path: &[u8]) -> bool
        ensures { result ≡ has_key (λ p. p) path.now self.now }
    {
        match place_for(self.paths.as_slice(), path) {
            Some(_) => false,
            None => true,
        }
    }

    // Whether one of them is a folder that the path is below.
    fn has_above(&self, path: &[u8]) -> bool
        ensures { result ≡ list_any (λ other. is_below path.now other) self.now }
    {
        for (end, byte) in path.iter().enumerate() {
            if *byte == b'/' && self.has(&path[..end]) {
                return true;
            }
        }
        false
    }

    // Whether one of them is below the path: the first that isn't less than the path with a '/' behind it.
    fn has_below(&self, alloc: Global, path: &Path) -> Result<bool, AllocError>
        ensures { IfOk result (λ has. has ≡ list_any (λ other. is_below other path.now) self.now) }
    {
        let mut front = Vec::from_slice(alloc, path.bytes())?;
        front.push(b'/')?;
        match place_for(self.paths.as_slice(), front.as_slice()) {
            Some(place) => Ok(self.is_below_at(place, path)),
            None => Ok(true),
        }
    }

    // Whether the path at a place is below another one.
    fn is_below_at(&self, place: usize, path: &Path) -> bool
        ensures { result ≡ (nat_lt place (length self.now) && is_below (slice_index_or self.now place []) path.now) }
    {
        match self.paths.get(place) {
            Some(next) => next.is_below(path),
            None => false,
        }
    }

    /// Whether one of them touches a path and isn't the same. It takes log n comparisons for each component.
    pub fn touches_beside(&self, alloc: Global, path: &Path) -> Result<bool, AllocError>
        ensures { IfOk result (λ touches. touches
            ≡ (list_any (λ other. is_below path.now other) self.now || list_any (λ other. is_below other path.now) self.now)) }
    {
        if self.has_above(path.bytes()) {
            return Ok(true);
        }
        self.has_below(alloc, path)
    }

    /// Whether one of them touches a path. It takes log n comparisons for each component.
    pub fn touches(&self, alloc: Global, path: &Path) -> Result<bool, AllocError>
        ensures { IfOk result (λ touches. touches ≡ list_any (is_touching path.now) self.now) }
    {
        if self.has(path.bytes()) {
            return Ok(true);
        }
        self.touches_beside(alloc, path)
    }
}
