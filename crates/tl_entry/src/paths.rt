//! Paths that stand in one text.
ghost use Rattle.std.specs.Prelude.{◌≡◌, ◌++◌, ◌∷◌, ◌<◌, ◌==◌, [], true, length, slice_index_or, IfOk, OnOk, OnErr, MatchOption};
ghost use Rattle.tl_path.specs.Path.{IsPath};
ghost use Rattle.tl_entry.specs.Rising.{is_rising, has_key, IsPlace};
ghost use Rattle.tl_entry.specs.Left.{paths_left};

use crate::rising::next_try;
use std::alloc::{AllocError, Global};
use std::cmp::Ordering;
use std::marker::Model;
use tl_path::{Path, PathRef};

/// Paths in rising order of their bytes, each once, kept in one text.
#[derive(Drop)]
pub struct Paths {
    text: Vec<u8>,
    places: Vec<Place>,
}

// Where a path begins and ends in the text.
#[derive(Clone, Copy)]
struct Place {
    start: usize,
    end: usize,
}

impl Model for Paths {
    ghost use Rattle.std.specs.Prelude.{ℕ, List};
    ghost use Rattle.tl_entry.specs.Table.{stretches, IsTable};

    ghost Value = { List (List ℕ) };

    ghost view = { λ a. stretches a.text.items a.places.items };

    ghost invariant = { λ a. IsTable a.text.items a.places.items };
}

impl Paths {
    /// No paths. Takes no memory.
    pub fn new(alloc: Global) -> Self
        ensures { result ≡ [] }
    {
        Paths {
            text: Vec::new(alloc),
            places: Vec::new(alloc),
        }
    }

    /// These paths, which rise strictly.
    pub fn of(alloc: Global, paths: &[Path]) -> Result<Self, AllocError>
        requires { is_rising (λ path. path) paths.now ≡ true }
        ensures { IfOk result (λ copy. copy ≡ paths.now) }
    {
        let mut copy = Paths::new(alloc);
        for path in paths {
            copy.push(path.view())?;
        }
        Ok(copy)
    }

    /// How many they are. Takes no memory.
    pub fn len(&self) -> usize
        ensures len { result ≡ length self.now }
        ensures rising { is_rising (λ path. path) self.now ≡ true }
    {
        self.places.len()
    }

    /// Whether there is none. Takes no memory.
    pub fn is_empty(&self) -> bool
        ensures { result ≡ (length self.now == 0) }
    {
        self.places.is_empty()
    }

    /// The path at this index. Takes no memory.
    pub fn at(&self, index: usize) -> PathRef<'_>
        requires { index < length self.now }
        ensures path { result ≡ slice_index_or self.now index [] }
        ensures form { IsPath (slice_index_or self.now index []) }
    {
        let place = self.places[index];
        PathRef::of_bytes(&self.text[place.start..place.end])
    }

    /// Where a path goes in among them; `None` where it is there. The last path comes first, then halves: n paths cost
    /// log n comparisons. Takes no memory.
    pub fn place_for(&self, path: &[u8]) -> Option<usize>
        ensures { MatchOption result (has_key (λ p. p) path.now self.now ≡ true)
            (λ at. IsPlace (λ p. p) path.now self.now at) }
    {
        let mut low = 0;
        let mut high = self.len();
        while low < high {
            let middle = next_try(low, high, self.len());
            match self.at(middle).bytes().cmp(path) {
                Ordering::Less => low = middle + 1,
                Ordering::Equal => return None,
                Ordering::Greater => high = middle,
            }
        }
        Some(low)
    }

    /// Whether a path is among them. Takes log n comparisons of n paths and no memory.
    pub fn has(&self, path: &[u8]) -> bool
        ensures { result ≡ has_key (λ p. p) path.now self.now }
    {
        self.place_for(path).is_none()
    }

    /// Adds a path at the end. It is greater than each that is there. Where memory runs out nothing changes.
    pub fn push(&mut self, path: PathRef<'_>) -> Result<(), AllocError>
        requires { IsPlace (λ p. p) path self.old (length self.old) }
        ensures ok { OnOk result (self.new ≡ self.old ++ path.entry ∷ []) }
        ensures err { OnErr result (self.new ≡ self.old) }
    {
        self.places.reserve(1)?;
        let start = self.text.len();
        self.text.extend_from_slice(path.bytes())?;
        let end = self.text.len();
        self.places.push(Place { start, end })?;
        Ok(())
    }

    /// The paths from the first on. Takes no memory.
    pub fn iter(&self) -> PathsIter<'_>
        ensures { paths_left result ≡ self.now }
    {
        PathsIter { paths: self, at: 0 }
    }

    /// The same paths once more: two copies of memory, whatever their number.
    pub fn copy(&self, alloc: Global) -> Result<Self, AllocError>
        ensures { IfOk result (λ copy. copy ≡ self.now) }
    {
        Ok(Paths {
            text: Vec::from_slice(alloc, self.text.as_slice())?,
            places: Vec::from_slice(alloc, self.places.as_slice())?,
        })
    }
}

/// An iterator over paths in their order.
#[derive(Drop)]
pub struct PathsIter<'a> {
    paths: &'a Paths,
    at: usize,
}

impl<'a> Iterator for PathsIter<'a> {
    ghost use Rattle.std.specs.Iterator.{YieldsFirst, item_count};
    ghost use Rattle.tl_entry.specs.Left.{paths_left};

    type Item = PathRef<'a>;

    ghost next_gives = { YieldsFirst paths_left };

    ghost remaining = { item_count paths_left };

    fn next(&mut self) -> Option<PathRef<'a>> {
        if self.at < self.paths.len() {
            let path = self.paths.at(self.at);
            self.at += 1;
            Some(path)
        } else {
            None
        }
    }
}
