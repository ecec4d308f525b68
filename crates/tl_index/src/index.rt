//! The index, and what is asked of it.
ghost use Rattle.std.specs.Prelude.{◌≡◌, ◌≤◌, ◌<◌, ◌+◌, ◌==◌, ◌++◌, ◌∷◌, [], ℕ, List, true, not, length, drop, filter, IsTrue, IfOk, OnOk, OnErr};
ghost use Rattle.std.specs.List.{list_any};
ghost use Rattle.tl_path.specs.Components.{is_below};
ghost use Rattle.tl_entry.specs.Rising.{is_rising};
ghost use Rattle.tl_index.specs.declared.hit.Hit.{Hit};
ghost use Rattle.tl_index.specs.Entries.{path_of, with_leaf, has, without, leaf_of, is_directly_in};
ghost use Rattle.tl_index.specs.Fronts.{begins, IsFirstFrom, IsStretch};
ghost use Rattle.tl_index.specs.Folders.{Knows, KnowsAll, Keeps};

use crate::folders::{Folders, shared};
use crate::fronts::{comes_before, first_from, stretch};
use crate::hit::{Hit, Leaf};
use std::alloc::{AllocError, Global};
use std::marker::Model;
use tl_path::Path;

/// Paths in the order of their bytes, each once and with its leaf.
#[derive(Drop)]
pub struct Index {
    pub(crate) entries: Vec<Hit>,
    // Those of all entries; one that became empty stays.
    pub(crate) folders: Folders,
}

impl Model for Index {
    ghost use Rattle.std.specs.Prelude.{List};
    ghost use Rattle.tl_index.specs.declared.hit.Hit.{Hit};
    ghost use Rattle.tl_index.specs.Folders.{IsIndex};

    ghost Value = { List Hit };

    ghost view = { λ a. a.entries.items };

    ghost invariant = { λ a. IsIndex a.folders a.entries.items };
}

// The place of the first path that isn't before this one; a path behind all others costs one comparison.
fn place_of(hits: &[Hit], path: &Path) -> usize
    requires { is_rising path_of hits.now ≡ true }
    ensures { IsFirstFrom path.now hits.now result }
{
    let Some(last) = hits.last() else {
        return 0;
    };
    if comes_before(last.path.bytes(), path.bytes()) {
        return hits.len();
    }
    first_from(hits, path.bytes())
}

// Whether a path stands at its place.
fn is_at(hits: &[Hit], at: usize, path: &Path) -> bool
    requires rising { is_rising path_of hits.now ≡ true }
    requires place { IsFirstFrom path.now hits.now at }
    ensures there { result ≡ has path.now hits.now }
    ensures within { IsTrue result → at < length hits.now }
{
    at < hits.len() && hits[at].path == *path
}

// How many bytes at the front of a path that goes in at a place it has in common with the path before.
fn in_common(hits: &[Hit], at: usize, path: &Path) -> usize
    requires { at ≤ length hits.now }
    ensures { (folder : List ℕ) → begins (folder ++ 47 ∷ []) path.now ≡ true → length folder < result
        → list_any (λ (h : Hit). begins (folder ++ 47 ∷ []) h.path) hits.now ≡ true }
{
    if at == 0 {
        return 0;
    }
    shared(hits[at - 1].path.bytes(), path.bytes())
}

// Adds the folders of a path that goes in at a place; those that it has in common with the path before it are there.
fn learn(
    alloc: Global,
    folders: &mut Folders,
    hits: &[Hit],
    at: usize,
    path: &Path,
) -> Result<(), AllocError>
    requires known { KnowsAll folders.old hits.now }
    requires place { at ≤ length hits.now }
    ensures ok { OnOk result (Knows folders.new path.now) }
    ensures keeps { Keeps folders.old folders.new }
{
    let from = in_common(hits, at, path);
    folders.add_all(alloc, path.bytes(), from)
}

// Whether there is no '/' in a path behind a directory's.
fn has_one_part(path: &Path, dir: &Path) -> bool
    ensures { result ≡ not (list_any (λ b. b == 47) (drop (length dir.now + 1) path.now)) }
{
    match path.bytes().get(dir.bytes().len() + 1..) {
        Some(rest) => !rest.contains(&b'/'),
        None => true,
    }
}

fn copies(alloc: Global, hits: &[Hit]) -> Result<Vec<Hit>, AllocError>
    ensures { IfOk result (λ copy. copy.items ≡ hits.now) }
{
    hits.to_vec(alloc)
}

// Keeps the entries in whose paths there is no '/' behind a directory's.
fn keep_direct(hits: &mut Vec<Hit>, dir: &Path)
    ensures { hits.new.items ≡ filter (λ (h : Hit). not (list_any (λ b. b == 47) (drop (length dir.now + 1) h.path))) hits.old.items }
{
    hits.retain(|hit| has_one_part(&hit.path, dir));
}

impl Index {
    /// No paths. Takes no memory.
    pub fn new(alloc: Global) -> Index
        ensures { result ≡ [] }
    {
        Index {
            entries: Vec::new(alloc),
            folders: Folders::new(alloc),
        }
    }

    /// Puts a path in, or gives one that is there another leaf. A path behind all others costs one comparison, another one time in
    /// proportion to the paths behind it. Where memory runs out nothing changes.
    pub fn insert(&mut self, alloc: Global, path: Path, leaf: Leaf) -> Result<(), AllocError>
        ensures ok { OnOk result (self.new ≡ with_leaf path leaf self.old) }
        ensures err { OnErr result (self.new ≡ self.old) }
    {
        let at = place_of(&self.entries, &path);
        if is_at(&self.entries, at, &path) {
            self.entries[at].leaf = leaf;
            return Ok(());
        }
        learn(alloc, &mut self.folders, &self.entries, at, &path)?;
        self.entries.insert(at, Hit { path, leaf })?;
        Ok(())
    }

    /// Takes a path out; whether it was there. Takes no memory, and time in proportion to the paths behind it.
    pub fn remove(&mut self, path: &Path) -> bool
        ensures left { self.new ≡ without path.now self.old }
        ensures there { result ≡ has path.now self.old }
    {
        let at = first_from(&self.entries, path.bytes());
        let is_there = is_at(&self.entries, at, path);
        if is_there {
            let _ = self.entries.remove(at);
        }
        is_there
    }

    /// A path's leaf; `None` exactly where it isn't there. Takes no memory.
    pub fn get(&self, path: &Path) -> Option<Leaf>
        ensures { result ≡ leaf_of path.now self.now }
    {
        let at = first_from(&self.entries, path.bytes());
        if is_at(&self.entries, at, path) {
            Some(self.entries[at].leaf)
        } else {
            None
        }
    }

    /// All entries, in the order of their bytes. Takes no memory.
    pub fn hits(&self) -> &[Hit]
        ensures hits { result.now ≡ self.now }
        ensures rising { is_rising path_of self.now ≡ true }
    {
        self.entries.as_slice()
    }

    /// All entries below a directory, in the order of their bytes. Time in proportion to their number.
    pub fn below(&self, alloc: Global, dir: &Path) -> Result<Vec<Hit>, AllocError>
        ensures { IfOk result (λ hits. hits.items ≡ filter (λ (h : Hit). is_below h.path dir.now) self.now) }
    {
        let (low, high) = self.stretch_below(alloc, dir.bytes())?;
        let copy = copies(alloc, &self.entries[low..high])?;
        Ok(copy)
    }

    /// All entries directly in a directory, in the order of their bytes. Time in proportion to the number of those below it.
    pub fn in_dir(&self, alloc: Global, dir: &Path) -> Result<Vec<Hit>, AllocError>
        ensures { IfOk result (λ hits. hits.items ≡ filter (λ (h : Hit). is_directly_in h.path dir.now) self.now) }
    {
        let mut hits = self.below(alloc, dir)?;
        keep_direct(&mut hits, dir);
        Ok(hits)
    }

    // Where the entries below a folder stand.
    pub(crate) fn stretch_below(
        &self,
        alloc: Global,
        folder: &[u8],
    ) -> Result<(usize, usize), AllocError>
        ensures { IfOk result (λ places. IsStretch (folder.now ++ 47 ∷ []) self.now places.0 places.1) }
    {
        let mut front = Vec::from_slice(alloc, folder)?;
        front.push(b'/')?;
        Ok(stretch(&self.entries, &front))
    }
}
