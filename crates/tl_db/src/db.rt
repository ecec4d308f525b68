//! Entries by name.
ghost use Rattle.std.specs.Prelude.{◌≡◌, ◌<◌, ◌≤◌, List, [], true, false, IfOk, OnOk, OnErr, MatchOption, length, slice_index_or, option_copied};
ghost use Rattle.std.specs.Iterator.{YieldsFirstRef, item_count};
ghost use Rattle.tl_model.specs.Volume.{same_name};
ghost use Rattle.tl_entry.specs.declared.object.Object.{Object};
ghost use Rattle.tl_entry.specs.Rising.{is_rising, has_key, insert_by};
ghost use Rattle.tl_db.specs.Entries.{entry_of, others};

use std::alloc::{AllocError, Global};
use std::cmp::Ordering;
use std::marker::Model;
use tl_object::{Keyed, Object, copies, place_for};
use tl_path::Name;

/// A database: its entries, each under its name. Contracts see the entries in rising order of their names, each name once.
#[derive(Drop)]
pub struct Db {
    objects: Vec<Object>,
}

// Where the entry with this name stands among entries that rise by their names.
pub(crate) fn place_of(objects: &[Object], name: &[u8]) -> Option<usize>
    requires { is_rising (λ o. o.name) objects.now ≡ true }
    ensures { MatchOption result (has_key (λ o. o.name) name.now objects.now ≡ false) (λ at. (at < length objects.now)
        × ((d : Object) → same_name (slice_index_or objects.now at d).name name.now ≡ true)) }
{
    let mut low = 0;
    let mut high = objects.len();
    while low < high {
        let middle = low + (high - low) / 2;
        match objects[middle].key().cmp(name) {
            Ordering::Less => low = middle + 1,
            Ordering::Equal => return Some(middle),
            Ordering::Greater => high = middle,
        }
    }
    None
}

impl Model for Db {
    ghost use Rattle.std.specs.Prelude.{◌≡◌, List, true};
    ghost use Rattle.tl_entry.specs.declared.object.Object.{Object};
    ghost use Rattle.tl_entry.specs.Rising.{is_rising};

    ghost Value = { List Object };

    ghost view = { λ a. a.objects.items };

    ghost invariant = { λ a. is_rising (λ o. o.name) a.objects.items ≡ true };
}

impl Db {
    /// The database without entries. Takes no memory.
    pub fn new(alloc: Global) -> Db
        ensures { result ≡ [] }
    {
        Db {
            objects: Vec::new(alloc),
        }
    }

    pub(crate) fn of_rising(objects: Vec<Object>) -> Db
        requires { is_rising (λ o. o.name) objects.items ≡ true }
        ensures { result ≡ objects.items }
    {
        Db { objects }
    }

    /// How many entries it has. Takes no memory.
    pub fn len(&self) -> usize
        ensures { result ≡ length self.now }
    {
        self.objects.len()
    }

    pub(crate) fn objects(&self) -> &[Object]
        ensures objects { result.now ≡ self.now }
        ensures rising { is_rising (λ o. o.name) self.now ≡ true }
    {
        self.objects.as_slice()
    }

    /// Adds an entry whose name no entry has.
    pub(crate) fn add(&mut self, object: Object) -> Result<(), AllocError>
        requires { has_key (λ o. o.name) object.name self.old ≡ false }
        ensures ok { OnOk result (self.new ≡ insert_by (λ o. o.name) object self.old) }
        ensures err { OnErr result (self.new ≡ self.old) }
    {
        let Some(at) = place_for(self.objects.as_slice(), object.key()) else {
            unreachable!()
        };
        self.objects.insert(at, object)?;
        Ok(())
    }

    pub(crate) fn entry(&self, name: &[u8]) -> Option<&Object>
        ensures { option_copied result ≡ entry_of name.now self.now }
    {
        match place_of(self.objects.as_slice(), name) {
            Some(at) => Some(&self.objects[at]),
            None => None,
        }
    }

    /// The entry with this name. Takes no memory.
    pub fn get(&self, name: &Name) -> Option<&Object>
        ensures { option_copied result ≡ entry_of name.now self.now }
    {
        self.entry(name.bytes())
    }

    /// An equal database.
    pub fn copy(&self, alloc: Global) -> Result<Db, AllocError>
        ensures { IfOk result (λ copy. copy ≡ self.now) }
    {
        Ok(Db {
            objects: copies(alloc, self.objects.as_slice())?,
        })
    }

    /// Puts an entry in the place of the one with its name, or among the others. Where memory runs out nothing changes.
    pub fn with(&mut self, object: Object) -> Result<(), AllocError>
        ensures ok { OnOk result (self.new ≡ insert_by (λ o. o.name) object (others object.name self.old)) }
        ensures err { OnErr result (self.new ≡ self.old) }
    {
        match place_of(self.objects.as_slice(), object.key()) {
            Some(at) => {
                self.objects[at] = object;
                Ok(())
            }
            None => self.add(object),
        }
    }

    /// Leaves out the entry with this name, and says whether it was there. Takes no memory.
    pub fn without(&mut self, name: &Name) -> bool
        ensures left { self.new ≡ others name.now self.old }
        ensures there { result ≡ has_key (λ o. o.name) name.now self.old }
    {
        match place_of(self.objects.as_slice(), name.bytes()) {
            Some(at) => {
                let _ = self.objects.remove(at);
                true
            }
            None => false,
        }
    }

    /// The entries in rising order of their names. Takes no memory.
    pub fn entries(&self) -> Entries<'_>
        ensures { result.rest.now ≡ self.now }
    {
        Entries {
            rest: self.objects.as_slice(),
        }
    }
}

/// The entries of a database, in rising order of their names.
#[derive(Drop)]
pub struct Entries<'a> {
    pub(crate) rest: &'a [Object],
}

impl<'a> Iterator for Entries<'a> {
    type Item = &'a Object;

    ghost next_gives = { YieldsFirstRef (λ s. s.rest.now) };

    ghost remaining = { item_count (λ s. s.rest.now) };

    fn next(&mut self) -> Option<&'a Object> {
        let (first, others) = self.rest.split_first()?;
        self.rest = others;
        Some(first)
    }
}
