//! Elements that come in any order, and rise by their keys.
ghost use Rattle.std.specs.Prelude.{◌≡◌, ◌∷◌, [], true, false, IfOk, OnOk, OnErr, MatchBool};
ghost use Rattle.std.specs.Cmp.Lexicographic.{slice_cmp};
ghost use Rattle.std.specs.Ordering.{nat_cmp};
ghost use Rattle.tl_entry.specs.Rising.{is_rising, has_key, insert_by};
ghost use Rattle.tl_entry.specs.Gathering.{with_all, IsInOrder};

use crate::late::Late;
use crate::rising::{Keyed, place_for};
use std::alloc::{AllocError, Global};
use std::cmp::Ordering;
use std::marker::Model;

/// Elements in rising order of their keys, each key once, as they come. One whose key is greater than all before costs one
/// comparison; in any order n of them take time in proportion to n log n.
#[derive(Drop)]
pub struct Gathered<T: Keyed + Drop> {
    sorted: Vec<T>,
    // Those that came behind one with a greater key.
    late: Late<T>,
}

impl<T: Keyed + Drop> Model for Gathered<T> {
    ghost use Rattle.std.specs.Prelude.{List};
    ghost use Rattle.tl_entry.specs.Gathering.{with_all, AreGathered};

    ghost Value = { List T };

    ghost view = { λ a. with_all T.key a.late a.sorted.items };

    ghost invariant = { λ a. AreGathered T.key a.sorted.items a.late };
}

impl<T: Keyed + Drop> Gathered<T> {
    /// No elements. Takes no memory.
    pub fn new(alloc: Global) -> Self
        ensures { result ≡ [] }
    {
        Gathered {
            sorted: Vec::new(alloc),
            late: Late::new(alloc),
        }
    }

    /// Whether an element has this key. Takes no memory.
    pub fn has(&self, key: &[u8]) -> bool
        ensures { result ≡ has_key T.key key.now self.now }
    {
        match place_for(self.sorted.as_slice(), key) {
            Some(_) => self.late.has(key),
            None => true,
        }
    }

    /// Puts an element in its place, unless one has its key already: then the answer is `false`, and nothing changes. Where
    /// memory runs out nothing changes.
    pub fn add(&mut self, alloc: Global, item: T) -> Result<bool, AllocError>
        ensures ok { IfOk result (λ added. MatchBool added
            ((has_key T.key (T.key item) self.old ≡ false) × (self.new ≡ insert_by T.key item self.old))
            ((has_key T.key (T.key item) self.old ≡ true) × (self.new ≡ self.old))) }
        ensures err { OnErr result (self.new ≡ self.old) }
    {
        let Some(at) = place_for(self.sorted.as_slice(), item.key()) else {
            return Ok(false);
        };
        if at < self.sorted.len() {
            return self.late.add(alloc, item);
        }
        self.sorted.push(item)?;
        Ok(true)
    }

    /// Puts an element in its place. None has its key yet. Where memory runs out nothing changes.
    pub fn put(&mut self, alloc: Global, item: T) -> Result<(), AllocError>
        requires { has_key T.key (T.key item) self.old ≡ false }
        ensures ok { OnOk result (self.new ≡ insert_by T.key item self.old) }
        ensures err { OnErr result (self.new ≡ self.old) }
    {
        if self.add(alloc, item)? {
            Ok(())
        } else {
            unreachable!()
        }
    }

    /// The elements in order.
    pub fn finish(self) -> Result<Vec<T>, AllocError>
        ensures items { IfOk result (λ items. items.items ≡ self) }
        ensures rising { IfOk result (λ items. is_rising T.key items.items ≡ true) }
    {
        let Gathered { sorted, late } = self;
        let late = late.into_vec();
        if late.is_empty() {
            return Ok(sorted);
        }
        in_order(sorted, late)
    }
}

fn by_key<T: Keyed>(a: &T, b: &T) -> Ordering
    ensures { result ≡ slice_cmp nat_cmp (T.key a.now) (T.key b.now) }
{
    a.key().cmp(b.key())
}

fn sort_by_keys<T: Keyed>(items: &mut Vec<T>)
    ensures { IsInOrder T.key items.old.items items.new.items }
{
    items.sort_unstable_by(by_key::<T>);
}

pub(crate) fn in_order<T: Keyed + Drop>(sorted: Vec<T>, late: Vec<T>) -> Result<Vec<T>, AllocError>
    requires { is_rising T.key (with_all T.key late.items sorted.items) ≡ true }
    ensures { IfOk result (λ items. items.items ≡ with_all T.key late.items sorted.items) }
{
    let mut items = sorted;
    let mut late = late;
    items.append(&mut late)?;
    sort_by_keys(&mut items);
    Ok(items)
}
