//! The canonical form of a database's text.
ghost use Rattle.std.specs.Prelude.{◌≡◌, ◌≤◌, ◌++◌, ℕ, true, List, length, Ok, IfOk, IfSome, IsSomeAnd, MatchResult};
ghost use Rattle.tl_model.specs.Acks.{IsPlain};
ghost use Rattle.tl_entry.specs.Rising.{comes_before};
ghost use Rattle.tl_entry.specs.declared.object.Object.{Object};
ghost use Rattle.tl_written.specs.Pieces.{IsFormed};
ghost use Rattle.tl_db.specs.Canonical.{IsRewritten, IsCanonical, IsTold, IsBehind};
ghost use Rattle.tl_db.specs.Reading.{IsDbError};
ghost use Rattle.tl_db.specs.Text.{entry_text};

use crate::fault::DbError;
use crate::read::{MOST_BYTES, MOST_PACKAGES, read_db};
use crate::write::write_db;
use std::alloc::Global;
use std::cmp::Ordering;
use tl_written::{Written, written_entry};

// The name of the entry at the front of a text, where that stands there as it is written, with the empty line behind it, and its
// name is greater than the last one; and what stands behind.
fn entry_behind<'a>(last: &[u8], text: &'a [u8]) -> Option<Written<'a>>
    ensures stands { IfSome result (λ entry. IsBehind last.now entry.name.now text.now entry.rest.now) }
    ensures finds { (o : Object) (rest : List ℕ) → IsFormed o → comes_before last.now o.name ≡ true → text.now ≡ entry_text o ++ rest → IsSomeAnd result (λ entry. (entry.name.now ≡ o.name) × (entry.rest.now ≡ rest)) }
{
    let Written { name, rest } = written_entry(text)?;
    let rest = rest.strip_prefix(b"\n")?;
    match last.cmp(name) {
        Ordering::Less => Some(Written { name, rest }),
        Ordering::Equal | Ordering::Greater => None,
    }
}

// Whether a text is that of entries which rise by their names, each as it is written. What is written reads as its entry again.
fn is_canonical(text: &[u8]) -> bool
    ensures told { (result ≡ true) → IsTold text.now }
    ensures all { IsCanonical text.now → result ≡ true }
{
    let mut last: &[u8] = &[];
    let mut count = 0;
    let mut rest = text;
    while !rest.is_empty() {
        if count == MOST_PACKAGES {
            return false;
        }
        let Some(entry) = entry_behind(last, rest) else {
            return false;
        };
        last = entry.name;
        rest = entry.rest;
        count += 1;
    }
    true
}

// The same by the entries of the whole text.
fn rewritten(alloc: Global, text: &[u8]) -> Result<Vec<u8>, DbError>
    ensures text { MatchResult result (λ canonical. IsRewritten text.now canonical.items) (IsDbError text.now) }
    ensures plain { IfOk result (λ canonical. IsPlain canonical.items) }
{
    let db = match read_db(alloc, text) {
        Ok(db) => db,
        Err(error) => return Err(error),
    };
    match write_db(alloc, &db) {
        Ok(canonical) => Ok(canonical),
        Err(_) => Err(DbError::NoMemory),
    }
}

/// The text that `write_db` gives for the database of a text. Refused as `read_db` refuses it. A text that is in this form is
/// given back as it is, after one walk over it that makes no values and takes no memory, so that it never lacks any. Only for another
/// one its entries are read.
pub fn canonical_text(alloc: Global, text: Vec<u8>) -> Result<Vec<u8>, DbError>
    ensures text { MatchResult result (λ canonical. IsRewritten text.items canonical.items) (IsDbError text.items) }
    ensures plain { IfOk result (λ canonical. IsPlain canonical.items) }
    ensures kept { length text.items ≤ 268435456 → IsCanonical text.items → result ≡ Ok text }
{
    if text.len() as u64 <= MOST_BYTES && is_canonical(text.as_slice()) {
        return Ok(text);
    }
    rewritten(alloc, text.as_slice())
}
