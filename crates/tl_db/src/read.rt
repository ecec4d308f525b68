//! The reading of a database.
ghost use Rattle.std.specs.Prelude.{◌≡◌, ◌<◌, ◌^◌, length, MatchResult};
ghost use Rattle.tl_object.specs.Reading.{GivesAt};
ghost use Rattle.tl_db.specs.Reading.{db_of, IsRead, IsDbError};

use crate::db::Db;
use crate::fault::DbError;
use std::alloc::Global;
use tl_entry::Gathered;
use tl_kind::What;
use tl_object::{LineKind, ObjectError, next_entry, read_entry, read_entry_name};

pub(crate) const MOST_BYTES: u64 = 268_435_456;

pub(crate) const MOST_PACKAGES: u64 = 65_536;

fn read_all(alloc: Global, text: &[u8]) -> Result<Db, ObjectError>
    requires { length text.now < 2 ^ 32 }
    ensures { GivesAt result (db_of text.now) }
{
    let mut objects = Gathered::new(alloc);
    let mut number = 0;
    let mut rest = text;
    while let Some((before, start)) = next_entry(number, rest) {
        let named = match read_entry_name(alloc, before, start) {
            Ok(named) => named,
            Err(fault) => return Err(fault),
        };
        if objects.has(named.name.bytes()) {
            return Err(ObjectError::BadObject {
                line: named.line,
                kind: LineKind::Repeated,
            });
        }
        let entry = match read_entry(alloc, before, start) {
            Ok(entry) => entry,
            Err(fault) => return Err(fault),
        };
        objects.put(alloc, entry.object)?;
        number = entry.number;
        rest = entry.rest;
    }
    Ok(Db::of_rising(objects.finish()?))
}

/// The database of a text: entries that empty lines separate. Stretches that have only lines that begin with `#` are no
/// entries. In this order: `TooLarge` of `Database` where the text passes 268,435,456 bytes; `BadDatabase` at the first bad
/// line, with the first kind of fault that it has; `TooLarge` of `Packages` where there are more than 65,536 entries.
pub fn read_db(alloc: Global, text: &[u8]) -> Result<Db, DbError>
    ensures { MatchResult result (IsRead text.now) (IsDbError text.now) }
{
    if text.len() as u64 > MOST_BYTES {
        return Err(DbError::TooLarge {
            what: What::Database,
            limit: MOST_BYTES,
        });
    }
    let db = match read_all(alloc, text) {
        Ok(db) => db,
        Err(ObjectError::BadObject { line, kind }) => return Err(DbError::BadDatabase {
            line,
            kind,
        }),
        Err(ObjectError::NoMemory) => return Err(DbError::NoMemory),
    };
    if db.len() as u64 > MOST_PACKAGES {
        return Err(DbError::TooLarge {
            what: What::Packages,
            limit: MOST_PACKAGES,
        });
    }
    Ok(db)
}
