//! A database that is copied, and the format of its containers.
ghost use Rattle.std.specs.Prelude.{◌≡◌, Ok, IfOk, IfErr};
ghost use Rattle.std.specs.Option.{option_copied};
ghost use Rattle.tl_object.specs.Values.{stripped};
ghost use Rattle.tl_db.specs.Options.{first_after};
ghost use Rattle.tl_fetch.specs.Containers.{config_depends, container_format};
ghost use Rattle.tl_copying.specs.Answers.{IsCopyError};
ghost use Rattle.tl_copying.specs.Demands.{entries_in};

use crate::error::CopyError;
use std::alloc::{AllocError, Global};
use tl_db::{Db, DbError, read_db};
use tl_path::Name;
use tl_text::Text;

/// The entries of a database's text.
pub(crate) fn entries_in(alloc: Global, text: &[u8]) -> Result<Db, CopyError>
    ensures ok { IfOk result (λ db. entries_in text.now ≡ Ok db) }
    ensures err { IfErr result (IsCopyError (entries_in text.now)) }
{
    match read_db(alloc, text) {
        Ok(db) => Ok(db),
        Err(DbError::BadDatabase { line, kind }) => Err(CopyError::RepoDatabase { line, kind }),
        Err(DbError::TooLarge { what, limit }) => Err(CopyError::TooLarge { what, limit }),
        Err(DbError::NoMemory) => Err(CopyError::NoMemory),
    }
}

// The depends of the entry that configures a repository.
fn config_depends(alloc: Global, db: &Db) -> Result<&[Text], AllocError>
    ensures { IfOk result (λ depends. depends.now ≡ config_depends db.now) }
{
    let Ok(name) = Name::parse(alloc, b"00texlive.config") else {
        return Err(AllocError);
    };
    match db.get(&name) {
        Some(entry) => Ok(entry.depends.as_slice()),
        None => Ok(&[]),
    }
}

// What stands behind a text at the front of a line.
fn stripped<'a>(line: &'a Text, front: &[u8]) -> Option<&'a [u8]>
    ensures { option_copied result ≡ stripped front.now line.now }
{
    line.bytes().strip_prefix(front)
}

// What stands behind a text at the front of the first line that begins with it.
fn first_after<'a>(lines: &'a [Text], front: &[u8]) -> Option<&'a [u8]>
    ensures { option_copied result ≡ first_after front.now lines.now }
{
    for line in lines {
        if let Some(value) = stripped(line, front) {
            return Some(value);
        }
    }
    None
}

/// The format of a database's containers, empty where it names none.
pub(crate) fn container_format(alloc: Global, db: &Db) -> Result<&[u8], AllocError>
    ensures { IfOk result (λ format. format.now ≡ container_format db.now) }
{
    let depends = config_depends(alloc, db)?;
    match first_after(depends, b"container_format/") {
        Some(format) => Ok(format),
        None => Ok(&[]),
    }
}
