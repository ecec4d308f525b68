//! The reading of a tree's database.
ghost use Rattle.std.specs.Prelude.{◌≡◌, ℕ, List, IfOk, IfErr};
ghost use Rattle.tl_model.specs.Acks.{IsPlain};
ghost use Rattle.tl_model.specs.Causes.{HasCauseOf};
ghost use Rattle.tl_model.specs.Seen.{Told, Quiet};
ghost use Rattle.tl_journal_text.specs.Stand.{tree_of};
ghost use Rattle.tl_db.specs.Reading.{IsRead, IsDbError};
ghost use Rattle.tl_db.specs.Canonical.{IsRewritten};
ghost use Rattle.tl_tree.specs.Planted.{database_text};
ghost use Rattle.tl_tree.specs.Answers.{IsTreeError};
ghost use Rattle.tl_tree.specs.declared.error.TreeError.TheVariants.{HostFault as LoadFault};

use crate::error::TreeError;
use std::alloc::Global;
use tl_db::{Db, DbError, What, canonical_text, read_db};
use tl_host::{FileError, Host};
use tl_journal::Clean;
use tl_path::PathRef;

const MOST_BYTES: u64 = 268_435_456;

// The text of the database; no bytes where it is absent.
fn read_text<H: Host>(alloc: Global, journal: &mut Clean<H>) -> Result<Vec<u8>, TreeError>
    ensures text { Told H.tells (IfOk result (λ text. text.items ≡ database_text (tree_of journal.old.present.held))) }
    ensures error { Told H.tells (IfErr result (IsTreeError (database_text (tree_of journal.old.present.held)))) }
    ensures same { Told H.tells (Quiet journal.old journal.new) }
    ensures cause { HasCauseOf (λ error. error ≡ LoadFault) journal.old.faults journal.new.faults result }
{
    let database = PathRef::known("tlpkg/texlive.tlpdb");
    match journal.read_file(alloc, database, MOST_BYTES) {
        Ok(Some(text)) => Ok(text),
        Ok(None) => Ok(Vec::new(alloc)),
        Err(FileError::TooLarge) => Err(TreeError::TooLarge {
            what: What::Database,
            limit: MOST_BYTES,
        }),
        Err(FileError::HostFault) => Err(TreeError::HostFault),
        Err(FileError::NoMemory) => Err(TreeError::NoMemory),
    }
}

fn tree_error(error: DbError) -> TreeError
    ensures error { (text : List ℕ) → IsDbError text error → IsTreeError text result }
    ensures quiet { result ≡ LoadFault → ⊥ }
{
    match error {
        DbError::BadDatabase { line, kind } => TreeError::BadDatabase { line, kind },
        DbError::TooLarge { what, limit } => TreeError::TooLarge { what, limit },
        DbError::NoMemory => TreeError::NoMemory,
    }
}

/// The entries of the database of a volume at rest; none where it is absent.
pub fn read_entries<H: Host>(alloc: Global, journal: &mut Clean<H>) -> Result<Db, TreeError>
    ensures db { Told H.tells (IfOk result (IsRead (database_text (tree_of journal.old.present.held)))) }
    ensures error { Told H.tells (IfErr result (IsTreeError (database_text (tree_of journal.old.present.held)))) }
    ensures same { Told H.tells (Quiet journal.old journal.new) }
    ensures cause { HasCauseOf (λ error. error ≡ LoadFault) journal.old.faults journal.new.faults result }
{
    let text = match read_text(alloc, journal) {
        Ok(text) => text,
        Err(error) => return Err(error),
    };
    match read_db(alloc, text.as_slice()) {
        Ok(db) => Ok(db),
        Err(error) => Err(tree_error(error)),
    }
}

/// The text of the database of a volume at rest in its canonical form, which is plain; no bytes where it is absent. Refused as
/// `Tree::load` refuses it. It reads the database alone, and changes nothing. A database that is in this form already takes little
/// more memory than its text.
pub fn canonical_database<H: Host>(
    alloc: Global,
    journal: &mut Clean<H>,
) -> Result<Vec<u8>, TreeError>
    ensures text { Told H.tells (IfOk result (λ text. IsRewritten (database_text (tree_of journal.old.present.held)) text.items)) }
    ensures plain { IfOk result (λ text. IsPlain text.items) }
    ensures error { Told H.tells (IfErr result (IsTreeError (database_text (tree_of journal.old.present.held)))) }
    ensures same { Told H.tells (Quiet journal.old journal.new) }
    ensures cause { HasCauseOf (λ error. error ≡ LoadFault) journal.old.faults journal.new.faults result }
{
    let text = match read_text(alloc, journal) {
        Ok(text) => text,
        Err(error) => return Err(error),
    };
    match canonical_text(alloc, text) {
        Ok(text) => Ok(text),
        Err(error) => Err(tree_error(error)),
    }
}
