//! The loading of a repository.
ghost use Rattle.std.specs.Prelude.{◌≡◌, ◌≤◌, length, IfOk, IfErr};
ghost use Rattle.tl_model.specs.Causes.{HasCauseOf, Rose};
ghost use Rattle.tl_model.specs.Devices.{SameShelf};
ghost use Rattle.tl_model.specs.Seen.{Told};
ghost use Rattle.tl_kind.specs.Quantities.{limit_of};
ghost use Rattle.tl_kind.specs.declared.quantity.What.TheVariants.{Database};
ghost use Rattle.tl_repo.specs.Faults.{Gives, IsAbsent, IsOfBytes};
ghost use Rattle.tl_repo.specs.Files.{volume_of};
ghost use Rattle.tl_repo.specs.Loading.{entries_under, repo_of};
ghost use Rattle.tl_repo.specs.declared.error.RepoError.TheVariants.{ShelfFault as Fault};

use crate::digest::read_digest;
use crate::error::RepoError;
use crate::file::read_file;
use sha2::{Digest, Sha512};
use std::alloc::Global;
use tl_db::{Db, DbError, Repo, read_db};
use tl_host::Shelf;
use tl_kind::What;
use tl_path::{PathRef, Tag};

// The entries of a database with this digest.
fn read_entries(alloc: Global, text: &[u8], want: [u8; 64]) -> Result<Db, RepoError>
    requires { length text.now ≤ limit_of Database }
    ensures entries { Gives (λ db. db) result (entries_under want text.now) }
    ensures bytes { IfErr result IsOfBytes }
{
    let got = Sha512::digest(text);
    if got != want {
        return Err(RepoError::RepoDigest { want, got });
    }
    match read_db(alloc, text) {
        Ok(db) => Ok(db),
        Err(DbError::BadDatabase { line, kind }) => Err(RepoError::RepoDatabase { line, kind }),
        Err(DbError::TooLarge { what, limit }) => Err(RepoError::TooLarge { what, limit }),
        Err(DbError::NoMemory) => Err(RepoError::NoMemory),
    }
}

/// The repository of a number, loaded under a tag. In this order: `Absent` and `TooLarge` of the database; `Absent` of the file with its
/// digest, and `BadDigestLine` where that states none; `RepoDigest` where the database has another; only then is it read:
/// `RepoDatabase`, and `TooLarge` of `Packages`. `Absent` comes only where the count of absences rose, `ShelfFault` only where that of
/// faults did. It takes memory for the database's text and its entries.
pub fn load<S: Shelf>(
    alloc: Global,
    shelf: &mut S,
    number: u32,
    tag: &Tag,
) -> Result<Repo, RepoError>
    ensures repo { Told S.tells (Gives (λ r. r) result
        (repo_of number tag.now (volume_of (S.seen shelf.old).repositories number))) }
    ensures named { IfOk result (λ repo. (repo.number ≡ number) × (repo.tag ≡ tag.now)) }
    ensures same { SameShelf (S.seen shelf.old) (S.seen shelf.new) }
    ensures cause { HasCauseOf (λ error. error ≡ Fault) (S.seen shelf.old).faults (S.seen shelf.new).faults result }
    ensures absent { IfErr result (λ error. IsAbsent error → Rose (S.seen shelf.old).absences (S.seen shelf.new).absences) }
{
    let name = PathRef::known("tlpkg/texlive.tlpdb").to_path(alloc)?;
    let text = read_file(alloc, shelf, number, name, What::Database)?;
    let want = read_digest(alloc, shelf, number)?;
    let db = read_entries(alloc, text.as_slice(), want)?;
    let tag = tag.clone()?;
    Ok(Repo { number, tag, db })
}
