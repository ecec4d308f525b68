//! How far a round has come, and what comes of what is seen next.
ghost use Rattle.std.specs.Prelude.{◌≡◌, Ok, IfOk, IfErr};
ghost use Rattle.tl_copying.specs.Answers.{IsCopyError, IsStayed};
ghost use Rattle.tl_copying.specs.Copies.{meets, turned, turned_agreed, turned_container, turned_database, turned_digest, turned_files};
ghost use Rattle.tl_copying.specs.Demands.{containers_in};
ghost use Rattle.tl_copying.specs.declared.error.CopyError.TheVariants.{NoMemory};
ghost use Rattle.tl_copying.specs.declared.stage.Stage.TheVariants.{Database, Digest, Containers};
ghost use Rattle.tl_copying.specs.declared.stage.Turn.TheVariants.{Ended};

use crate::copying::Seen;
use crate::demand::{Demand, DemandList};
use crate::digest::digest_in;
use crate::error::CopyError;
use crate::naming::containers_in;
use sha2::{Digest, Sha512};
use std::alloc::Global;
use tl_file::Bytes;
use tl_path::{Path, PathRef};

/// What is to be copied of a repository.
#[derive(Drop)]
pub struct Manifest {
    /// The database.
    pub database: Bytes,
    /// The file with its digest, which agrees.
    pub digest: Bytes,
    /// The containers that it names, in the order of their names, each once, as the first entry that names it states it.
    pub containers: DemandList,
    /// What further entries state of a container that is named already.
    pub again: DemandList,
}

// How far a round has come.
#[derive(Drop)]
pub(crate) enum Stage {
    // Nothing was read.
    Database,
    // The database was read.
    Digest { database: Bytes },
    // Database and digest file were read and agree; the containers in front of the place have what is stated.
    Containers { manifest: Manifest, place: usize },
    // No further round begins: the last one ended at this name.
    Spent { name: Path },
}

// What comes of what was seen: the round goes on, or ends at a name.
#[derive(Drop)]
pub(crate) enum Turn {
    On(Stage),
    Ended(Path),
}

// Why a round stays where it is.
#[derive(Drop)]
pub(crate) struct Stayed {
    pub(crate) stage: Stage,
    pub(crate) error: CopyError,
}

// A round ends at a name, unless there is no memory to say it.
fn ends_at(alloc: Global, stage: Stage, name: PathRef<'_>) -> Result<Turn, Stayed>
    ensures ok { IfOk result (λ turn. turn ≡ Ended name.entry) }
    ensures err { IfErr result (λ stayed. (stayed.stage ≡ stage) × (stayed.error ≡ NoMemory)) }
{
    match name.to_path(alloc) {
        Ok(name) => Ok(Turn::Ended(name)),
        Err(_) => Err(Stayed {
            stage,
            error: CopyError::NoMemory,
        }),
    }
}

// What comes of what was seen where the database is wanted.
fn turn_database(alloc: Global, seen: Seen) -> Result<Turn, Stayed>
    ensures ok { IfOk result (λ turn. turned_database seen ≡ turn) }
    ensures err { IfErr result (IsStayed Database (Ok (turned_database seen))) }
{
    match seen {
        Seen::Text(database) => Ok(Turn::On(Stage::Digest { database })),
        _ => {
            let name = PathRef::known("tlpkg/texlive.tlpdb");
            ends_at(alloc, Stage::Database, name)
        }
    }
}

// The containers that a database's text names, in order, and those that name one of them again.
fn name_all(alloc: Global, text: &[u8]) -> Result<(DemandList, DemandList), CopyError>
    ensures ok { IfOk result (λ both. containers_in text.now ≡ Ok (record { first = both.0; again = both.1 })) }
    ensures err { IfErr result (IsCopyError (containers_in text.now)) }
{
    let naming = containers_in(alloc, text)?;
    Ok(naming.finish()?)
}

// Begins with the containers that a database names.
fn begin(alloc: Global, database: Bytes, digest: Bytes) -> Result<Turn, Stayed>
    ensures ok { IfOk result (λ turn. turned_agreed database digest ≡ Ok turn) }
    ensures err { IfErr result (IsStayed (Digest database) (turned_agreed database digest)) }
{
    match name_all(alloc, database.as_slice()) {
        Ok((containers, again)) => Ok(Turn::On(Stage::Containers {
            manifest: Manifest {
                database,
                digest,
                containers,
                again,
            },
            place: 0,
        })),
        Err(error) => Err(Stayed {
            stage: Stage::Digest { database },
            error,
        }),
    }
}

// What comes of a database and its digest file.
fn turn_files(alloc: Global, database: Bytes, digest: Bytes) -> Result<Turn, Stayed>
    ensures ok { IfOk result (λ turn. turned_files database digest ≡ Ok turn) }
    ensures err { IfErr result (IsStayed (Digest database) (turned_files database digest)) }
{
    let Some(want) = digest_in(digest.as_slice()) else {
        let name = PathRef::known("tlpkg/texlive.tlpdb.sha512");
        return ends_at(alloc, Stage::Digest { database }, name);
    };
    if Sha512::digest(database.as_slice()) != want {
        let name = PathRef::known("tlpkg/texlive.tlpdb");
        return ends_at(alloc, Stage::Digest { database }, name);
    }
    begin(alloc, database, digest)
}

// What comes of what was seen where the digest file is wanted.
fn turn_digest(alloc: Global, database: Bytes, seen: Seen) -> Result<Turn, Stayed>
    ensures ok { IfOk result (λ turn. turned_digest database seen ≡ Ok turn) }
    ensures err { IfErr result (IsStayed (Digest database) (turned_digest database seen)) }
{
    match seen {
        Seen::Text(digest) => turn_files(alloc, database, digest),
        _ => {
            let name = PathRef::known("tlpkg/texlive.tlpdb.sha512");
            ends_at(alloc, Stage::Digest { database }, name)
        }
    }
}

// Whether what was seen has the size and digest that a container is to have, by each entry that names it.
fn meets(manifest: &Manifest, demand: &Demand, seen: &Seen) -> bool
    ensures { result ≡ meets manifest.now demand.now seen.now }
{
    match seen {
        Seen::Container { size, digest } => {
            demand.is_met(*size, digest) && manifest.again.all_fit(&demand.name, *size, digest)
        }
        _ => false,
    }
}

// What comes of what was seen where the container of a place is wanted; nothing where all have come.
fn turn_container(manifest: Manifest, place: usize, seen: &Seen) -> Result<Turn, Stayed>
    ensures ok { IfOk result (λ turn. turned_container manifest place seen.now ≡ turn) }
    ensures err { IfErr result (IsStayed (Containers manifest place) (Ok (turned_container manifest place seen.now))) }
{
    let Some(demand) = manifest.containers.as_slice().get(place) else {
        return Ok(Turn::On(Stage::Containers { manifest, place }));
    };
    if meets(&manifest, demand, seen) {
        let place = place + 1;
        return Ok(Turn::On(Stage::Containers { manifest, place }));
    }
    match demand.name.clone() {
        Ok(name) => Ok(Turn::Ended(name)),
        Err(_) => Err(Stayed {
            stage: Stage::Containers { manifest, place },
            error: CopyError::NoMemory,
        }),
    }
}

/// What comes of what was seen, however far the round has come.
pub(crate) fn take_turn(alloc: Global, stage: Stage, seen: Seen) -> Result<Turn, Stayed>
    ensures ok { IfOk result (λ turn. turned stage seen ≡ Ok turn) }
    ensures err { IfErr result (IsStayed stage (turned stage seen)) }
{
    match stage {
        Stage::Database => turn_database(alloc, seen),
        Stage::Digest { database } => turn_digest(alloc, database, seen),
        Stage::Containers { manifest, place } => turn_container(manifest, place, &seen),
        Stage::Spent { name } => Ok(Turn::On(Stage::Spent { name })),
    }
}
