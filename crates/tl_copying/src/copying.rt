//! A copy of a repository that may change meanwhile: rounds, each of which reads all of it anew.
ghost use Rattle.std.specs.Prelude.{◌≡◌, Ok, IfOk, IfErr, OnOk};
ghost use Rattle.std.specs.Option.{option_copied};
ghost use Rattle.tl_copying.specs.Answers.{IsCopyError};
ghost use Rattle.tl_copying.specs.Copies.{ended_at, manifest_in, new_copy, having_taken, want_of};
ghost use Rattle.tl_copying.specs.Rounds.{Agreement};
ghost use Rattle.tl_copying.specs.Worlds.{OnePublication, Progress};

use crate::error::CopyError;
use crate::stage::{Manifest, Stage, Turn, take_turn};
use std::alloc::{AllocError, Global};
use std::mem::replace;
use tl_file::Bytes;
use tl_path::Path;

// How many rounds may begin behind the first one.
const MORE_ROUNDS: u32 = 7;

/// What a copy wants to be read next.
#[derive(Drop)]
pub enum Want {
    /// The database.
    Database,
    /// The file with its digest.
    Digest,
    /// A container that the database names, with the size that is stated of it.
    Container { name: Path, size: u64 },
    /// Nothing: all of a repository was read.
    Whole,
    /// Nothing: eight rounds have ended, the last of them at this name.
    Spent { name: Path },
}

/// What was seen of the file that was wanted.
#[derive(Drop)]
pub enum Seen {
    /// The database, or the file with its digest.
    Text(Bytes),
    /// The size and the SHA-512 of a container.
    Container { size: u64, digest: [u8; 64] },
    /// There is no such file.
    Gone,
}

/// A copy of a repository. A round reads the database, the file with its digest, and then the containers that the database names, in the
/// order of their names, each once. It ends where a file is gone, isn't in its form or isn't what is stated of it, and the next one begins
/// with the database; eight are the most.
#[derive(Drop)]
pub struct Copying {
    more: u32,
    stage: Stage,
}

impl Copying {
    /// Nothing was read. No memory. From here on three laws hold. Agreement: whatever is seen, a copy that is whole is one of a database, its
    /// digest file and each container that the database names, with the size and digest that are stated of it. One publication: of a
    /// repository whose publications agree on the containers that they share, all of it is of one of them, and none that was made whole before
    /// its database was read is newer. Progress: a round that has read database and digest file of one publication goes on to its last
    /// container, as long as at most one more has begun.
    pub fn new() -> Copying
        ensures copying { result ≡ new_copy }
        ensures agreement { Agreement }
        ensures one_publication { OnePublication }
        ensures progress { Progress }
    {
        Copying {
            more: MORE_ROUNDS,
            stage: Stage::Database,
        }
    }

    /// What is to be read next.
    pub fn want(&self) -> Result<Want, AllocError>
        ensures { IfOk result (λ want. want ≡ want_of self.now) }
    {
        match &self.stage {
            Stage::Database => Ok(Want::Database),
            Stage::Digest { .. } => Ok(Want::Digest),
            Stage::Containers { manifest, place } => match manifest
                .containers
                .as_slice()
                .get(*place)
            {
                Some(demand) => Ok(Want::Container {
                    name: demand.name.clone()?,
                    size: demand.size,
                }),
                None => Ok(Want::Whole),
            },
            Stage::Spent { name } => Ok(Want::Spent {
                name: name.clone()?,
            }),
        }
    }

    /// What is to be copied, once database and digest file were read and agree. No memory.
    pub fn manifest(&self) -> Option<&Manifest>
        ensures { option_copied result ≡ manifest_in self.now.stage }
    {
        match &self.stage {
            Stage::Containers { manifest, .. } => Some(manifest),
            _ => None,
        }
    }

    // The round has ended at a name.
    fn end(&mut self, name: Path)
        ensures { self.new ≡ ended_at name self.old.more }
    {
        if self.more == 0 {
            self.stage = Stage::Spent { name };
        } else {
            self.more -= 1;
            self.stage = Stage::Database;
        }
    }

    /// Takes what was seen of the file that is wanted. A text where a container is wanted, and a container where a text is, counts as gone.
    /// Where nothing is wanted nothing changes. A database whose digest agrees is refused in this order: `TooLarge` of `Database`,
    /// `RepoDatabase`, `TooLarge` of `Packages`; then, entry after entry, at each container that is named, `ContainerFormat`, `NoContainer` and
    /// `TooLarge` of `Frame`. After an error the copy is as before. A container costs a look at each that is named more than once.
    pub fn take(&mut self, alloc: Global, seen: Seen) -> Result<(), CopyError>
        ensures ok { OnOk result (having_taken self.old seen ≡ Ok self.new) }
        ensures err { IfErr result (IsCopyError (having_taken self.old seen)) }
        ensures unchanged { IfErr result (λ _. self.new ≡ self.old) }
    {
        let stage = replace(&mut self.stage, Stage::Database);
        match take_turn(alloc, stage, seen) {
            Ok(Turn::On(stage)) => {
                self.stage = stage;
                Ok(())
            }
            Ok(Turn::Ended(name)) => {
                self.end(name);
                Ok(())
            }
            Err(stayed) => {
                self.stage = stayed.stage;
                Err(stayed.error)
            }
        }
    }
}
