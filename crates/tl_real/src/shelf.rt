//! Folders of real files as a shelf.
ghost use Rattle.std.specs.Prelude.{◌≡◌, ◌≤◌, ◌<◌, ◌↔◌, false, length, IsSome, IfOk};
ghost use Rattle.tl_model.specs.Causes.{HasCause, Rose};
ghost use Rattle.tl_real.specs.Untold.{untold_shelf, Failing};

use crate::failure::{Changes, Doing, Failure};
use crate::kept::Kept;
use crate::making::fill;
use crate::place::Place;
use crate::stands::{file_len, is_absence};
use std::alloc::AllocError;
use std::fs::File;
use std::io;
use std::marker::Model;
use std::rt::Files;
use tl_host::{Failed, Shelf};
use tl_path::Path;

/// Folders of real files, each a repository, by number from 0. It tells nothing but its counts of faults and of answers that a name is
/// absent; contracts see it as these.
///
/// A file is a regular file or a link that leads to one. A name below a folder that is missing, or of a repository that isn't there, is
/// absent. A call on a folder whose path is not UTF-8 or is empty fails. It writes nothing, locks nothing, and keeps open the file that
/// is being read.
#[derive(Drop)]
pub struct FolderShelf<'a, R: Files<File = File> + AllocGlobal> {
    rt: &'a R,
    folders: Vec<Place>,
    reading: Kept,
    faults: u64,
    absences: u64,
    failure: Option<Failure>,
}

impl<'a, R: Files<File = File> + AllocGlobal> Model for FolderShelf<'a, R> {
    ghost use Rattle.std.specs.Prelude.{◌<◌, ◌↔◌, IsSome};
    ghost use Rattle.tl_real.specs.Untold.{Failing, failing_code};

    ghost Value = { Failing };

    ghost coded = { failing_code };

    ghost view = { λ s. record { faults = s.faults; absences = s.absences } };

    ghost invariant = { λ s. IsSome s.failure ↔ (0 < s.faults) };
}

impl<'a, R: Files<File = File> + AllocGlobal> FolderShelf<'a, R> {
    /// The repositories in these folders, with no fault and no absence. It touches nothing. The error is want of memory.
    pub fn new(rt: &'a R, folders: &[Vec<u8>]) -> Result<FolderShelf<'a, R>, AllocError>
        ensures faults { IfOk result (λ shelf. shelf.faults ≡ 0) }
        ensures absences { IfOk result (λ shelf. shelf.absences ≡ 0) }
    {
        let alloc = rt.alloc();
        let mut places = Vec::new(alloc);
        for folder in folders {
            places.push(Place::new(alloc, folder)?)?;
        }
        Ok(FolderShelf {
            rt,
            folders: places,
            reading: Kept::new(alloc),
            faults: 0,
            absences: 0,
            failure: None,
        })
    }

    /// Why the last call that failed did so; `None` exactly where none has.
    pub fn failure(&self) -> Option<&Failure>
        ensures { IsSome result ↔ (0 < self.now.faults) }
    {
        self.failure.as_ref()
    }

    fn fail(&mut self, doing: Doing, repo: u32, cause: io::Error)
        ensures later { self.old.faults ≤ self.new.faults }
        ensures rose { Rose self.old.faults self.new.faults }
        ensures absences { self.new.absences ≡ self.old.absences }
    {
        let alloc = self.rt.alloc();
        let failure = match self.folders.get(repo as usize) {
            Some(place) => Failure::new(alloc, doing, place.path(), cause, Changes::Nothing),
            None => Failure::new(alloc, doing, "", cause, Changes::Nothing),
        };
        self.faults = self.faults.saturating_add(1);
        self.failure = Some(failure);
    }
}

// The length of a repository's file.
fn size_in<R: Files<File = File> + AllocGlobal>(
    rt: &R,
    folders: &mut Vec<Place>,
    repo: u32,
    name: &str,
) -> io::Result<Option<u64>> {
    match folders.get_mut(repo as usize) {
        Some(place) => {
            place.go(name)?;
            file_len(rt, place.path())
        }
        None => Ok(None),
    }
}

// Fills the buffer from a place in a repository's file, as far as the file goes.
fn read_in<R: Files<File = File> + AllocGlobal>(
    rt: &R,
    folders: &mut Vec<Place>,
    reading: &mut Kept,
    repo: u32,
    name: &str,
    from: u64,
    into: &mut [u8],
) -> io::Result<usize>
    ensures { IfOk result (λ count. count ≤ length into.new) }
{
    let Some(place) = folders.get_mut(repo as usize) else {
        return Ok(0);
    };
    place.go(name)?;
    if reading.file(place.path()).is_none() {
        open_in(rt, place, reading)?;
    }
    match reading.file(place.path()) {
        Some(file) => fill(file, from, into),
        None => Ok(0),
    }
}

// Opens the file at a place, where there is one. It looks first whether a file stands there, since opening a pipe may take forever.
fn open_in<R: Files<File = File> + AllocGlobal>(
    rt: &R,
    place: &Place,
    reading: &mut Kept,
) -> io::Result<()> {
    reading.close();
    if file_len(rt, place.path())?.is_none() {
        return Ok(());
    }
    match File::open(rt, place.path()) {
        Ok(file) => reading.keep(place.path(), file),
        Err(error) if is_absence(&error) => Ok(()),
        Err(error) => Err(error),
    }
}

impl<'a, R: Files<File = File> + AllocGlobal> Shelf for FolderShelf<'a, R> {
    ghost tells = { false };

    ghost seen = { untold_shelf };

    fn size(&mut self, repo: u32, name: &Path) -> Result<Option<u64>, Failed> {
        match size_in(self.rt, &mut self.folders, repo, name.text()) {
            Ok(Some(size)) => Ok(Some(size)),
            Ok(None) => {
                self.absences = self.absences.saturating_add(1);
                Ok(None)
            }
            Err(cause) => {
                self.fail(Doing::Look, repo, cause);
                Err(Failed)
            }
        }
    }

    fn read(
        &mut self,
        repo: u32,
        name: &Path,
        from: u64,
        into: &mut [u8],
    ) -> Result<usize, Failed> {
        let answered = read_in(
            self.rt,
            &mut self.folders,
            &mut self.reading,
            repo,
            name.text(),
            from,
            into,
        );
        match answered {
            Ok(count) => Ok(count),
            Err(cause) => {
                self.fail(Doing::Read, repo, cause);
                Err(Failed)
            }
        }
    }
}
