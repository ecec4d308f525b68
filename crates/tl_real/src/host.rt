ghost use Rattle.std.specs.Prelude.{◌≡◌, ◌≤◌, ◌<◌, ◌↔◌, false, IsTrue, IsSome, IfOk, IfSome, length, take, option_map};
ghost use Rattle.tl_model.specs.Causes.{HasCause, Rose};
ghost use Rattle.tl_model.specs.Seen.{untold};
ghost use Rattle.tl_model.specs.Volume.{IsAfter};
ghost use Rattle.tl_path.specs.Path.{IsPath};

use crate::failure::Failure;
use crate::folder::Folder;
use std::alloc::AllocError;
use std::cmp::Ordering;
use std::fs::File;
use std::io;
use std::io::ErrorKind;
use std::marker::Model;
use std::rt::Files;
use tl_host::{Failed, Host};
use tl_path::PathRef;

/// A folder of real files, and standard output. It tells nothing but its count of faults; contracts see it as that.
///
/// A file is a regular file or a link that leads to one. Whatever else stands at a name, as a folder, a link to a folder,
/// a link to nothing, a pipe or a device, is no file there: it is passed over, and never opened. A name that is no path
/// is passed over too. `size` fails at a name where no file stands and none can come: one that the file system can't hold, one at
/// which a pipe or a device stands, or a folder that holds, at any depth, something that is no folder and that no walk lists, and
/// one below a pipe, a device or a link to nothing.
///
/// `create` lets go of the file or link that stands at the name, or of a tree of empty folders, and makes the missing folders; a file
/// that it replaces hands its mode on, and another one below `bin/` is made executable. `append` adds to no file that has another
/// name: it makes a copy first. `remove` also removes the folders that are empty then, but not the whole folder, and leaves those that
/// it may not remove.
///
/// `sync` makes each touched file, each folder in which a name came or went, and the folders above durable, and asks nothing of the disk
/// where no name is touched; the first one makes durable what an earlier program left of the journal. Once the system has failed at
/// that, each later `sync` fails too. `next_name` lists each folder once where each call goes on from the name before.
///
/// The first call but `say` locks the whole folder together with other programs that read, and the first one that changes something
/// locks it for this host alone, both without waiting, and for as long as the host lives. A folder that is missing, that another
/// program holds, or whose path is not UTF-8 or is empty makes each call but `say` fail.
#[derive(Drop)]
pub struct FolderHost<'a, R: Files<File = File> + Print + AllocGlobal> {
    folder: Folder<'a, R>,
    faults: u64,
    failure: Option<Failure>,
}

impl<'a, R: Files<File = File> + Print + AllocGlobal> Model for FolderHost<'a, R> {
    ghost use Rattle.std.specs.Prelude.{ℕ, ◌<◌, ◌↔◌, IsSome};

    ghost Value = { ℕ };

    ghost view = { λ h. h.faults };

    ghost invariant = { λ h. IsSome h.failure ↔ (0 < h.faults) };
}

impl<'a, R: Files<File = File> + Print + AllocGlobal> FolderHost<'a, R> {
    /// The folder at this path, with no fault. It touches nothing. The error is want of memory.
    pub fn new(rt: &'a R, folder: &[u8]) -> Result<FolderHost<'a, R>, AllocError>
        ensures { IfOk result (λ faults. faults ≡ 0) }
    {
        Ok(FolderHost {
            folder: Folder::new(rt, folder)?,
            faults: 0,
            failure: None,
        })
    }

    /// Why the last call that failed did so; `None` exactly where none has.
    pub fn failure(&self) -> Option<&Failure>
        ensures { IsSome result ↔ (0 < self.now) }
    {
        self.failure.as_ref()
    }

    // What was answered, with a failure kept.
    fn answer<T: Drop>(&mut self, answered: io::Result<T>) -> Result<T, Failed>
        ensures { HasCause self.old self.new result }
    {
        match answered {
            Ok(value) => Ok(value),
            Err(cause) => {
                self.fail(cause);
                Err(Failed)
            }
        }
    }

    fn fail(&mut self, cause: io::Error)
        ensures later { self.old ≤ self.new }
        ensures rose { Rose self.old self.new }
    {
        let failure = self.folder.failure(cause);
        self.faults = self.faults.saturating_add(1);
        self.failure = Some(failure);
    }

    // Writes the name that the walk gave last, which is to be a path after `after`, and gives its length.
    fn give(&self, after: Option<PathRef<'_>>, name: &mut [u8; 1024]) -> Option<usize>
        ensures { IfSome result (λ count. (count ≤ 1024) × IsPath (take count name.new)
            × IsAfter after.entry (take count name.new)) }
    {
        let given = self.folder.given().unwrap_or("");
        write_path(given.as_bytes(), after, name)
    }
}

impl<'a, R: Files<File = File> + Print + AllocGlobal> Host for FolderHost<'a, R> {
    ghost tells = { false };

    ghost seen = { λ faults. untold faults };

    fn size(&mut self, name: PathRef<'_>) -> Result<Option<u64>, Failed> {
        let answered = self.folder.size(name.text());
        self.answer(answered)
    }

    fn read(&mut self, name: PathRef<'_>, from: u64, into: &mut [u8]) -> Result<usize, Failed> {
        match self.folder.read(name.text(), from, into) {
            Ok(count) => Ok(count),
            Err(cause) => {
                self.fail(cause);
                Err(Failed)
            }
        }
    }

    fn next_name(
        &mut self,
        after: Option<PathRef<'_>>,
        name: &mut [u8; 1024],
    ) -> Result<Option<usize>, Failed> {
        let text = match &after {
            Some(path) => path.text(),
            None => "",
        };
        match self.folder.next(text) {
            Ok(false) => Ok(None),
            Ok(true) => match self.give(after, name) {
                Some(count) => Ok(Some(count)),
                None => {
                    self.fail(io::Error::from(ErrorKind::InvalidFilename));
                    Err(Failed)
                }
            },
            Err(cause) => {
                self.fail(cause);
                Err(Failed)
            }
        }
    }

    fn create(&mut self, name: PathRef<'_>) -> Result<(), Failed> {
        let answered = self.folder.create(name.text());
        self.answer(answered)
    }

    fn append(&mut self, name: PathRef<'_>, bytes: &[u8]) -> Result<(), Failed> {
        let answered = self.folder.append(name.text(), bytes);
        self.answer(answered)
    }

    fn remove(&mut self, name: PathRef<'_>) -> Result<(), Failed> {
        let answered = self.folder.remove(name.text());
        self.answer(answered)
    }

    fn sync(&mut self) -> Result<(), Failed> {
        let answered = self.folder.sync();
        self.answer(answered)
    }

    fn say(&mut self, bytes: &[u8]) -> Result<(), Failed> {
        let answered = self.folder.say(bytes);
        self.answer(answered)
    }
}

// `None` where it is no such path.
fn write_path(found: &[u8], after: Option<PathRef<'_>>, name: &mut [u8; 1024]) -> Option<usize>
    ensures { IfSome result (λ count. (count ≤ 1024) × IsPath (take count name.new)
        × IsAfter after.entry (take count name.new)) }
{
    if is_path_after(found, after) {
        put(found, name)
    } else {
        None
    }
}

fn is_path_after(found: &[u8], after: Option<PathRef<'_>>) -> bool
    ensures path { IsTrue result → IsPath found.now }
    ensures after { IsTrue result → IsAfter after.entry found.now }
{
    PathRef::check(found).is_ok() && is_after(found, after)
}

fn is_after(found: &[u8], after: Option<PathRef<'_>>) -> bool
    ensures { IsTrue result → IsAfter after.entry found.now }
{
    match after {
        Some(path) => path.bytes().cmp(found) == Ordering::Less,
        None => true,
    }
}

fn put(found: &[u8], name: &mut [u8; 1024]) -> Option<usize>
    ensures { IfSome result (λ count. (count ≤ 1024) × (take count name.new ≡ found.now)) }
{
    let count = found.len();
    if count > name.len() {
        return None;
    }
    name[..count].copy_from_slice(found);
    Some(count)
}
