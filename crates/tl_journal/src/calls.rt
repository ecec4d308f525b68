// The host's calls on each state of a journal.
ghost use Rattle.std.specs.Prelude.{◌≡◌, ◌<◌, ◌≤◌, length, take, IfOk, IfSome, IsErrOf};
ghost use Rattle.std.specs.Option.{option_map};
ghost use Rattle.tl_host.specs.Reading.{held_at};
ghost use Rattle.tl_host.specs.declared.file.FileError.TheVariants.{TooLarge, HostFault as FileFault};
ghost use Rattle.tl_model.specs.Causes.{HasCause, HasCauseOf};
ghost use Rattle.tl_model.specs.Seen.{Told, Quiet};
ghost use Rattle.tl_model.specs.Volume.{at, IsAfter};
ghost use Rattle.tl_path.specs.Path.{IsPath};
ghost use Rattle.tl_journal.specs.Asked.{GivesSize, GivesBytes, GivesNext, SaysOnly};

use crate::states::{Applied, Clean, Committed, Staging};
use std::alloc::Global;
use tl_host::{Failed, FileError, Host, read_file};
use tl_path::PathRef;

impl<H: Host> Applied<H> {
    /// The length of a file; `None` exactly where the name is absent.
    pub fn size(&mut self, name: PathRef<'_>) -> Result<Option<u64>, Failed>
        ensures size { Told H.tells (GivesSize self.old self.new name.entry result) }
        ensures cause { HasCause self.old.faults self.new.faults result }
    {
        self.host.size(name)
    }

    /// Fills as many bytes as the buffer and the file from `from` have, and gives their number; 0 for an absent name.
    pub fn read(&mut self, name: PathRef<'_>, from: u64, into: &mut [u8]) -> Result<usize, Failed>
        ensures bound { IfOk result (λ count. count ≤ length into.new) }
        ensures bytes { Told H.tells (GivesBytes self.old self.new name.entry from into.new result) }
        ensures cause { HasCause self.old.faults self.new.faults result }
    {
        self.host.read(name, from, into)
    }

    /// Writes the least name after `after` in byte order into `name`, or the least of all, and gives its length; `None`
    /// exactly where there is none. What it writes is a path after `after`, also where the host doesn't tell.
    pub fn next_name(
        &mut self,
        after: Option<PathRef<'_>>,
        name: &mut [u8; 1024],
    ) -> Result<Option<usize>, Failed>
        ensures next { Told H.tells (GivesNext self.old self.new after.entry name.new result) }
        ensures path { IfOk result (λ found. IfSome found (λ count.
            (count ≤ 1024) × IsPath (take count name.new) × IsAfter after.entry (take count name.new))) }
        ensures cause { HasCause self.old.faults self.new.faults result }
    {
        self.host.next_name(after, name)
    }

    /// Says bytes. Where it fails, a front of them is said. Each picture stands for what the volume stands for.
    pub fn say(&mut self, bytes: &[u8]) -> Result<(), Failed>
        ensures says { Told H.tells (SaysOnly bytes.now self.old self.new result) }
        ensures cause { HasCause self.old.faults self.new.faults result }
    {
        self.host.say(bytes)
    }
}

impl<H: Host> Clean<H> {
    /// The length of a file; `None` exactly where the name is absent.
    pub fn size(&mut self, name: PathRef<'_>) -> Result<Option<u64>, Failed>
        ensures size { Told H.tells (GivesSize self.old self.new name.entry result) }
        ensures cause { HasCause self.old.faults self.new.faults result }
    {
        self.host.size(name)
    }

    /// Fills as many bytes as the buffer and the file from `from` have, and gives their number; 0 for an absent name.
    pub fn read(&mut self, name: PathRef<'_>, from: u64, into: &mut [u8]) -> Result<usize, Failed>
        ensures bound { IfOk result (λ count. count ≤ length into.new) }
        ensures bytes { Told H.tells (GivesBytes self.old self.new name.entry from into.new result) }
        ensures cause { HasCause self.old.faults self.new.faults result }
    {
        self.host.read(name, from, into)
    }

    /// Writes the least name after `after` in byte order into `name`, or the least of all, and gives its length; `None`
    /// exactly where there is none. What it writes is a path after `after`, also where the host doesn't tell.
    pub fn next_name(
        &mut self,
        after: Option<PathRef<'_>>,
        name: &mut [u8; 1024],
    ) -> Result<Option<usize>, Failed>
        ensures next { Told H.tells (GivesNext self.old self.new after.entry name.new result) }
        ensures path { IfOk result (λ found. IfSome found (λ count.
            (count ≤ 1024) × IsPath (take count name.new) × IsAfter after.entry (take count name.new))) }
        ensures cause { HasCause self.old.faults self.new.faults result }
    {
        self.host.next_name(after, name)
    }

    /// Says bytes. Where it fails, a front of them is said. Each picture stands for what the volume stands for.
    pub fn say(&mut self, bytes: &[u8]) -> Result<(), Failed>
        ensures says { Told H.tells (SaysOnly bytes.now self.old self.new result) }
        ensures cause { HasCause self.old.faults self.new.faults result }
    {
        self.host.say(bytes)
    }

    /// Reads a whole file; `None` where the name is absent. `TooLarge` exactly where it has more than `limit` bytes,
    /// `HostFault` only where the host's faults rose. Changes nothing. Of this crate's calls it alone takes memory.
    pub fn read_file(
        &mut self,
        alloc: Global,
        name: PathRef<'_>,
        limit: u64,
    ) -> Result<Option<Vec<u8>>, FileError>
        ensures bytes { Told H.tells (IfOk result (λ found.
            option_map (λ v. v.items) found ≡ at self.old.present.held name.entry)) }
        ensures within { Told H.tells (IfOk result (λ found. length (held_at self.old name.entry) ≤ limit)) }
        ensures large { Told H.tells (IsErrOf result TooLarge → limit < length (held_at self.old name.entry)) }
        ensures same { Told H.tells (Quiet self.old self.new) }
        ensures cause { HasCauseOf (λ error. error ≡ FileFault) self.old.faults self.new.faults result }
    {
        read_file(alloc, &mut self.host, name, limit)
    }
}

impl<H: Host> Committed<H> {
    /// The length of a file; `None` exactly where the name is absent.
    pub fn size(&mut self, name: PathRef<'_>) -> Result<Option<u64>, Failed>
        ensures size { Told H.tells (GivesSize self.old self.new name.entry result) }
        ensures cause { HasCause self.old.faults self.new.faults result }
    {
        self.host.size(name)
    }

    /// Fills as many bytes as the buffer and the file from `from` have, and gives their number; 0 for an absent name.
    pub fn read(&mut self, name: PathRef<'_>, from: u64, into: &mut [u8]) -> Result<usize, Failed>
        ensures bound { IfOk result (λ count. count ≤ length into.new) }
        ensures bytes { Told H.tells (GivesBytes self.old self.new name.entry from into.new result) }
        ensures cause { HasCause self.old.faults self.new.faults result }
    {
        self.host.read(name, from, into)
    }

    /// Writes the least name after `after` in byte order into `name`, or the least of all, and gives its length; `None`
    /// exactly where there is none. What it writes is a path after `after`, also where the host doesn't tell.
    pub fn next_name(
        &mut self,
        after: Option<PathRef<'_>>,
        name: &mut [u8; 1024],
    ) -> Result<Option<usize>, Failed>
        ensures next { Told H.tells (GivesNext self.old self.new after.entry name.new result) }
        ensures path { IfOk result (λ found. IfSome found (λ count.
            (count ≤ 1024) × IsPath (take count name.new) × IsAfter after.entry (take count name.new))) }
        ensures cause { HasCause self.old.faults self.new.faults result }
    {
        self.host.next_name(after, name)
    }

    /// Says bytes. Where it fails, a front of them is said. Each picture stands for what the volume stands for.
    pub fn say(&mut self, bytes: &[u8]) -> Result<(), Failed>
        ensures says { Told H.tells (SaysOnly bytes.now self.old self.new result) }
        ensures cause { HasCause self.old.faults self.new.faults result }
    {
        self.host.say(bytes)
    }
}

impl<H: Host> Staging<H> {
    /// The length of a file; `None` exactly where the name is absent.
    pub fn size(&mut self, name: PathRef<'_>) -> Result<Option<u64>, Failed>
        ensures size { Told H.tells (GivesSize self.old self.new name.entry result) }
        ensures cause { HasCause self.old.faults self.new.faults result }
    {
        self.host.size(name)
    }

    /// Fills as many bytes as the buffer and the file from `from` have, and gives their number; 0 for an absent name.
    pub fn read(&mut self, name: PathRef<'_>, from: u64, into: &mut [u8]) -> Result<usize, Failed>
        ensures bound { IfOk result (λ count. count ≤ length into.new) }
        ensures bytes { Told H.tells (GivesBytes self.old self.new name.entry from into.new result) }
        ensures cause { HasCause self.old.faults self.new.faults result }
    {
        self.host.read(name, from, into)
    }

    /// Writes the least name after `after` in byte order into `name`, or the least of all, and gives its length; `None`
    /// exactly where there is none. What it writes is a path after `after`, also where the host doesn't tell.
    pub fn next_name(
        &mut self,
        after: Option<PathRef<'_>>,
        name: &mut [u8; 1024],
    ) -> Result<Option<usize>, Failed>
        ensures next { Told H.tells (GivesNext self.old self.new after.entry name.new result) }
        ensures path { IfOk result (λ found. IfSome found (λ count.
            (count ≤ 1024) × IsPath (take count name.new) × IsAfter after.entry (take count name.new))) }
        ensures cause { HasCause self.old.faults self.new.faults result }
    {
        self.host.next_name(after, name)
    }

    /// Says bytes. Where it fails, a front of them is said. Each picture stands for what the volume stands for.
    pub fn say(&mut self, bytes: &[u8]) -> Result<(), Failed>
        ensures says { Told H.tells (SaysOnly bytes.now self.old self.new result) }
        ensures cause { HasCause self.old.faults self.new.faults result }
    {
        self.host.say(bytes)
    }
}
