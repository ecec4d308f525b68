// A host in memory.
ghost use Rattle.tl_memhost.specs.Stop.{left, IsStopRefusal};
ghost use Rattle.std.specs.Prelude.{◌≡◌, ℕ, ◌≤◌, ◌<◌, ◌+◌, ◌-◌, ◌^◌, ◌++◌, ◌∷◌, ◌⊎◌, [], length, IfOk, IfErr, IfSome, OnOk, OnErr, IsSome, None, Some, take, if◌then◌else◌};
ghost use Rattle.std.specs.Option.{option_map, unwrap_or};
ghost use Rattle.std.specs.FinMap as map;
ghost use Rattle.std.specs.Vec.{vec_capacity};
ghost use Rattle.tl_model.specs.Volume.{Name, at, IsNext};
ghost use Rattle.tl_model.specs.Seen.{moment, Could};
ghost use Rattle.tl_path.specs.Path.{IsPath};
ghost use Rattle.tl_memhost.specs.Given.{given, AreApart, IsRefusal};
ghost use Rattle.tl_memhost.specs.Memory.{fresh, seen, before_call, is_named, looked, failed, lost, changed, settled, synced, told};

use crate::changes::{enter, unsaid};
use crate::files::Files;
use crate::given::{MemError, files_of};
use crate::record::{Did, Entry, Named};
use crate::stop::{Choice, StopError, go_back, leave};
use std::alloc::{AllocError, Global};
use std::marker::Model;
use tl_file::FileBytes;
use tl_host::Failed;
use tl_path::Path;

/// A volume of files in memory, with a record of its calls: it tells all that it holds, fails at the calls that it is
/// told to, and gives what a stop at each call leaves.
#[derive(Drop)]
pub struct MemHost {
    alloc: Global,
    files: Files,
    said: Vec<u8>,
    record: Vec<Entry>,
    rest: u64,
    calls: u64,
    short: u64,
    failing: Vec<u64>,
    syncs: u64,
    faults: u64,
    seek: Vec<u8>,
}

impl Model for MemHost {
    ghost use Rattle.std.specs.Prelude.{◌≤◌};
    ghost use Rattle.std.specs.Vec.{vec_capacity};
    ghost use Rattle.tl_memhost.specs.Memory.{Memory, memory_code, IsCounted};

    ghost Value = { Memory };

    ghost coded = { memory_code };

    ghost use Rattle.tl_memhost.specs.Record.{memory};

    ghost view = { λ h. memory h.record.items h.files h.said.items h.rest h.calls h.short h.failing.items h.syncs h.faults };

    ghost invariant = { λ h. IsCounted (memory h.record.items h.files h.said.items h.rest h.calls h.short h.failing.items h.syncs h.faults) × (1024 ≤ vec_capacity h.seek) };
}

impl MemHost {
    /// A host of these files, with no touched name, no call, no fault and nothing said. `Repeated` exactly where two
    /// files have one path: it is that of the first file whose path an earlier one has.
    pub fn new(alloc: Global, files: Vec<FileBytes>) -> Result<MemHost, MemError>
        ensures made { IfOk result (λ host. host ≡ fresh (given files.items)) }
        ensures apart { OnOk result (AreApart files.items) }
        ensures refused { IfErr result (IsRefusal files.items) }
    {
        let files = files_of(alloc, files)?;
        match MemHost::with(alloc, files) {
            Ok(host) => Ok(host),
            Err(_) => Err(MemError::NoMemory),
        }
    }

    // A host of these files.
    pub(crate) fn with(alloc: Global, files: Files) -> Result<MemHost, AllocError>
        ensures { IfOk result (λ host. host ≡ fresh files) }
    {
        let seek = Vec::with_capacity(alloc, 1024)?;
        Ok(MemHost {
            alloc,
            files,
            said: Vec::new(alloc),
            record: Vec::new(alloc),
            rest: 0,
            calls: 0,
            short: 0,
            failing: Vec::new(alloc),
            syncs: 0,
            faults: 0,
            seek,
        })
    }

    /// Makes the call of this number fail, counted from 0. Several may be named.
    pub fn fail_at(&mut self, call: u64) -> Result<(), AllocError>
        ensures ok { OnOk result (self.new ≡ record self.old { failing = self.old.failing ++ call ∷ [] }) }
        ensures err { OnErr result (self.new ≡ self.old) }
    {
        match self.failing.push(call) {
            Ok(()) => Ok(()),
            Err(_) => Err(AllocError),
        }
    }

    /// The number of calls of `Host` so far. Each of them but those that found no memory is one moment; at the greatest
    /// `u64` the number stands still.
    pub fn calls(&self) -> u64
        ensures calls { result ≡ self.now.calls }
        ensures moments { result < 2 ^ 64 - 1 → moment (seen self.now) + self.now.short ≡ result }
    {
        self.calls
    }

    /// The number of calls of `Host` that failed because there was no memory for the record.
    pub fn short(&self) -> u64
        ensures { result ≡ self.now.short }
    {
        self.short
    }

    /// The bytes said.
    pub fn said(&self) -> &[u8]
        ensures { result.now ≡ (seen self.now).present.said }
    {
        self.said.as_slice()
    }

    /// What a file holds; `None` exactly where the path is absent.
    pub fn file(&self, path: &Path) -> Option<&[u8]>
        ensures { option_map (λ bytes. bytes.now) result ≡ at (seen self.now).present.held path.now }
    {
        self.files.get(path.bytes())
    }

    /// The count of syncs.
    pub fn syncs(&self) -> u64
        ensures { result ≡ (seen self.now).syncs }
    {
        self.syncs
    }

    /// The number of bytes said before the call of this number.
    pub fn said_before(&self, call: u64) -> u64
        requires { call ≤ self.now.calls }
        ensures { result ≡ length (before_call self.now call).said }
    {
        let mut said = self.said.as_slice().len();
        let mut left = self.record.as_slice().len();
        while left > 0 {
            let entry = &self.record[left - 1];
            if entry.call < call {
                break;
            }
            said = unsaid(&entry.did, said);
            left -= 1;
        }
        said as u64
    }

    /// The host as a stop before the call of this number leaves it: each touched name as is chosen, each other name as a
    /// read gave it. It is a new host with no call, and no call of it is to fail. `NoSuchCall` exactly where the number
    /// is greater than that of the calls. What it holds is a picture that could be left since each moment before the call.
    pub fn stop_at(&self, call: u64, choice: &Choice) -> Result<MemHost, StopError>
        ensures fresh { IfOk result (λ host. host ≡ fresh host.present.held) }
        ensures left { IfOk result (λ host. (name : Name)
            → at host.present.held name ≡ left choice.now (before_call self.now call) name) }
        ensures picture { IfOk result (λ host. (t : ℕ) → t + self.now.short ≤ call
            → Could (seen self.now) t host.present.held (before_call self.now call).said) }
        ensures within { OnOk result (call ≤ self.now.calls) }
        ensures refused { IfErr result (IsStopRefusal self.now call) }
    {
        if call > self.calls {
            return Err(StopError::NoSuchCall);
        }
        match self.stopped(call, choice) {
            Ok(host) => Ok(host),
            Err(_) => Err(StopError::NoMemory),
        }
    }

    // The host as a stop before a call leaves it.
    fn stopped(&self, call: u64, choice: &Choice) -> Result<MemHost, AllocError>
        ensures fresh { IfOk result (λ host. host ≡ fresh host.present.held) }
        ensures left { IfOk result (λ host. (name : Name)
            → at host.present.held name ≡ left choice.now (before_call self.now call) name) }
    {
        let mut files = self.files.copy()?;
        let record = self.record.as_slice();
        let count = go_back(self.alloc, record, call, &mut files)?;
        leave(self.alloc, &record[..count], choice, &mut files)?;
        let host = MemHost::with(self.alloc, files)?;
        Ok(host)
    }

    // Whether the next call is to fail.
    pub(crate) fn is_named(&self) -> bool
        ensures { result ≡ is_named self.now }
    {
        self.failing.contains(&self.calls)
    }

    // Counts a call that only looked.
    pub(crate) fn look(&mut self)
        ensures { self.new ≡ looked self.old }
    {
        self.rest = self.rest.saturating_add(1);
        self.calls = self.calls.saturating_add(1);
    }

    // Counts a call that found no memory.
    pub(crate) fn lose(&mut self)
        ensures { self.new ≡ lost self.old }
    {
        self.calls = self.calls.saturating_add(1);
        self.short = self.short.saturating_add(1);
        self.faults = self.faults.saturating_add(1);
    }

    // Counts a fault.
    pub(crate) fn fail(&mut self)
        ensures { self.new ≡ failed self.old }
    {
        self.faults = self.faults.saturating_add(1);
    }

    // Counts a sync.
    pub(crate) fn count_sync(&mut self)
        ensures { self.new ≡ synced self.old }
    {
        self.syncs = self.syncs.saturating_add(1);
    }

    // What a name holds.
    pub(crate) fn held(&self, name: &[u8]) -> Option<&[u8]>
        ensures { option_map (λ b. b.now) result ≡ at self.now.present.held name.now }
    {
        self.files.get(name)
    }

    // Records a change of a name that fails.
    pub(crate) fn touch(&mut self, name: &[u8]) -> Result<(), AllocError>
        requires { IsPath name.now }
        ensures ok { OnOk result (self.new ≡ changed name.now self.old.present.held self.old) }
        ensures err { OnErr result (self.new ≡ self.old) }
    {
        let name = Named::of(self.alloc, name)?;
        self.record.reserve(1)?;
        enter(&mut self.record, self.calls, self.rest, Did::Failing(name));
        self.rest = 0;
        self.calls = self.calls.saturating_add(1);
        Ok(())
    }

    // Makes the name hold the empty file.
    pub(crate) fn make(&mut self, name: &[u8]) -> Result<(), AllocError>
        requires { IsPath name.now }
        ensures ok { OnOk result (self.new ≡ changed name.now (map.insert self.old.present.held name.now []) self.old) }
        ensures err { OnErr result (self.new ≡ self.old) }
    {
        let key = Vec::from_slice(self.alloc, name)?;
        let name = Named::of(self.alloc, name)?;
        self.record.reserve(1)?;
        let before = self.files.insert(key, Vec::new(self.alloc))?;
        enter(
            &mut self.record,
            self.calls,
            self.rest,
            Did::Put(name, before),
        );
        self.rest = 0;
        self.calls = self.calls.saturating_add(1);
        Ok(())
    }

    // Makes the name absent.
    pub(crate) fn clear(&mut self, name: &[u8]) -> Result<(), AllocError>
        requires { IsPath name.now }
        ensures ok { OnOk result (self.new ≡ changed name.now (map.remove self.old.present.held name.now) self.old) }
        ensures err { OnErr result (self.new ≡ self.old) }
    {
        let gone = Named::of(self.alloc, name)?;
        self.record.reserve(1)?;
        let before = self.files.remove(name);
        enter(
            &mut self.record,
            self.calls,
            self.rest,
            Did::Put(gone, before),
        );
        self.rest = 0;
        self.calls = self.calls.saturating_add(1);
        Ok(())
    }

    // Adds bytes at the end of a file that is there.
    pub(crate) fn grow(&mut self, name: &[u8], bytes: &[u8]) -> Result<(), AllocError>
        requires path { IsPath name.now }
        requires present { IsSome (at self.old.present.held name.now) }
        ensures ok { OnOk result (self.new ≡ changed name.now
            (map.insert self.old.present.held name.now (unwrap_or (at self.old.present.held name.now) [] ++ bytes.now)) self.old) }
        ensures err { OnErr result (self.new ≡ self.old) }
    {
        let grown = Named::of(self.alloc, name)?;
        self.record.reserve(1)?;
        let length = self.files.append(name, bytes)?;
        enter(
            &mut self.record,
            self.calls,
            self.rest,
            Did::Grown(grown, length),
        );
        self.rest = 0;
        self.calls = self.calls.saturating_add(1);
        Ok(())
    }

    // Leaves no name touched.
    pub(crate) fn settle(&mut self) -> Result<(), AllocError>
        ensures ok { OnOk result (self.new ≡ settled self.old) }
        ensures err { OnErr result (self.new ≡ synced self.old) }
    {
        self.syncs = self.syncs.saturating_add(1);
        self.record.reserve(1)?;
        enter(&mut self.record, self.calls, self.rest, Did::Settled);
        self.rest = 0;
        self.calls = self.calls.saturating_add(1);
        Ok(())
    }

    // Says bytes.
    pub(crate) fn tell(&mut self, bytes: &[u8]) -> Result<(), AllocError>
        ensures ok { OnOk result (self.new ≡ told bytes.now bytes.now self.old) }
        ensures err { OnErr result (self.new ≡ self.old) }
    {
        self.record.reserve(1)?;
        let length = self.said.as_slice().len();
        self.said.extend_from_slice(bytes)?;
        enter(&mut self.record, self.calls, self.rest, Did::Said(length));
        self.rest = 0;
        self.calls = self.calls.saturating_add(1);
        Ok(())
    }

    // Records bytes that aren't said.
    pub(crate) fn hush(&mut self, bytes: &[u8]) -> Result<(), AllocError>
        ensures ok { OnOk result (self.new ≡ told bytes.now [] self.old) }
        ensures err { OnErr result (self.new ≡ self.old) }
    {
        let bytes = Vec::from_slice(self.alloc, bytes)?;
        self.record.reserve(1)?;
        enter(&mut self.record, self.calls, self.rest, Did::Unsaid(bytes));
        self.rest = 0;
        self.calls = self.calls.saturating_add(1);
        Ok(())
    }

    // Writes the least name of all, and gives its length.
    pub(crate) fn find_first(&self, name: &mut [u8; 1024]) -> Option<usize>
        ensures next { IsNext self.now.present.held None (option_map (λ count. take count name.new) result) }
        ensures path { IfSome result (λ count. (count ≤ 1024) × IsPath (take count name.new)) }
    {
        written(self.files.next(None), name)
    }

    // Writes the least name after a path, and gives its length.
    pub(crate) fn find_after(&mut self, after: &[u8], name: &mut [u8; 1024]) -> Option<usize>
        requires { length after.now ≤ 1024 }
        ensures next { IsNext self.old.present.held (Some after.now) (option_map (λ count. take count name.new) result) }
        ensures path { IfSome result (λ count. (count ≤ 1024) × IsPath (take count name.new)) }
        ensures same { self.new ≡ self.old }
    {
        sought(&mut self.seek, after);
        written(self.files.next(Some(&self.seek)), name)
    }
}

// Makes the buffer hold a name.
fn sought(seek: &mut Vec<u8>, name: &[u8])
    requires { length name.now ≤ vec_capacity seek.old }
    ensures name { seek.new.items ≡ name.now }
    ensures room { vec_capacity seek.old ≤ vec_capacity seek.new }
{
    seek.clear();
    match seek.extend_from_slice(name) {
        Ok(()) => (),
        Err(_) => unreachable!(),
    }
}

// Writes a path that was found, and gives its length.
fn written(found: Option<&[u8]>, name: &mut [u8; 1024]) -> Option<usize>
    requires { IfSome found (λ path. IsPath path.now) }
    ensures same { option_map (λ count. take count name.new) result ≡ option_map (λ path. path.now) found.entry }
    ensures bound { IfSome result (λ count. count ≤ 1024) }
    ensures path { IfSome result (λ count. IsPath (take count name.new)) }
{
    let path = found?;
    let count = path.len();
    name[..count].copy_from_slice(path);
    Some(count)
}
