// The calls of `Host` that a host in memory answers.
ghost use Rattle.std.specs.Prelude.{◌≡◌, ◌≤◌, ◌⊎◌, ◌++◌, [], true, false, length, take, drop, is_ok, IfOk, OnOk, IsSome, IfSome};
ghost use Rattle.std.specs.Option.{option_map, unwrap_or};
ghost use Rattle.std.specs.FinMap as map;
ghost use Rattle.tl_model.specs.Volume.{at, IsAfter, IsNext};
ghost use Rattle.tl_model.specs.Seen.{Told, Quiet, Changes, Syncs, Says};
ghost use Rattle.tl_model.specs.Causes.{HasCause};
ghost use Rattle.tl_path.specs.Path.{IsPath};
ghost use Rattle.tl_memhost.specs.Memory.{seen, looked, changed, settled, synced, told, failed, lost, Outcome, Looks};

use crate::fill::fill;
use crate::host::MemHost;
use tl_host::{Failed, Host};
use tl_path::PathRef;

impl MemHost {
    // Answers a call that found no memory.
    fn is_lost(&mut self) -> Result<(), Failed>
        ensures lost { self.new ≡ lost self.old }
        ensures failed { is_ok result ≡ false }
    {
        self.lose();
        Err(Failed)
    }

    // Answers a change of a name that is to fail.
    fn refuse(&mut self, name: &[u8]) -> Result<(), Failed>
        requires { IsPath name.now }
        ensures refused { (self.new ≡ failed (changed name.now self.old.present.held self.old)) ⊎ (self.new ≡ lost self.old) }
        ensures failed { is_ok result ≡ false }
    {
        match self.touch(name) {
            Ok(()) => {
                self.fail();
                Err(Failed)
            }
            Err(_) => self.is_lost(),
        }
    }

    // Writes the least name after another one, or the least of all, and gives its length.
    fn next(&mut self, after: Option<PathRef<'_>>, name: &mut [u8; 1024]) -> Option<usize>
        ensures next { IsNext self.old.present.held after.entry (option_map (λ count. take count name.new) result) }
        ensures path { IfSome result (λ count. (count ≤ 1024) × IsPath (take count name.new)) }
        ensures same { self.new ≡ self.old }
    {
        match after {
            Some(after) => self.find_after(after.bytes(), name),
            None => self.find_first(name),
        }
    }
}

impl Host for MemHost {
    ghost tells = { true };

    ghost seen = { seen };

    fn size(&mut self, name: PathRef<'_>) -> Result<Option<u64>, Failed>
        ensures length { Told true (IfOk result (λ size.
            size ≡ option_map length (at (seen self.old).present.held name.entry))) }
        ensures same { Told true (Quiet (seen self.old) (seen self.new)) }
        ensures cause { HasCause (seen self.old).faults (seen self.new).faults result }

        // It fails exactly where it is named.
        ensures exact { Looks (is_ok result) self.old self.new }
    {
        let named = self.is_named();
        let size = match self.held(name.bytes()) {
            Some(bytes) => Some(bytes.len() as u64),
            None => None,
        };
        self.look();
        if named {
            self.fail();
            return Err(Failed);
        }
        Ok(size)
    }

    fn read(&mut self, name: PathRef<'_>, from: u64, into: &mut [u8]) -> Result<usize, Failed>
        ensures bound { IfOk result (λ count. count ≤ length into.new) }
        ensures bytes { Told true (IfOk result (λ count. take count into.new
            ≡ take (length into.new) (drop from (unwrap_or (at (seen self.old).present.held name.entry) [])))) }
        ensures count { Told true (IfOk result (λ count. count
            ≡ length (take (length into.new) (drop from (unwrap_or (at (seen self.old).present.held name.entry) []))))) }
        ensures same { Told true (Quiet (seen self.old) (seen self.new)) }
        ensures cause { HasCause (seen self.old).faults (seen self.new).faults result }

        // It fails exactly where it is named.
        ensures exact { Looks (is_ok result) self.old self.new }
    {
        let named = self.is_named();
        let count = match self.held(name.bytes()) {
            Some(bytes) => fill(bytes, from, into),
            None => 0,
        };
        self.look();
        if named {
            self.fail();
            return Err(Failed);
        }
        Ok(count)
    }

    fn next_name(
        &mut self,
        after: Option<PathRef<'_>>,
        name: &mut [u8; 1024],
    ) -> Result<Option<usize>, Failed>
        ensures next { Told true (IfOk result (λ found.
            IsNext (seen self.old).present.held after.entry (option_map (λ count. take count name.new) found))) }
        ensures path { IfOk result (λ found. IfSome found (λ count.
            (count ≤ 1024) × IsPath (take count name.new) × IsAfter after.entry (take count name.new))) }
        ensures same { Told true (Quiet (seen self.old) (seen self.new)) }
        ensures cause { HasCause (seen self.old).faults (seen self.new).faults result }

        // It fails exactly where it is named.
        ensures exact { Looks (is_ok result) self.old self.new }
    {
        let named = self.is_named();
        let found = self.next(after, name);
        self.look();
        if named {
            self.fail();
            return Err(Failed);
        }
        Ok(found)
    }

    fn create(&mut self, name: PathRef<'_>) -> Result<(), Failed>
        ensures created { Told true (OnOk result (
            (seen self.new).present.held ≡ map.insert (seen self.old).present.held name.entry [])) }
        ensures change { Told true (Changes (is_ok result) name.entry (seen self.old) (seen self.new)) }
        ensures cause { HasCause (seen self.old).faults (seen self.new).faults result }

        // It fails exactly where it is named, when its name is touched, or where it finds no memory.
        ensures exact { Outcome (is_ok result) self.old self.new
            (changed name.entry (map.insert self.old.present.held name.entry []) self.old)
            (failed (changed name.entry self.old.present.held self.old)) (lost self.old) }
    {
        if self.is_named() {
            return self.refuse(name.bytes());
        }
        match self.make(name.bytes()) {
            Ok(()) => Ok(()),
            Err(_) => self.is_lost(),
        }
    }

    fn append(&mut self, name: PathRef<'_>, bytes: &[u8]) -> Result<(), Failed>
        requires { Told true (IsSome (at (seen self.old).present.held name)) }
        ensures added { Told true (OnOk result ((seen self.new).present.held ≡ map.insert (seen self.old).present.held
            name.entry (unwrap_or (at (seen self.old).present.held name.entry) [] ++ bytes.now))) }
        ensures change { Told true (Changes (is_ok result) name.entry (seen self.old) (seen self.new)) }
        ensures cause { HasCause (seen self.old).faults (seen self.new).faults result }

        // It fails exactly where it is named, when its name is touched, or where it finds no memory.
        ensures exact { Outcome (is_ok result) self.old self.new
            (changed name.entry (map.insert self.old.present.held name.entry
            (unwrap_or (at self.old.present.held name.entry) [] ++ bytes.now)) self.old)
            (failed (changed name.entry self.old.present.held self.old)) (lost self.old) }
    {
        if self.is_named() {
            return self.refuse(name.bytes());
        }
        match self.grow(name.bytes(), bytes) {
            Ok(()) => Ok(()),
            Err(_) => self.is_lost(),
        }
    }

    fn remove(&mut self, name: PathRef<'_>) -> Result<(), Failed>
        ensures removed { Told true (OnOk result (
            (seen self.new).present.held ≡ map.remove (seen self.old).present.held name.entry)) }
        ensures change { Told true (Changes (is_ok result) name.entry (seen self.old) (seen self.new)) }
        ensures cause { HasCause (seen self.old).faults (seen self.new).faults result }

        // It fails exactly where it is named, when its name is touched, or where it finds no memory.
        ensures exact { Outcome (is_ok result) self.old self.new
            (changed name.entry (map.remove self.old.present.held name.entry) self.old)
            (failed (changed name.entry self.old.present.held self.old)) (lost self.old) }
    {
        if self.is_named() {
            return self.refuse(name.bytes());
        }
        match self.clear(name.bytes()) {
            Ok(()) => Ok(()),
            Err(_) => self.is_lost(),
        }
    }

    fn sync(&mut self) -> Result<(), Failed>
        ensures sync { Told true (Syncs (is_ok result) (seen self.old) (seen self.new)) }
        ensures cause { HasCause (seen self.old).faults (seen self.new).faults result }

        // It fails exactly where it is named, when nothing changes but the counts, or where it finds no memory.
        ensures exact { Outcome (is_ok result) self.old self.new (settled self.old)
            (failed (synced (looked self.old))) (lost (synced self.old)) }
    {
        if self.is_named() {
            self.look();
            self.count_sync();
            self.fail();
            return Err(Failed);
        }
        match self.settle() {
            Ok(()) => Ok(()),
            Err(_) => self.is_lost(),
        }
    }

    fn say(&mut self, bytes: &[u8]) -> Result<(), Failed>
        ensures says { Told true (Says (is_ok result) bytes.now (seen self.old) (seen self.new)) }
        ensures cause { HasCause (seen self.old).faults (seen self.new).faults result }

        // It fails exactly where it is named, when nothing is said, or where it finds no memory.
        ensures exact { Outcome (is_ok result) self.old self.new (told bytes.now bytes.now self.old)
            (failed (told bytes.now [] self.old)) (lost self.old) }
    {
        if self.is_named() {
            return match self.hush(bytes) {
                Ok(()) => {
                    self.fail();
                    Err(Failed)
                }
                Err(_) => self.is_lost(),
            };
        }
        match self.tell(bytes) {
            Ok(()) => Ok(()),
            Err(_) => self.is_lost(),
        }
    }
}
