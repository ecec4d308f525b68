// A source in memory.
ghost use Rattle.std.specs.Prelude.{◌≡◌, ◌⊎◌, ◌≤◌, ◌++◌, ◌∷◌, [], length, take, drop, min, is_ok, IfOk, OnOk, OnErr, true};
ghost use Rattle.tl_model.specs.Seen.{Told};
ghost use Rattle.tl_model.specs.Causes.{HasCause, one_more};
ghost use Rattle.tl_memhost.specs.Devices.{CountsSource, names_next};

use std::alloc::{AllocError, Global};
use std::marker::Model;
use tl_host::{Failed, Source};

/// Input in memory. It tells what is left, and fails at the calls that it is told to.
#[derive(Drop)]
pub struct MemSource {
    bytes: Vec<u8>,
    taken: usize,
    calls: u64,
    failing: Vec<u64>,
    faults: u64,
}

impl Model for MemSource {
    ghost use Rattle.std.specs.Prelude.{◌≤◌, length, drop};
    ghost use Rattle.tl_memhost.specs.Devices.{SourceMemory, source_memory_code};

    ghost Value = { SourceMemory };

    ghost coded = { source_memory_code };

    ghost view = { λ s. record {
      source = record { left = drop s.taken s.bytes.items; faults = s.faults };
      calls = s.calls;
      failing = s.failing.items;
    } };

    ghost invariant = { λ s. s.taken ≤ length s.bytes.items };
}

impl MemSource {
    /// These bytes are left; no call was made, and none is to fail. It takes no memory.
    pub fn new(alloc: Global, bytes: Vec<u8>) -> MemSource
        ensures { result ≡ record { source = record { left = bytes.items; faults = 0 }; calls = 0; failing = [] } }
    {
        MemSource {
            bytes,
            taken: 0,
            calls: 0,
            failing: Vec::new(alloc),
            faults: 0,
        }
    }

    /// Makes the call of this number fail, counted from 0. Several may be named.
    pub fn fail_at(&mut self, call: u64) -> Result<(), AllocError>
        ensures ok { OnOk result (self.new ≡ record self.old { failing = self.old.failing ++ call ∷ [] }) }
        ensures err { OnErr result (self.new ≡ self.old) }
    {
        match self.failing.push(call) {
            Ok(()) => Ok(()),
            Err(_) => Err(AllocError),
        }
    }
}

// The bytes from a place on.
fn left(bytes: &[u8], taken: usize) -> &[u8]
    requires { taken ≤ length bytes.now }
    ensures { result.now ≡ drop taken bytes.now }
{
    &bytes[taken..]
}

// Writes as many bytes as there are and the buffer has, and gives their number.
fn taken(bytes: &[u8], into: &mut [u8]) -> usize
    ensures count { result ≡ min (length into.old) (length bytes.now) }
    ensures bytes { take result into.new ≡ take result bytes.now }
{
    let count = into.len().min(bytes.len());
    into[..count].copy_from_slice(&bytes[..count]);
    count
}

impl Source for MemSource {
    ghost tells = { true };

    ghost seen = { λ s. s.source };

    fn read(&mut self, into: &mut [u8]) -> Result<usize, Failed>
        ensures bound { IfOk result (λ count. count ≤ length into.new) }
        ensures taken { Told true (IfOk result (λ count.
            self.old.source.left ≡ take count into.new ++ self.new.source.left)) }
        ensures ended { Told true (IfOk result (λ count.
            count ≡ 0 → (into.new ≡ []) ⊎ (self.old.source.left ≡ []))) }
        ensures kept { Told true (OnErr result (self.new.source.left ≡ self.old.source.left)) }
        ensures cause { HasCause self.old.source.faults self.new.source.faults result }

        // It takes as many bytes as it can, and fails exactly where it is named.
        ensures count { IfOk result (λ count. count ≡ min (length into.new) (length self.old.source.left)) }
        ensures exact { CountsSource (is_ok result) self.old self.new }
    {
        let named = self.failing.contains(&self.calls);
        self.calls = self.calls.saturating_add(1);
        if named {
            self.faults = self.faults.saturating_add(1);
            return Err(Failed);
        }
        let count = taken(left(&self.bytes, self.taken), into);
        self.taken += count;
        Ok(count)
    }
}
