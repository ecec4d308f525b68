// A body that is read in pieces.
ghost use Rattle.std.specs.Prelude.{◌≡◌, ◌≤◌, [], IfOk, OnOk, IsTrue, not, nat_lt, min, length, take, drop};
ghost use Rattle.tl_model.specs.Causes.{HasCause};
ghost use Rattle.tl_model.specs.Seen.{Told, Quiet};
ghost use Rattle.tl_journal.specs.Reading.{bytes_from, body_at, IsPartOf, SameBody};

use crate::names;
use std::marker::Model;
use tl_host::{Failed, Host};
use tl_journal_text::Slot;

const PIECE: usize = 65536;

/// A body, and the piece of it that was read last.
#[derive(Drop)]
pub struct Body {
    slot: Slot,
    size: u64,
    start: u64,
    count: usize,
    bytes: [u8; PIECE],
}

impl Model for Body {
    ghost use Rattle.std.specs.Prelude.{◌≤◌, take};
    ghost use Rattle.tl_journal.specs.Reading.{Part};

    ghost Value = { Part };

    ghost view = { λ b. record { slot = b.slot; size = b.size; start = b.start; bytes = take b.count b.bytes } };

    ghost invariant = { λ b. b.count ≤ 65536 };
}

impl Body {
    /// The body of a slot, of which nothing has been read.
    pub fn new(slot: Slot, size: u64) -> Body
        ensures { result ≡ record { slot = slot; size = size; start = 0; bytes = [] } }
    {
        Body {
            slot,
            size,
            start: 0,
            count: 0,
            bytes: [0; PIECE],
        }
    }

    /// The length of the body.
    pub fn size(&self) -> u64
        ensures { result ≡ self.now.size }
    {
        self.size
    }

    /// What was read last from a place on.
    pub fn bytes_from(&self, from: u64) -> &[u8]
        ensures { result.now ≡ bytes_from self.now from }
    {
        if from < self.start {
            return &[];
        }
        let skipped = from - self.start;
        if skipped > self.count as u64 {
            return &[];
        }
        &self.bytes[skipped as usize..self.count]
    }

    // Reads the piece that begins at a place.
    fn load<H: Host>(&mut self, host: &mut H, from: u64) -> Result<(), Failed>
        ensures cause { HasCause (H.seen host.old).faults (H.seen host.new).faults result }
        ensures quiet { Told H.tells (Quiet (H.seen host.old) (H.seen host.new)) }
        ensures same { SameBody self.old self.new }
        ensures start { OnOk result (self.new.start ≡ from) }
        ensures loaded { Told H.tells (OnOk result (self.new.bytes ≡ take 65536 (drop from (body_at self.old.slot (H.seen host.old))))) }
    {
        let slot = self.slot;
        let count = host.read(names::body(slot), from, &mut self.bytes)?;
        self.start = from;
        self.count = count;
        Ok(())
    }

    /// Reads on, unless so many bytes from a place on are there already.
    pub fn reach<H: Host>(&mut self, host: &mut H, from: u64, need: usize) -> Result<(), Failed>
        requires most { need ≤ 65536 }
        requires part { Told H.tells (IsPartOf self.old (H.seen host.old)) }
        ensures cause { HasCause (H.seen host.old).faults (H.seen host.new).faults result }
        ensures quiet { Told H.tells (Quiet (H.seen host.old) (H.seen host.new)) }
        ensures same { SameBody self.old self.new }
        ensures part { Told H.tells (OnOk result (IsPartOf self.new (H.seen host.new))) }
        ensures reached { Told H.tells (OnOk result (min need (length (drop from (body_at self.old.slot (H.seen host.old)))) ≤ length (bytes_from self.new from))) }
    {
        if self.bytes_from(from).len() >= need {
            return Ok(());
        }
        self.load(host, from)
    }

    /// Fills the buffer from a place of the body on. Whether the body has so many bytes.
    pub fn fill<H: Host>(
        &mut self,
        host: &mut H,
        from: u64,
        into: &mut [u8],
    ) -> Result<bool, Failed>
        requires most { length into.old ≤ 65536 }
        requires part { Told H.tells (IsPartOf self.old (H.seen host.old)) }
        ensures cause { HasCause (H.seen host.old).faults (H.seen host.new).faults result }
        ensures quiet { Told H.tells (Quiet (H.seen host.old) (H.seen host.new)) }
        ensures same { SameBody self.old self.new }
        ensures part { Told H.tells (OnOk result (IsPartOf self.new (H.seen host.new))) }
        ensures whole { Told H.tells (IfOk result (λ whole. whole ≡ not (nat_lt (length (drop from (body_at self.old.slot (H.seen host.old)))) (length into.old)))) }
        ensures bytes { Told H.tells (IfOk result (λ whole. IsTrue whole → into.new ≡ take (length into.old) (drop from (body_at self.old.slot (H.seen host.old))))) }
    {
        let count = into.len();
        self.reach(host, from, count)?;
        let part = self.bytes_from(from);
        if part.len() < count {
            return Ok(false);
        }
        into.copy_from_slice(&part[..count]);
        Ok(true)
    }
}
