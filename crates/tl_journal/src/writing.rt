// A write whose bytes come piece by piece.
ghost use Rattle.std.specs.Prelude.{◌≡◌, ◌≤◌, ◌-◌, ℕ, List, [], ◌∷◌, ◌++◌, length, true, IfOk};
ghost use Rattle.tl_model.specs.Causes.{HasCause};
ghost use Rattle.tl_model.specs.Seen.{Told};
ghost use Rattle.tl_journal_text.specs.Records.{Write, is_outside};
ghost use Rattle.tl_journal.specs.States.{staged, coming};
ghost use Rattle.tl_journal.specs.Spent.{left_writing, Stages};

use crate::lost::{HostFault, Lost};
use crate::staging;
use crate::states::{Clean, Staging};
use std::marker::Model;
use tl_host::Host;
use tl_journal_text::Slot;
use tl_path::Path;

/// A write is being staged: the volume still stands for its tree. Contracts see the host and the number of bytes that are
/// still to come.
#[derive(Drop)]
pub struct Writing<H: Host> {
    host: H,
    opened: Option<Slot>,
    left: u64,
}

impl<H: Host> Model for Writing<H> {
    ghost use Rattle.std.specs.Prelude.{◌≡◌};
    ghost use Rattle.tl_model.specs.Seen.{Told};
    ghost use Rattle.tl_journal_text.specs.Slots.{open_slot};
    ghost use Rattle.tl_journal.specs.States.{Writes, writes_code, IsWriting};

    ghost Value = { Writes };

    ghost coded = { writes_code };

    ghost view = { λ w. record { seen = H.seen w.host; left = w.left } };

    ghost invariant = { λ w. Told H.tells (IsWriting (H.seen w.host) w.left × (open_slot (H.seen w.host).present.held ≡ w.opened)) };
}

impl<H: Host> Staging<H> {
    /// Begins a record that makes the path hold `len` bytes, which come by `piece`. `HostFault` comes only where the host's
    /// faults rose.
    pub fn begin_write(self, path: &Path, len: u64) -> Result<Writing<H>, Lost<H, HostFault>>
        requires { is_outside path.now ≡ true }
        ensures left { IfOk result (λ writing. writing.left ≡ len) }
        ensures coming { Told H.tells (IfOk result (λ writing. (bytes : List ℕ) → length bytes ≡ len → coming writing bytes ≡ staged self ++ Write path.now bytes ∷ [])) }
        ensures stages { Told H.tells (Stages self (left_writing H.seen result)) }
        ensures cause { HasCause self.faults (left_writing H.seen result).faults result }
    {
        let mut host = self.host;
        let opened = self.opened;
        let _path = path.bytes();
        match staging::add_head(&mut host, Slot::spare(opened), path.view(), len) {
            Ok(()) => Ok(Writing {
                host,
                opened,
                left: len,
            }),
            Err(_) => Err(Lost {
                host,
                fault: HostFault,
            }),
        }
    }
}

impl<H: Host> Writing<H> {
    /// How many bytes are still to come.
    pub fn left(&self) -> u64
        ensures { result ≡ self.now.left }
    {
        self.left
    }

    /// Adds the next bytes, which are no more than are still to come. `HostFault` comes only where the host's faults rose.
    pub fn piece(self, bytes: &[u8]) -> Result<Writing<H>, Lost<H, HostFault>>
        requires { length bytes.now ≤ self.left }
        ensures left { IfOk result (λ writing. writing.left ≡ self.left - length bytes.now) }
        ensures coming { Told H.tells (IfOk result (λ writing. (rest : List ℕ) → coming writing rest ≡ coming self (bytes.now ++ rest))) }
        ensures stages { Told H.tells (Stages self.seen (left_writing H.seen result)) }
        ensures cause { HasCause self.seen.faults (left_writing H.seen result).faults result }
    {
        let mut host = self.host;
        let opened = self.opened;
        let left = self.left - bytes.len() as u64;
        match staging::add(&mut host, Slot::spare(opened), bytes) {
            Ok(()) => Ok(Writing { host, opened, left }),
            Err(_) => Err(Lost {
                host,
                fault: HostFault,
            }),
        }
    }

    /// Ends the record, all of whose bytes have come.
    pub fn end(self) -> Staging<H>
        requires { self.left ≡ 0 }
        ensures seen { result ≡ self.seen }
        ensures added { Told H.tells (staged result ≡ coming self []) }
    {
        Staging {
            host: self.host,
            opened: self.opened,
        }
    }

    /// Gives the change up.
    pub fn abandon(self) -> Clean<H>
        ensures { result ≡ self.seen }
    {
        Clean {
            host: self.host,
            opened: self.opened,
        }
    }
}
