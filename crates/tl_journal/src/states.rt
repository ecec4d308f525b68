// The states of a journal, each of which owns the host.
ghost use Rattle.std.specs.Prelude.{◌≡◌, [], ◌∷◌, ◌++◌, true, IfOk, Some, None};
ghost use Rattle.tl_model.specs.Causes.{HasCause};
ghost use Rattle.tl_model.specs.Seen.{Told};
ghost use Rattle.tl_model.specs.Volume.{at};
ghost use Rattle.tl_journal_text.specs.Stand.{stand, tree_of, Stays};
ghost use Rattle.tl_journal_text.specs.Records.{Remove, Write, is_outside};
ghost use Rattle.tl_journal_text.specs.Slots.{open_slot};
ghost use Rattle.tl_journal.specs.States.{IsClean, spare_body, staged};
ghost use Rattle.tl_journal.specs.Spent.{left_by, Stages, Commits, HasCommitted, CarriesOut, Rests};

use crate::lost::{HostFault, Lost};
use crate::{gate, resume, staging};
use std::marker::Model;
use tl_host::Host;
use tl_journal_text::Slot;
use tl_path::Path;

/// No change is under way: the volume stands for its tree.
#[derive(Drop)]
pub struct Clean<H: Host> {
    pub(crate) host: H,
    pub(crate) opened: Option<Slot>,
}

impl<H: Host> Model for Clean<H> {
    ghost use Rattle.std.specs.Prelude.{◌≡◌};
    ghost use Rattle.tl_model.specs.Seen.{Seen, Told, seen_code};

    ghost Value = { Seen };

    ghost coded = { seen_code };

    ghost use Rattle.tl_journal_text.specs.Slots.{open_slot};
    ghost use Rattle.tl_journal.specs.States.{IsClean};

    ghost view = { λ c. H.seen c.host };

    ghost invariant = { λ c. Told H.tells (IsClean (H.seen c.host).present × (open_slot (H.seen c.host).present.held ≡ c.opened)) };
}

/// Records are being staged: the volume still stands for its tree.
#[derive(Drop)]
pub struct Staging<H: Host> {
    pub(crate) host: H,
    pub(crate) opened: Option<Slot>,
}

impl<H: Host> Model for Staging<H> {
    ghost use Rattle.std.specs.Prelude.{◌≡◌};
    ghost use Rattle.tl_model.specs.Seen.{Seen, Told, seen_code};

    ghost Value = { Seen };

    ghost coded = { seen_code };

    ghost use Rattle.tl_journal_text.specs.Slots.{open_slot};
    ghost use Rattle.tl_journal.specs.States.{IsStaging};

    ghost view = { λ c. H.seen c.host };

    ghost invariant = { λ c. Told H.tells (IsStaging (H.seen c.host) × (open_slot (H.seen c.host).present.held ≡ c.opened)) };
}

/// The change is made stable: the volume stands for the tree with the records.
#[derive(Drop)]
pub struct Committed<H: Host> {
    pub(crate) host: H,
    pub(crate) slot: Slot,
}

impl<H: Host> Model for Committed<H> {
    ghost use Rattle.std.specs.Prelude.{◌≡◌, Some};
    ghost use Rattle.tl_model.specs.Seen.{Seen, Told, seen_code};

    ghost Value = { Seen };

    ghost coded = { seen_code };

    ghost use Rattle.tl_journal_text.specs.Slots.{open_slot};
    ghost use Rattle.tl_journal.specs.States.{IsLive};

    ghost view = { λ c. H.seen c.host };

    ghost invariant = { λ c. Told H.tells (IsLive (H.seen c.host).present × (open_slot (H.seen c.host).present.held ≡ Some c.slot)) };
}

/// The records have been carried out: the tree has them.
#[derive(Drop)]
pub struct Applied<H: Host> {
    pub(crate) host: H,
    pub(crate) slot: Slot,
}

impl<H: Host> Model for Applied<H> {
    ghost use Rattle.std.specs.Prelude.{◌≡◌, Some};
    ghost use Rattle.tl_model.specs.Seen.{Seen, Told, seen_code};

    ghost Value = { Seen };

    ghost coded = { seen_code };

    ghost use Rattle.tl_journal_text.specs.Slots.{open_slot};
    ghost use Rattle.tl_journal.specs.States.{IsClean};

    ghost view = { λ c. H.seen c.host };

    ghost invariant = { λ c. Told H.tells (IsClean (H.seen c.host).present × (open_slot (H.seen c.host).present.held ≡ Some c.slot)) };
}

impl<H: Host> Clean<H> {
    /// Gives the host back without touching it.
    pub fn into_host(self) -> H
        ensures { H.seen result ≡ self }
    {
        self.host
    }

    /// The volume stands for its tree, and so does each picture that a stop may leave now. The gate isn't touched, nor is
    /// the body at which it is open, whose records change nothing.
    pub fn stands(&self)
        ensures tree { Told H.tells (stand self.now.present.held ≡ Some (tree_of self.now.present.held)) }
        ensures stays { Told H.tells (Stays self.now self.now) }
        ensures rests { Told H.tells (IsClean self.now.present) }
    {
        let _ = &self.host;
    }

    /// Begins a change. It makes the spare slot's body empty. It touches that body alone, and so does each call
    /// that stages. `HostFault` comes only where the host's faults rose.
    pub fn stage(self) -> Result<Staging<H>, Lost<H, HostFault>>
        ensures empty { Told H.tells (IfOk result (λ staging. staged staging ≡ [])) }
        ensures spare { Told H.tells (IfOk result (λ staging. at staging.present.held (spare_body staging.present.held) ≡ Some [])) }
        ensures stages { Told H.tells (Stages self (left_by H.seen result)) }
        ensures cause { HasCause self.faults (left_by H.seen result).faults result }
    {
        let mut host = self.host;
        let opened = self.opened;
        match staging::start(&mut host, Slot::spare(opened)) {
            Ok(()) => Ok(Staging { host, opened }),
            Err(_) => Err(Lost {
                host,
                fault: HostFault,
            }),
        }
    }

    /// Sees to it that nothing is left to carry out after a stop: the gate is closed. Where it is closed already, it does
    /// nothing; else it touches the gate and the body at which it isn't open, and syncs twice at most. `HostFault` comes only
    /// where the host's faults rose.
    pub fn rest(self) -> Result<Clean<H>, Lost<H, HostFault>>
        ensures shut { Told H.tells (IfOk result (λ clean. open_slot clean.present.held ≡ None)) }
        ensures rests { Told H.tells (Rests self (left_by H.seen result)) }
        ensures cause { HasCause self.faults (left_by H.seen result).faults result }
    {
        let mut host = self.host;
        match self.opened {
            None => Ok(Clean { host, opened: None }),
            Some(slot) => match gate::close(&mut host, slot) {
                Ok(()) => Ok(Clean { host, opened: None }),
                Err(_) => Err(Lost {
                    host,
                    fault: HostFault,
                }),
            },
        }
    }
}

impl<H: Host> Staging<H> {
    /// Gives the change up.
    pub fn abandon(self) -> Clean<H>
        ensures { result ≡ self }
    {
        Clean {
            host: self.host,
            opened: self.opened,
        }
    }

    /// Adds a record that makes the path absent. `HostFault` comes only where the host's faults rose.
    pub fn stage_remove(self, path: &Path) -> Result<Staging<H>, Lost<H, HostFault>>
        requires { is_outside path.now ≡ true }
        ensures added { Told H.tells (IfOk result (λ staging. staged staging ≡ staged self ++ Remove path.now ∷ [])) }
        ensures stages { Told H.tells (Stages self (left_by H.seen result)) }
        ensures cause { HasCause self.faults (left_by H.seen result).faults result }
    {
        let mut host = self.host;
        let opened = self.opened;
        let _path = path.bytes();
        match staging::add_remove(&mut host, Slot::spare(opened), path.view()) {
            Ok(()) => Ok(Staging { host, opened }),
            Err(_) => Err(Lost {
                host,
                fault: HostFault,
            }),
        }
    }

    /// Adds a record that makes the path hold the bytes. `HostFault` comes only where the host's faults rose.
    pub fn stage_write(self, path: &Path, bytes: &[u8]) -> Result<Staging<H>, Lost<H, HostFault>>
        requires { is_outside path.now ≡ true }
        ensures added { Told H.tells (IfOk result (λ staging. staged staging ≡ staged self ++ Write path.now bytes.now ∷ [])) }
        ensures stages { Told H.tells (Stages self (left_by H.seen result)) }
        ensures cause { HasCause self.faults (left_by H.seen result).faults result }
    {
        let mut host = self.host;
        let opened = self.opened;
        let _path = path.bytes();
        match staging::add_write(&mut host, Slot::spare(opened), path.view(), bytes) {
            Ok(()) => Ok(Staging { host, opened }),
            Err(_) => Err(Lost {
                host,
                fault: HostFault,
            }),
        }
    }

    /// Makes the change stable: each picture since the call stands for the tree or for the tree with the records, and from
    /// the return at `Ok` on for the latter. It touches the body that was staged, the gate, and where the gate was closed the
    /// other body, and syncs twice. `HostFault` comes only where the host's faults rose.
    pub fn commit(self) -> Result<Committed<H>, Lost<H, HostFault>>
        ensures committed { Told H.tells (IfOk result (HasCommitted self)) }
        ensures commits { Told H.tells (Commits self (left_by H.seen result)) }
        ensures cause { HasCause self.faults (left_by H.seen result).faults result }
    {
        let mut host = self.host;
        let opened = self.opened;
        match gate::commit(&mut host, opened) {
            Ok(()) => Ok(Committed {
                host,
                slot: Slot::spare(opened),
            }),
            Err(_) => Err(Lost {
                host,
                fault: HostFault,
            }),
        }
    }
}

impl<H: Host> Committed<H> {
    /// Carries out the records in order. It touches their names alone, and doesn't sync. `HostFault` comes only where the
    /// host's faults rose.
    pub fn apply(self) -> Result<Applied<H>, Lost<H, HostFault>>
        ensures tree { Told H.tells (IfOk result (λ applied. stand self.present.held ≡ Some (tree_of applied.present.held))) }
        ensures carries_out { Told H.tells (CarriesOut self (left_by H.seen result)) }
        ensures cause { HasCause self.faults (left_by H.seen result).faults result }
    {
        let mut host = self.host;
        let slot = self.slot;
        match resume::apply(&mut host, slot) {
            Ok(()) => Ok(Applied { host, slot }),
            Err(_) => Err(Lost {
                host,
                fault: HostFault,
            }),
        }
    }
}

impl<H: Host> Applied<H> {
    /// Ends the change. It touches no device.
    pub fn close(self) -> Clean<H>
        ensures { result ≡ self }
    {
        Clean {
            host: self.host,
            opened: Some(self.slot),
        }
    }
}
