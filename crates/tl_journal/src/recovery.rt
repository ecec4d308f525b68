// Recovery.
ghost use Rattle.std.specs.Prelude.{◌≡◌, IfOk, IfErr, Some, is_some};
ghost use Rattle.tl_model.specs.Causes.{HasCauseOf};
ghost use Rattle.tl_model.specs.Seen.{Told};
ghost use Rattle.tl_journal_text.specs.Slots.{open_slot};
ghost use Rattle.tl_journal_text.specs.Stand.{stand, tree_of};
ghost use Rattle.tl_journal.specs.Faults.{IsFault};
ghost use Rattle.tl_journal.specs.Spent.{left_recovered, Resumes};
ghost use Rattle.tl_journal.specs.declared.resume.RecoverError.TheVariants.{HostFault};

use crate::lost::Lost;
use crate::resume::{RecoverError, resume};
use crate::states::Clean;
use tl_host::Host;

/// The journal of a volume.
#[derive(Clone, Copy, Debug, PartialEq, Eq)]
pub struct Journal;

/// A journal that was recovered.
#[derive(Drop)]
pub struct Recovered<H: Host> {
    /// The journal.
    pub journal: Clean<H>,
    /// Whether the gate was open, so that records were carried out.
    pub redone: bool,
}

impl Journal {
    /// Makes the volume what it stands for. It may itself be stopped at any moment. It touches names of the records alone,
    /// and syncs once, at its start.
    ///
    /// `BadJournal` comes exactly where the volume stands for nothing, at the place of the first field that is cut or
    /// wrong. No name changes where the volume stands for nothing, whatever the answer. `HostFault` comes only where the
    /// host's faults rose.
    pub fn recover<H: Host>(host: H) -> Result<Recovered<H>, Lost<H, RecoverError>>
        ensures tree { Told H.tells (IfOk result (λ r. stand (H.seen host).present.held ≡ Some (tree_of r.journal.present.held))) }
        ensures redone { Told H.tells (IfOk result (λ r. r.redone ≡ is_some (open_slot (H.seen host).present.held))) }
        ensures resumes { Told H.tells (Resumes (H.seen host) (left_recovered H.seen result)) }
        ensures bad { Told H.tells (IfErr result (λ lost. IsFault (H.seen host) (H.seen lost.host) lost.fault)) }
        ensures cause { HasCauseOf (λ lost. lost.fault ≡ HostFault) (H.seen host).faults (left_recovered H.seen result).faults result }
    {
        let mut host = host;
        match resume(&mut host) {
            Ok(opened) => Ok(Recovered {
                redone: opened.is_some(),
                journal: Clean { host, opened },
            }),
            Err(fault) => Err(Lost { host, fault }),
        }
    }
}
