//! How a whole call begins and ends.
ghost use Rattle.std.specs.Prelude.{◌≡◌, ◌≤◌, ◌+◌, Some, None, IfOk, IfErr};
ghost use Rattle.tl_model.specs.Seen.{Seen, Told};
ghost use Rattle.tl_model.specs.Volume.{Volume};
ghost use Rattle.tl_journal_text.specs.Slots.{open_slot};
ghost use Rattle.tl_journal_text.specs.Stand.{stand};
ghost use Rattle.tl_command.specs.Endings.{Faults, IsCarried, IsCaused, IsWordless};
ghost use Rattle.tl_command.specs.Performs.{IsActed, last_of};
ghost use Rattle.tl_command.specs.Runs.{Run, refused};
ghost use Rattle.tl_command.specs.Whole.{Begins, Fails, IsRefusalOr, IsRun, OnlySays, Runs};

use crate::acted::Acted;
use crate::ending::Ending;
use crate::session::Session;
use std::alloc::Global;
use tl_host::Host;
use tl_journal::{Journal, Lost, RecoverError};
use tl_refusal::{Refusal, line_of};

/// Says a refusal over a volume as it is, and ends with it.
pub fn refuse_at_once<H: Host>(alloc: Global, refusal: Refusal, host: H) -> (Ending, H)
    ensures run { Told H.tells ((tree : Volume) → stand (H.seen host).present.held ≡ Some tree →
        Runs (refused refusal) result.0 (H.seen host) (H.seen result.1) tree) }
    ensures says { Told H.tells (OnlySays (refused refusal) result.0 (H.seen host) (H.seen result.1)) }
    ensures touched { Told H.tells ((H.seen result.1).present.touched ≡ (H.seen host).present.touched) }
    ensures cause { (before after : Faults) → IsCaused result.0 (H.seen host) (H.seen result.1) before after }
    ensures ending { IsRefusalOr refusal result.0 }
{
    let mut host = host;
    let Ok(line) = line_of(alloc, &refusal) else {
        return (Ending::NoMemory, host);
    };
    match host.say(line.as_bytes()) {
        Ok(()) => (Ending::Refused(refusal), host),
        Err(_) => (Ending::HostFault, host),
    }
}

/// Recovers a volume, so that a command can be carried out; or how a call ends that can't do so. A journal that is open at a body that
/// doesn't read is refused.
pub fn begin<H: Host>(alloc: Global, host: H) -> Result<Session<H>, (Ending, H)>
    ensures begun { IfOk result (λ session. Begins H.tells (H.seen host) session) }
    ensures ended { IfErr result (λ ended. Fails H.tells (H.seen host) ended.0 (H.seen ended.1)) }
{
    match Journal::recover(host) {
        Ok(recovered) => {
            let journal = recovered.journal;
            journal.stands();
            Ok(Session::of_journal(journal))
        }
        Err(Lost { host, fault }) => match fault {
            RecoverError::HostFault => Err((Ending::HostFault, host)),
            RecoverError::BadJournal { at } => {
                Err(refuse_at_once(alloc, Refusal::BadJournal { at }, host))
            }
        },
    }
}

/// Ends a call: where the volume is at rest, it sees to it that nothing is left to carry out. It syncs twice at most.
pub fn end<H: Host>(acted: Acted<H>) -> (Ending, H)
    ensures run { Told H.tells ((run : Run) (first : Seen) (tree : Volume) →
        IsActed H.seen run acted.ending acted.state first tree → IsRun run result.0 first (H.seen result.1) tree) }
    ensures shut { Told H.tells ((run : Run) (first : Seen) (tree : Volume) →
        IsActed H.seen run acted.ending acted.state first tree → IsCarried result.0 →
        open_slot (H.seen result.1).present.held ≡ None) }
    ensures syncs { Told H.tells ((H.seen result.1).syncs ≤ (last_of H.seen acted.state).syncs + 2) }
    ensures cause { (first : Seen) (before after : Faults) → first.faults ≤ (last_of H.seen acted.state).faults →
        IsCaused acted.ending first (last_of H.seen acted.state) before after → IsCaused result.0 first (H.seen result.1) before after }
    ensures words { (IsWordless acted.ending → ⊥) → IsWordless result.0 → ⊥ }
{
    let Acted { ending, state } = acted;
    match state {
        Ok(session) => match session.into_journal().rest() {
            Ok(clean) => (ending, clean.into_host()),
            Err(lost) => (Ending::HostFault, lost.host),
        },
        Err(host) => (ending, host),
    }
}
