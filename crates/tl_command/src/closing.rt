//! What a command does last.
ghost use Rattle.std.specs.Prelude.{◌≡◌};
ghost use Rattle.tl_model.specs.Acks.{IsPlain};
ghost use Rattle.tl_model.specs.Causes.{Rose};
ghost use Rattle.tl_model.specs.Seen.{Told};
ghost use Rattle.tl_model.specs.Volume.{Volume};
ghost use Rattle.tl_command.specs.Endings.{Faults, IsOfWords, no_devices};
ghost use Rattle.tl_command.specs.Performs.{Performs, last_of};
ghost use Rattle.tl_command.specs.Runs.{Run, finished, saying, refused};

use crate::acted::Acted;
use crate::ending::Ending;
use crate::session::Session;
use std::alloc::Global;
use tl_host::Host;
use tl_journal::{Journal, Lost, RecoverError};
use tl_refusal::{Refusal, line_of};

/// Says a text, and ends with a command that was carried out. No memory.
pub fn say<H: Host>(bytes: &[u8], session: Session<H>) -> Acted<H>
    requires { IsPlain bytes.now }
    ensures { Performs H.tells H.seen (λ _. saying bytes.now) 0 session no_devices no_devices result.ending result.state }
{
    match session.say(bytes) {
        Ok(session) => Acted {
            ending: Ending::Done,
            state: Ok(session),
        },
        Err(host) => Acted {
            ending: Ending::HostFault,
            state: Err(host),
        },
    }
}

/// Says a refusal, and ends with it.
pub fn refuse<H: Host>(alloc: Global, refusal: Refusal, session: Session<H>) -> Acted<H>
    requires { IsOfWords refusal → ⊥ }
    ensures performs { Performs H.tells H.seen (λ _. refused refusal) 0 session no_devices no_devices result.ending result.state }
    ensures unsynced { Told H.tells ((last_of H.seen result.state).syncs ≡ session.syncs) }
{
    let Ok(line) = line_of(alloc, &refusal) else {
        return Acted {
            ending: Ending::NoMemory,
            state: Ok(session),
        };
    };
    match session.say(line.as_bytes()) {
        Ok(session) => Acted {
            ending: Ending::Refused(refusal),
            state: Ok(session),
        },
        Err(host) => Acted {
            ending: Ending::HostFault,
            state: Err(host),
        },
    }
}

/// Ends with a command that was carried out, and says nothing more. No memory.
pub fn finish<H: Host>(session: Session<H>) -> Acted<H>
    ensures { Performs H.tells H.seen (λ _. finished) 0 session no_devices no_devices result.ending result.state }
{
    Acted {
        ending: Ending::Done,
        state: Ok(session),
    }
}

/// Gives up for want of memory: of any run, nothing more is made. No memory.
pub fn give_up<H: Host>(session: Session<H>) -> Acted<H>
    ensures { (command : Volume → Run) → Performs H.tells H.seen command 0 session no_devices no_devices result.ending result.state }
{
    Acted {
        ending: Ending::NoMemory,
        state: Ok(session),
    }
}

/// Stops at a fault of the repositories: of any run, nothing more is made. No memory.
pub fn stop_at_shelf<H: Host>(session: Session<H>) -> Acted<H>
    ensures { (command : Volume → Run) (before after : Faults) → Rose before.shelf after.shelf →
        Performs H.tells H.seen command 0 session before after result.ending result.state }
{
    Acted {
        ending: Ending::ShelfFault,
        state: Ok(session),
    }
}

// Recovers a volume whose state was spent, and gives up for want of memory.
pub(crate) fn give_up_spent<H: Host>(host: H) -> Acted<H>
    ensures { (command : Volume → Run) → Performs H.tells H.seen command 0 (H.seen host) no_devices no_devices result.ending result.state }
{
    match Journal::recover(host) {
        Ok(recovered) => {
            let journal = recovered.journal;
            journal.stands();
            Acted {
                ending: Ending::NoMemory,
                state: Ok(Session::of_journal(journal)),
            }
        }
        Err(Lost { host, fault }) => match fault {
            RecoverError::HostFault => Acted {
                ending: Ending::HostFault,
                state: Err(host),
            },
            RecoverError::BadJournal { .. } => Acted {
                ending: Ending::NoMemory,
                state: Err(host),
            },
        },
    }
}

// Recovers a volume whose state was spent, and refuses.
pub(crate) fn refuse_spent<H: Host>(alloc: Global, refusal: Refusal, host: H) -> Acted<H>
    requires { IsOfWords refusal → ⊥ }
    ensures { Performs H.tells H.seen (λ _. refused refusal) 0 (H.seen host) no_devices no_devices result.ending result.state }
{
    match Journal::recover(host) {
        Ok(recovered) => {
            let journal = recovered.journal;
            journal.stands();
            refuse(alloc, refusal, Session::of_journal(journal))
        }
        Err(Lost { host, fault }) => match fault {
            RecoverError::HostFault => Acted {
                ending: Ending::HostFault,
                state: Err(host),
            },
            RecoverError::BadJournal { .. } => Acted {
                ending: Ending::Refused(refusal),
                state: Err(host),
            },
        },
    }
}
