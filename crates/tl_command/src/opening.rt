//! A step of a command whose files come later.
ghost use Rattle.std.specs.Prelude.{IfOk, IfErr};
ghost use Rattle.tl_model.specs.Volume.{Volume};
ghost use Rattle.tl_tree.specs.Conditions.{IsChange};
ghost use Rattle.tl_command.specs.Endings.{no_devices};
ghost use Rattle.tl_command.specs.Loaded.{Opens};
ghost use Rattle.tl_command.specs.Performs.{Performs};
ghost use Rattle.tl_command.specs.Runs.{Run, changing_entries};

use crate::acted::Acted;
use crate::closing::{give_up_spent, refuse_spent};
use crate::ending::Ending;
use std::alloc::Global;
use tl_host::Host;
use tl_journal::Lost;
use tl_refusal::Refusal;
use tl_tree::{Change, Step, StepError, Tree};

/// Opens a step of a tree, files of which may come later; or, where it isn't opened, how the command ends, whatever it would have done
/// with the step. `TooLarge` where the database that the step leaves passes a limit.
pub fn open_step<'a, H: Host>(
    alloc: Global,
    change: &'a Change,
    tree: Tree<H>,
) -> Result<Step<'a, H>, Acted<H>>
    requires { IsChange tree.db change.now.parts change.now.label }
    ensures opened { IfOk result (λ step. Opens H.tells change.now.parts change.now.label tree step) }
    ensures acted { IfErr result (λ acted. (go : Volume → Run) → Performs H.tells H.seen
        (λ t. changing_entries tree.db change.now.parts (go t)) 0 tree.seen no_devices no_devices acted.ending acted.state) }
{
    tree.stands();
    match tree.open_step(alloc, change) {
        Ok(step) => Ok(step),
        Err(Lost { host, fault }) => match fault {
            StepError::HostFault => Err(Acted {
                ending: Ending::HostFault,
                state: Err(host),
            }),
            StepError::NoMemory => Err(give_up_spent(host)),
            StepError::TooLarge { what, limit } => {
                Err(refuse_spent(alloc, Refusal::TooLarge { what, limit }, host))
            }
        },
    }
}
