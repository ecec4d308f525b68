//! A step of a command.
ghost use Rattle.std.specs.Prelude.{◌≡◌, false, IfOk, IfErr};
ghost use Rattle.tl_model.specs.Volume.{Volume};
ghost use Rattle.tl_tree.specs.Conditions.{IsChange, has_later};
ghost use Rattle.tl_command.specs.Endings.{no_devices};
ghost use Rattle.tl_command.specs.Loaded.{Steps};
ghost use Rattle.tl_command.specs.Performs.{Performs};
ghost use Rattle.tl_command.specs.Runs.{Run, stepping};

use crate::acted::Acted;
use crate::closing::{give_up_spent, refuse_spent};
use crate::ending::Ending;
use std::alloc::Global;
use tl_host::Host;
use tl_journal::Lost;
use tl_refusal::Refusal;
use tl_tree::{Change, StepError, Tree};

/// Makes a step of a tree by a change whose bytes are all there; or, where it isn't made, how the command ends, whatever it would have
/// done behind it.
pub fn step<H: Host>(alloc: Global, change: &Change, tree: Tree<H>) -> Result<Tree<H>, Acted<H>>
    requires change { IsChange tree.db change.now.parts change.now.label }
    requires whole { has_later change.now.parts ≡ false }
    ensures made { IfOk result (λ next. Steps H.tells change.now.parts change.now.label tree next) }
    ensures acted { IfErr result (λ acted. (rest : Volume → Run) → Performs H.tells H.seen
        (λ t. stepping tree.db change.now.parts change.now.label (rest t) t) 0 tree.seen no_devices no_devices acted.ending acted.state) }
{
    tree.stands();
    match tree.step(alloc, change) {
        Ok(next) => Ok(next),
        Err(Lost { host, fault }) => match fault {
            StepError::HostFault => Err(Acted {
                ending: Ending::HostFault,
                state: Err(host),
            }),
            StepError::NoMemory => Err(give_up_spent(host)),
            StepError::TooLarge { what, limit } => {
                Err(refuse_spent(alloc, Refusal::TooLarge { what, limit }, host))
            }
        },
    }
}
