//! How a command ends that has no plan.
ghost use Rattle.std.specs.Prelude.{◌≡◌, [], Bool, IsTrue, IfOk, IfErr};
ghost use Rattle.tl_model.specs.Causes.{Rose};
ghost use Rattle.tl_model.specs.Seen.{Seen};
ghost use Rattle.tl_model.specs.Volume.{Volume};
ghost use Rattle.tl_coming.specs.declared.error.ComingError.TheVariants as errors;
ghost use Rattle.tl_command.specs.Endings.{Faults};
ghost use Rattle.tl_command.specs.Performs.{Advances, Performs};
ghost use Rattle.tl_command.specs.Runs.{Run};
ghost use Rattle.tl_install.specs.Free.{EndsPlan, IsFreeOf, RefusesPlan};

use std::alloc::Global;
use tl_coming::ComingError;
use tl_command::{Acted, Ending, Refusal, Session, give_up, refuse};
use tl_host::Host;
use tl_tree::Tree;

// Why a plan that isn't made isn't refused.
enum Free {
    Host,
    Memory,
}

// The refusal that the error of a plan is said as.
fn refusal_of(error: ComingError) -> Result<Refusal, Free>
    ensures refuses { IfOk result (RefusesPlan error) }
    ensures free { IfErr result (IsFreeOf error) }
{
    match error {
        ComingError::Protected { name } => Ok(Refusal::Protected { name }),
        ComingError::NotInstalled { name } => Ok(Refusal::NotInstalled { name }),
        ComingError::UnknownPackage { name } => Ok(Refusal::UnknownPackage { name }),
        ComingError::BadExecute { name, at, kind } => Ok(Refusal::BadExecute { name, at, kind }),
        ComingError::Reserved { path } => Ok(Refusal::Reserved { path }),
        ComingError::Clash {
            path,
            first,
            second,
        } => Ok(Refusal::Clash {
            path,
            first,
            second,
        }),
        ComingError::Owned { path, owner } => Ok(Refusal::Owned { path, owner }),
        ComingError::TooLarge { what, limit } => Ok(Refusal::TooLarge { what, limit }),
        ComingError::Occupied { path } => Ok(Refusal::Occupied { path }),
        ComingError::HostFault => Err(Free::Host),
        ComingError::NoMemory => Err(Free::Memory),
    }
}

/// Ends a command that has no plan over a tree, where nothing was done since `first`: says the refusal of a command that is refused so; a
/// fault of the host and want of memory end any command.
pub fn end_plan<H: Host>(alloc: Global, error: ComingError, tree: Tree<H>) -> Acted<H>
    ensures { (first : Seen) (tells : Bool) (command : Volume → Run) (before after : Faults) → (IsTrue tells → IsTrue H.tells)
        → Advances H.tells (λ _. []) first tree.seen → (error ≡ errors.HostFault → Rose first.faults tree.seen.faults)
        → EndsPlan tells command first error → Performs tells H.seen command 0 first before after result.ending result.state }
{
    match refusal_of(error) {
        Ok(refusal) => refuse(alloc, refusal, Session::of_tree(tree)),
        Err(Free::Host) => Acted {
            ending: Ending::HostFault,
            state: Err(tree.release().into_host()),
        },
        Err(Free::Memory) => give_up(Session::of_tree(tree)),
    }
}
