//! How a command ends behind calls that change nothing, as those that make and list backups.
ghost use Rattle.std.specs.Prelude.{◌≡◌, Some, IfSome};
ghost use Rattle.tl_model.specs.Seen.{Told};
ghost use Rattle.tl_model.specs.Volume.{Volume};
ghost use Rattle.tl_journal_text.specs.Stand.{stand};
ghost use Rattle.tl_tree.specs.Planted.{Planted};
ghost use Rattle.tl_backup.specs.Asked.{IsAsked, IsCausedBy};
ghost use Rattle.tl_command.specs.Endings.{IsOfWords, no_devices};
ghost use Rattle.tl_command.specs.Performs.{Performs};
ghost use Rattle.tl_command.specs.Runs.{Run, refused};
ghost use Rattle.tl_backups.specs.Faults.{refusal_of};

use std::alloc::Global;
use tl_backup::BackupError;
use tl_command::{Acted, Ending, Refusal, Session, give_up, refuse};
use tl_host::Host;
use tl_tree::Tree;

/// Says a refusal, and ends with it, of a command that is refused so over the tree before these calls.
pub fn refuse_asked<H: Host>(alloc: Global, refusal: Refusal, tree: Tree<H>) -> Acted<H>
    requires { IsOfWords refusal → ⊥ }
    ensures { (command : Volume → Run) (old : Planted) → IsAsked H.tells old tree →
        Told H.tells ((t : Volume) → stand old.seen.present.held ≡ Some t → command t ≡ refused refusal) →
        Performs H.tells H.seen command 0 old.seen no_devices no_devices result.ending result.state }
{
    refuse(alloc, refusal, Session::of_tree(tree))
}

/// Gives up for want of memory: of any command over the tree before these calls, nothing more is made. No memory.
pub fn give_up_asked<H: Host>(tree: Tree<H>) -> Acted<H>
    ensures { (command : Volume → Run) (old : Planted) → IsAsked H.tells old tree →
        Performs H.tells H.seen command 0 old.seen no_devices no_devices result.ending result.state }
{
    give_up(Session::of_tree(tree))
}

/// Ends with a fault of a backup: says its refusal, of a command that is refused so over the tree before these calls; a fault of the host
/// and want of memory end any command.
pub fn fault_ends<H: Host>(alloc: Global, fault: BackupError, tree: Tree<H>) -> Acted<H>
    ensures { (command : Volume → Run) (old : Planted) → IsAsked H.tells old tree → IsCausedBy old tree fault →
        Told H.tells ((t : Volume) → stand old.seen.present.held ≡ Some t → IfSome (refusal_of fault) (λ refusal. command t ≡ refused refusal)) →
        Performs H.tells H.seen command 0 old.seen no_devices no_devices result.ending result.state }
{
    match fault {
        BackupError::NotInstalled { name } => {
            refuse_asked(alloc, Refusal::NotInstalled { name }, tree)
        }
        BackupError::FileMissing { path } => {
            refuse_asked(alloc, Refusal::FileMissing { path }, tree)
        }
        BackupError::TooLarge { what, limit } => {
            refuse_asked(alloc, Refusal::TooLarge { what, limit }, tree)
        }
        BackupError::HostFault => Acted {
            ending: Ending::HostFault,
            state: Err(tree.release().into_host()),
        },
        BackupError::NoMemory => give_up_asked(tree),
    }
}
