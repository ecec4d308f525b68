//! How a command ends at a fault of a master.
ghost use Rattle.std.specs.Prelude.{◌≡◌, Some, IfSome};
ghost use Rattle.tl_model.specs.Seen.{Told};
ghost use Rattle.tl_model.specs.Volume.{Volume};
ghost use Rattle.tl_journal_text.specs.Stand.{stand};
ghost use Rattle.tl_tree.specs.Planted.{Planted};
ghost use Rattle.tl_backup.specs.Asked.{IsAsked};
ghost use Rattle.tl_command.specs.Endings.{no_devices};
ghost use Rattle.tl_command.specs.Performs.{Performs};
ghost use Rattle.tl_command.specs.Runs.{Run, refused};
ghost use Rattle.tl_master.specs.Answers.{IsHostCause};
ghost use Rattle.tl_sources.specs.Expand.{refusal_of};

use std::alloc::Global;
use tl_backups::{give_up_asked, refuse_asked};
use tl_command::{Acted, Ending, Refusal};
use tl_host::Host;
use tl_master::MasterError;
use tl_path::Name;
use tl_tree::Tree;

// Refuses a package that has no source, of a command that is refused so over the tree before these calls.
fn refuse_name<H: Host>(alloc: Global, name: &Name, tree: Tree<H>) -> Acted<H>
    ensures { (command : Volume → Run) (old : Planted) → IsAsked H.tells old tree →
        Told H.tells ((t : Volume) → stand old.seen.present.held ≡ Some t → command t ≡ refused (Refusal.NoSource name.now)) →
        Performs H.tells H.seen command 0 old.seen no_devices no_devices result.ending result.state }
{
    match name.clone() {
        Ok(name) => refuse_asked(alloc, Refusal::NoSource { name }, tree),
        Err(_) => give_up_asked(tree),
    }
}

/// Ends with a fault of a master, or of the entries of this package: says its refusal, of a command that is refused so over the tree before
/// these calls; a fault of the host and want of memory end any command.
pub(crate) fn fault_ends<H: Host>(
    alloc: Global,
    name: &Name,
    fault: MasterError,
    tree: Tree<H>,
) -> Acted<H>
    ensures { (command : Volume → Run) (old : Planted) → IsAsked H.tells old tree → IsHostCause old tree fault →
        Told H.tells ((t : Volume) → stand old.seen.present.held ≡ Some t → IfSome (refusal_of name.now fault) (λ refusal. command t ≡ refused refusal)) →
        Performs H.tells H.seen command 0 old.seen no_devices no_devices result.ending result.state }
{
    match fault {
        MasterError::BadMarks { line } => refuse_asked(alloc, Refusal::BadMarks { line }, tree),
        MasterError::BadSource { name, line, kind } => {
            refuse_asked(alloc, Refusal::BadSource { name, line, kind }, tree)
        }
        MasterError::UnsetVariable { name, line } => {
            refuse_asked(alloc, Refusal::UnsetVariable { name, line }, tree)
        }
        MasterError::BadPath { name, line } => {
            refuse_asked(alloc, Refusal::BadPath { name, line }, tree)
        }
        MasterError::Regexp { name, line, kind } => {
            refuse_asked(alloc, Refusal::Regexp { name, line, kind }, tree)
        }
        MasterError::NoSource => refuse_name(alloc, name, tree),
        MasterError::TooLarge { what, limit } => {
            refuse_asked(alloc, Refusal::TooLarge { what, limit }, tree)
        }
        MasterError::HostFault => Acted {
            ending: Ending::HostFault,
            state: Err(tree.release().into_host()),
        },
        MasterError::NoMemory => give_up_asked(tree),
    }
}
