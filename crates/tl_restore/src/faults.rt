//! How `restore NAME REV` ends where nothing is brought back.
ghost use Rattle.std.specs.Prelude.{◌≡◌, true, Some, IfSome};
ghost use Rattle.tl_model.specs.Causes.{Rose};
ghost use Rattle.tl_model.specs.Seen.{Told};
ghost use Rattle.tl_model.specs.Volume.{Volume};
ghost use Rattle.tl_journal_text.specs.Stand.{stand};
ghost use Rattle.tl_tree.specs.Planted.{Planted};
ghost use Rattle.tl_backup.specs.Asked.{IsAsked};
ghost use Rattle.tl_backup.specs.Files.{backup_path};
ghost use Rattle.tl_coming.specs.Asked.{IsCausedBy};
ghost use Rattle.tl_command.specs.Endings.{IsOfWords, no_devices};
ghost use Rattle.tl_command.specs.Performs.{Performs};
ghost use Rattle.tl_command.specs.Runs.{Run, refused};
ghost use Rattle.tl_coming.specs.declared.error.ComingError.TheVariants as coming;
ghost use Rattle.tl_refusal.specs.declared.refusal.Refusal.TheVariants.{BadFrame, FrameEntry, NoBackup};
ghost use Rattle.tl_restore.specs.Restored.{IsRestoreCause};
ghost use Rattle.tl_restore.specs.Restoring.{coming_refusal, unread_refusal};

use crate::reading::RestoreError;
use std::alloc::Global;
use tl_backup::backup_path;
use tl_backups::{give_up_asked, refuse_asked};
use tl_coming::ComingError;
use tl_command::{Acted, Ending, Refusal};
use tl_host::Host;
use tl_path::Name;
use tl_tree::Tree;

// The refusal that a fault of a package is said as which comes.
fn refusal_of(fault: ComingError) -> Option<Refusal>
    ensures refusal { result ≡ coming_refusal fault }
    ensures words { IfSome result (λ refusal. IsOfWords refusal → ⊥) }
{
    match fault {
        ComingError::Protected { name } => Some(Refusal::Protected { name }),
        ComingError::NotInstalled { name } => Some(Refusal::NotInstalled { name }),
        ComingError::UnknownPackage { name } => Some(Refusal::UnknownPackage { name }),
        ComingError::BadExecute { name, at, kind } => Some(Refusal::BadExecute { name, at, kind }),
        ComingError::Reserved { path } => Some(Refusal::Reserved { path }),
        ComingError::Clash {
            path,
            first,
            second,
        } => Some(Refusal::Clash {
            path,
            first,
            second,
        }),
        ComingError::Owned { path, owner } => Some(Refusal::Owned { path, owner }),
        ComingError::TooLarge { what, limit } => Some(Refusal::TooLarge { what, limit }),
        ComingError::Occupied { path } => Some(Refusal::Occupied { path }),
        ComingError::HostFault | ComingError::NoMemory => None,
    }
}

fn is_of_host(fault: &ComingError) -> bool
    ensures { result ≡ true → fault.now ≡ coming.HostFault }
{
    matches!(fault, ComingError::HostFault)
}

// Ends where a call of the host failed.
fn host_ends<H: Host>(tree: Tree<H>) -> Acted<H>
    ensures { (command : Volume → Run) (old : Planted) → IsAsked H.tells old tree → Rose old.seen.faults tree.seen.faults →
        Performs H.tells H.seen command 0 old.seen no_devices no_devices result.ending result.state }
{
    Acted {
        ending: Ending::HostFault,
        state: Err(tree.release().into_host()),
    }
}

/// Ends with a fault of a package that comes back: says its refusal, of a command that is refused so over the tree before these calls; a
/// fault of the host and want of memory end any command.
pub(crate) fn coming_ends<H: Host>(alloc: Global, fault: ComingError, tree: Tree<H>) -> Acted<H>
    ensures { (command : Volume → Run) (old : Planted) → IsAsked H.tells old tree → IsCausedBy old tree fault →
        Told H.tells ((t : Volume) → stand old.seen.present.held ≡ Some t → IfSome (coming_refusal fault) (λ refusal. command t ≡ refused refusal)) →
        Performs H.tells H.seen command 0 old.seen no_devices no_devices result.ending result.state }
{
    if is_of_host(&fault) {
        return host_ends(tree);
    }
    match refusal_of(fault) {
        Some(refusal) => refuse_asked(alloc, refusal, tree),
        None => give_up_asked(tree),
    }
}

// Ends where the frame of a backup doesn't read from a place on.
fn bad_frame_ends<H: Host>(
    alloc: Global,
    name: &Name,
    revision: u32,
    at: u64,
    tree: Tree<H>,
) -> Acted<H>
    ensures { (command : Volume → Run) (old : Planted) → IsAsked H.tells old tree →
        Told H.tells ((t : Volume) → stand old.seen.present.held ≡ Some t → command t ≡ refused (BadFrame (backup_path name.now revision) at)) →
        Performs H.tells H.seen command 0 old.seen no_devices no_devices result.ending result.state }
{
    match backup_path(alloc, name, revision) {
        Ok(path) => refuse_asked(alloc, Refusal::BadFrame { name: path, at }, tree),
        Err(_) => give_up_asked(tree),
    }
}

// Ends where there is no such backup.
fn no_backup_ends<H: Host>(alloc: Global, name: &Name, rev: u32, tree: Tree<H>) -> Acted<H>
    ensures { (command : Volume → Run) (old : Planted) → IsAsked H.tells old tree →
        Told H.tells ((t : Volume) → stand old.seen.present.held ≡ Some t → command t ≡ refused (NoBackup name.now rev)) →
        Performs H.tells H.seen command 0 old.seen no_devices no_devices result.ending result.state }
{
    match name.clone() {
        Ok(name) => refuse_asked(alloc, Refusal::NoBackup { name, rev }, tree),
        Err(_) => give_up_asked(tree),
    }
}

// Ends where a backup holds another entry, or other files, than it has to.
fn frame_entry_ends<H: Host>(alloc: Global, name: &Name, tree: Tree<H>) -> Acted<H>
    ensures { (command : Volume → Run) (old : Planted) → IsAsked H.tells old tree →
        Told H.tells ((t : Volume) → stand old.seen.present.held ≡ Some t → command t ≡ refused (FrameEntry name.now)) →
        Performs H.tells H.seen command 0 old.seen no_devices no_devices result.ending result.state }
{
    match name.clone() {
        Ok(name) => refuse_asked(alloc, Refusal::FrameEntry { name }, tree),
        Err(_) => give_up_asked(tree),
    }
}

/// Ends with the fault of a backup of a package at a revision that brings nothing back, as `coming_ends` does with that of a package.
pub(crate) fn unread_ends<H: Host>(
    alloc: Global,
    name: &Name,
    revision: u32,
    fault: RestoreError,
    tree: Tree<H>,
) -> Acted<H>
    ensures { (command : Volume → Run) (old : Planted) → IsAsked H.tells old tree → IsRestoreCause old tree fault →
        Told H.tells ((t : Volume) → stand old.seen.present.held ≡ Some t →
        IfSome (unread_refusal name.now revision fault) (λ refusal. command t ≡ refused refusal)) →
        Performs H.tells H.seen command 0 old.seen no_devices no_devices result.ending result.state }
{
    match fault {
        RestoreError::NoBackup => no_backup_ends(alloc, name, revision, tree),
        RestoreError::TooLarge { what, limit } => {
            refuse_asked(alloc, Refusal::TooLarge { what, limit }, tree)
        }
        RestoreError::BadFrame { at } => bad_frame_ends(alloc, name, revision, at, tree),
        RestoreError::FrameEntry => frame_entry_ends(alloc, name, tree),
        RestoreError::HostFault => host_ends(tree),
        RestoreError::NoMemory => give_up_asked(tree),
    }
}
