//! `restore`: a package, brought back from a backup, or which backups there are.
ghost use Rattle.std.specs.Prelude.{◌≡◌, [], ◌∷◌, Some, None, true, IfOk, string_bytes};
ghost use Rattle.tl_model.specs.Acks.{IsLabel};
ghost use Rattle.tl_model.specs.Lines.{IsLine};
ghost use Rattle.tl_tree.specs.Planted.{database_text};
ghost use Rattle.tl_command.specs.Endings.{no_devices};
ghost use Rattle.tl_command.specs.Performs.{Performs};
ghost use Rattle.tl_command.specs.Runs.{over_database};
ghost use Rattle.tl_backups.specs.Backing.{is_own_name};
ghost use Rattle.tl_restore.specs.Restored.{entry_and_files, is_of, restored};
ghost use Rattle.tl_restore.specs.Restoring.{open_run, paths_fault, restore_label, restore_run, restore_text, returned, returned_from, returning, returning_part};

use crate::faults::{coming_ends, unread_ends};
use crate::listing::say_backups;
use crate::reading::{Restored, read_backup};
use crate::returning::refuse_return;
use std::alloc::{AllocError, Global};
use tl_command::{Acted, Refusal, Session, finish, give_up, load, refuse, step, step_label};
use tl_file::Bytes;
use tl_host::Host;
use tl_path::Name;
use tl_tree::{Change, Part, PartList, Tree};

fn is_own_name(name: &Name) -> bool
    ensures { result ≡ is_own_name name.now }
{
    name.bytes().starts_with(b"00texlive")
}

// What a package is brought back as.
fn restore_text(alloc: Global, name: &Name, revision: u32) -> Result<String, AllocError>
    ensures text { IfOk result (λ text. string_bytes text ≡ restore_text name.now revision) }
    ensures line { IfOk result (λ text. IsLine (string_bytes text)) }
{
    let name = name.text();
    format!(in alloc; "restore {name} r{revision}")
}

// The line that acknowledges that a package was brought back.
fn label_of(alloc: Global, name: &Name, revision: u32) -> Result<Vec<u8>, AllocError>
    ensures text { IfOk result (λ label. label.items ≡ restore_label name.now revision) }
    ensures label { IfOk result (λ label. IsLabel label.items) }
{
    let text = restore_text(alloc, name, revision)?;
    step_label(alloc, 1, 1, text.as_str())
}

// The change that brings an entry and its files back.
fn change_of(
    alloc: Global,
    name: &Name,
    revision: u32,
    back: Restored,
) -> Result<Change, AllocError>
    ensures parts { IfOk result (λ change. change.parts ≡ returning_part (entry_and_files back) ∷ []) }
    ensures label { IfOk result (λ change. change.label ≡ restore_label name.now revision) }
    ensures one { IfOk result (λ change. IsLabel change.label) }
{
    let label = Bytes::new(label_of(alloc, name, revision)?);
    let mut parts = Vec::new(alloc);
    parts.push(Part::Put {
        entry: back.entry,
        files: back.files,
    })?;
    Ok(Change {
        parts: PartList::new(parts),
        label,
    })
}

// Makes the step that brings an entry and its files back.
fn put_back<H: Host>(
    alloc: Global,
    name: &Name,
    revision: u32,
    back: Restored,
    tree: Tree<H>,
) -> Acted<H>
    requires of { is_of name.now revision back.files back.entry ≡ true }
    requires free { paths_fault tree.db back.entry ≡ None }
    ensures { Performs H.tells H.seen (λ t. returning name.now revision (entry_and_files back) t tree.db)
        0 tree.seen no_devices no_devices result.ending result.state }
{
    let Ok(change) = change_of(alloc, name, revision, back) else {
        return give_up(Session::of_tree(tree));
    };
    match step(alloc, &change, tree) {
        Ok(tree) => finish(Session::of_tree(tree)),
        Err(acted) => acted,
    }
}

// Brings an entry and its files back, unless something keeps it from coming.
fn bring_back<H: Host>(
    alloc: Global,
    name: &Name,
    revision: u32,
    back: Restored,
    tree: Tree<H>,
) -> Acted<H>
    requires { is_of name.now revision back.files back.entry ≡ true }
    ensures { Performs H.tells H.seen (λ t. returned name.now revision (entry_and_files back) t tree.db)
        0 tree.seen no_devices no_devices result.ending result.state }
{
    tree.stands();
    let mut tree = tree;
    match refuse_return(alloc, &back.entry, &mut tree) {
        Ok(()) => put_back(alloc, name, revision, back, tree),
        Err(fault) => coming_ends(alloc, fault, tree),
    }
}

// Brings back what the backup of a package at a revision holds.
fn restore_from<H: Host>(alloc: Global, name: &Name, revision: u32, tree: Tree<H>) -> Acted<H>
    ensures { Performs H.tells H.seen (λ t. returned_from name.now revision (restored name.now revision t) t tree.db)
        0 tree.seen no_devices no_devices result.ending result.state }
{
    tree.stands();
    let mut tree = tree;
    match read_backup(alloc, &mut tree, name, revision) {
        Ok(back) => bring_back(alloc, name, revision, back, tree),
        Err(fault) => unread_ends(alloc, name, revision, fault, tree),
    }
}

// Brings a package back from its backup at a revision; without one, says its backups.
fn restore_open<H: Host>(
    alloc: Global,
    name: &Name,
    revision: Option<u32>,
    tree: Tree<H>,
) -> Acted<H>
    ensures { Performs H.tells H.seen (λ t. open_run name.now revision t tree.db)
        0 tree.seen no_devices no_devices result.ending result.state }
{
    match revision {
        Some(revision) => restore_from(alloc, name, revision, tree),
        None => say_backups(alloc, Some(name), tree),
    }
}

// The same of a package that may be one of the program's own entries.
fn restore_named<H: Host>(
    alloc: Global,
    name: Name,
    revision: Option<u32>,
    tree: Tree<H>,
) -> Acted<H>
    ensures { Performs H.tells H.seen (λ t. restore_run (Some name) revision t tree.db)
        0 tree.seen no_devices no_devices result.ending result.state }
{
    if is_own_name(&name) {
        return refuse(alloc, Refusal::Protected { name }, Session::of_tree(tree));
    }
    restore_open(alloc, &name, revision, tree)
}

// The same of all packages where none is named.
fn restore_tree<H: Host>(
    alloc: Global,
    name: Option<Name>,
    revision: Option<u32>,
    tree: Tree<H>,
) -> Acted<H>
    ensures { Performs H.tells H.seen (λ t. restore_run name revision t tree.db)
        0 tree.seen no_devices no_devices result.ending result.state }
{
    match name {
        Some(name) => restore_named(alloc, name, revision, tree),
        None => say_backups(alloc, None, tree),
    }
}

/// Carries `restore` out: brings the entry and the files back that the backup of a package at a revision holds, in one step; without a
/// revision, says a line for each backup of the package, and without a name, for each of any.
///
/// `Protected` where the name is one of the program's own entries; then `TooLarge` of `Files` where backups are said and the tree has more
/// names than that limit. A package that is brought back: `NoBackup`, `TooLarge` of `Frame`, `BadFrame`, `FrameEntry`; `Reserved`, `Owned`,
/// `TooLarge` of `Files`, `Occupied`; and `TooLarge` of `Packages` and of `Database` for what the step would leave.
pub fn restore<H: Host>(
    alloc: Global,
    name: Option<Name>,
    revision: Option<u32>,
    session: Session<H>,
) -> Acted<H>
    ensures { Performs H.tells H.seen (λ tree. over_database (restore_run name revision tree) (database_text tree))
        0 session no_devices no_devices result.ending result.state }
{
    match load(alloc, session) {
        Ok(tree) => restore_tree(alloc, name, revision, tree),
        Err(acted) => acted,
    }
}
