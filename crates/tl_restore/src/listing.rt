//! `restore` without a revision: which backups there are.
ghost use Rattle.std.specs.Prelude.{◌≡◌, ◌++◌, ◌∷◌, [], Some, IfOk, OnOk, string_bytes};
ghost use Rattle.std.specs.Option.{option_copied};
ghost use Rattle.tl_model.specs.Acks.{IsPlain};
ghost use Rattle.tl_model.specs.Seen.{Told};
ghost use Rattle.tl_model.specs.Volume.{Volume};
ghost use Rattle.tl_journal_text.specs.Stand.{stand};
ghost use Rattle.tl_tree.specs.Planted.{Planted};
ghost use Rattle.tl_backup.specs.Asked.{IsAsked};
ghost use Rattle.tl_command.specs.Endings.{no_devices};
ghost use Rattle.tl_command.specs.Performs.{Performs};
ghost use Rattle.tl_command.specs.Runs.{Run, saying};
ghost use Rattle.tl_restore.specs.Listing.{backup_line, backup_lines, said_backups};
ghost use Rattle.tl_backup.specs.Listed.{listed};

use std::alloc::{AllocError, Global};
use tl_backup::{Backup, list};
use tl_backups::{fault_ends, give_up_asked};
use tl_command::{Acted, Session, say};
use tl_host::Host;
use tl_path::Name;
use tl_tree::Tree;

// Says a text, and ends with a command that was carried out, which says it so over the tree before these calls. No memory.
fn say_asked<H: Host>(bytes: &[u8], tree: Tree<H>) -> Acted<H>
    requires { IsPlain bytes.now }
    ensures { (command : Volume → Run) (old : Planted) → IsAsked H.tells old tree →
        Told H.tells ((t : Volume) → stand old.seen.present.held ≡ Some t → command t ≡ saying bytes.now) →
        Performs H.tells H.seen command 0 old.seen no_devices no_devices result.ending result.state }
{
    say(bytes, Session::of_tree(tree))
}

// What says a backup, without the line's end.
fn text_of(alloc: Global, name: &Name, revision: u32) -> Result<String, AllocError>
    ensures text { IfOk result (λ text. string_bytes text ++ 10 ∷ [] ≡ backup_line (record { name = name.now; revision = revision })) }
    ensures plain { IfOk result (λ text. IsPlain (string_bytes text ++ 10 ∷ [])) }
{
    let name = name.text();
    format!(in alloc; "{name} r{revision}")
}

// Adds the line of a backup.
fn push_line(alloc: Global, lines: &mut Vec<u8>, backup: &Backup) -> Result<(), AllocError>
    ensures line { OnOk result (lines.new.items ≡ lines.old.items ++ backup_line backup.now) }
    ensures plain { OnOk result (IsPlain lines.old.items → IsPlain lines.new.items) }
{
    let text = text_of(alloc, &backup.name, backup.revision)?;
    lines.extend_from_slice(text.as_bytes())?;
    lines.push(b'\n')?;
    Ok(())
}

// A line for each backup.
fn lines_of(alloc: Global, backups: &[Backup]) -> Result<Vec<u8>, AllocError>
    ensures lines { IfOk result (λ lines. lines.items ≡ backup_lines backups.now) }
    ensures plain { IfOk result (λ lines. IsPlain lines.items) }
{
    let mut lines = Vec::new(alloc);
    for backup in backups {
        push_line(alloc, &mut lines, backup)?;
    }
    Ok(lines)
}

// Says backups.
fn say_lines<H: Host>(alloc: Global, backups: &[Backup], tree: Tree<H>) -> Acted<H>
    ensures { (command : Volume → Run) (old : Planted) → IsAsked H.tells old tree →
        Told H.tells ((t : Volume) → stand old.seen.present.held ≡ Some t → command t ≡ saying (backup_lines backups.now)) →
        Performs H.tells H.seen command 0 old.seen no_devices no_devices result.ending result.state }
{
    match lines_of(alloc, backups) {
        Ok(lines) => say_asked(&lines, tree),
        Err(_) => give_up_asked(tree),
    }
}

/// Says a line for each backup of a package, or of any, by name and then by revision. `TooLarge` of `Files` where the tree has more names
/// than that limit.
pub(crate) fn say_backups<H: Host>(alloc: Global, name: Option<&Name>, tree: Tree<H>) -> Acted<H>
    ensures { Performs H.tells H.seen (λ t. said_backups (listed (option_copied name.entry) t))
        0 tree.seen no_devices no_devices result.ending result.state }
{
    tree.stands();
    let mut tree = tree;
    match list(alloc, &mut tree, name) {
        Ok(backups) => say_lines(alloc, &backups, tree),
        Err(fault) => fault_ends(alloc, fault, tree),
    }
}
