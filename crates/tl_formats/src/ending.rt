//! How a command of steps ends.
ghost use Rattle.std.specs.Prelude.{◌≡◌, IfOk, IfSome};
ghost use Rattle.tl_model.specs.Acks.{IsPlain};
ghost use Rattle.tl_trigger.specs.Stale.{stale, format_lines, HasChanges};
ghost use Rattle.tl_command.specs.Endings.{no_devices};
ghost use Rattle.tl_command.specs.Performs.{Performs};
ghost use Rattle.tl_command.specs.Runs.{saying};
ghost use Rattle.tl_formats.specs.Ending.{before_of, formats_end};

use std::alloc::{AllocError, Global};
use tl_command::{Acted, Session, finish, give_up, say};
use tl_db::Db;
use tl_host::Host;
use tl_path::Name;
use tl_tree::Tree;
use tl_trigger::{format_lines, stale};

/// The database before the first step, where the formats to be made anew are asked for.
pub fn before(alloc: Global, formats: bool, db: &Db) -> Result<Option<Db>, AllocError>
    ensures { IfOk result (λ old. old ≡ before_of formats db.now) }
{
    if formats {
        return Ok(Some(db.copy(alloc)?));
    }
    Ok(None)
}

// A line for each format that has to be made anew.
fn stale_lines(alloc: Global, old: &Db, new: &Db, changed: &[Name]) -> Result<Vec<u8>, AllocError>
    requires { HasChanges old.now new.now changed.now }
    ensures lines { IfOk result (λ lines. lines.items ≡ format_lines (stale old.now new.now)) }
    ensures plain { IfOk result (λ lines. IsPlain lines.items) }
{
    let formats = stale(alloc, old, new, changed)?;
    format_lines(alloc, &formats)
}

// Says the formats that have to be made anew.
fn say_stale<H: Host>(alloc: Global, old: &Db, changed: &[Name], tree: Tree<H>) -> Acted<H>
    requires { HasChanges old.now tree.db changed.now }
    ensures { Performs H.tells H.seen (λ _. saying (format_lines (stale old.now tree.db)))
        0 tree.seen no_devices no_devices result.ending result.state }
{
    match stale_lines(alloc, old, tree.db(), changed) {
        Ok(lines) => say(&lines, Session::of_tree(tree)),
        Err(_) => give_up(Session::of_tree(tree)),
    }
}

/// Ends a command whose steps are made: where the database before the first one is given, it says a line for each format that has to be made
/// anew since. Each name at which the two databases differ is among those that are given.
pub fn end<H: Host>(alloc: Global, before: Option<Db>, changed: &[Name], tree: Tree<H>) -> Acted<H>
    requires { IfSome before (λ old. HasChanges old tree.db changed.now) }
    ensures { Performs H.tells H.seen (λ t. formats_end before tree.db t)
        0 tree.seen no_devices no_devices result.ending result.state }
{
    match before {
        Some(old) => say_stale(alloc, &old, changed, tree),
        None => finish(Session::of_tree(tree)),
    }
}
