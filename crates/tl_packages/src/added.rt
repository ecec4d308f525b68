//! What is added to a step of a plan, and how the command ends where that has a fault.
ghost use Rattle.std.specs.Prelude.{◌≡◌, ◌++◌, Some, IfOk, IfSome, MatchOption, OnOk};
ghost use Rattle.tl_model.specs.Seen.{Told};
ghost use Rattle.tl_model.specs.Volume.{Volume};
ghost use Rattle.tl_kind.specs.Quantities.{limit_of};
ghost use Rattle.tl_journal_text.specs.Stand.{stand};
ghost use Rattle.tl_tree.specs.Answers.{IsTooLarge, IsWithin};
ghost use Rattle.tl_tree.specs.Changes.{entries_after, entries_by};
ghost use Rattle.tl_tree.specs.Planted.{Planted};
ghost use Rattle.tl_backup.specs.Asked.{IsAsked, IsCausedBy};
ghost use Rattle.tl_command.specs.Endings.{no_devices};
ghost use Rattle.tl_command.specs.Performs.{Performs};
ghost use Rattle.tl_command.specs.Runs.{Run, changing_entries, refused};
ghost use Rattle.tl_backups.specs.Faults.{refusal_of};
ghost use Rattle.tl_packages.specs.Remove.{RemovesOne, name_left, left_in, part_of, parts_of};

use std::alloc::{AllocError, Global};
use tl_backup::BackupError;
use tl_backups::{fault_ends, give_up_asked, refuse_asked};
use tl_command::{Acted, Refusal};
use tl_db::{Db, write_db};
use tl_host::Host;
use tl_kind::What;
use tl_path::Name;
use tl_plan::{Planned, PlannedStep};
use tl_tree::Tree;

// Adds the name of the package that leaves or is replaced with a part of a plan.
fn push_left(names: &mut Vec<Name>, part: &Planned) -> Result<(), AllocError>
    ensures { OnOk result (names.new.items ≡ names.old.items ++ name_left part.now) }
{
    match part {
        Planned::Remove { name } => names.push(name.clone()?)?,
    }
    Ok(())
}

fn names_left(alloc: Global, step: &[Planned]) -> Result<Vec<Name>, AllocError>
    ensures { IfOk result (λ names. names.items ≡ left_in step.now) }
{
    let mut names = Vec::with_capacity(alloc, step.len())?;
    for part in step {
        push_left(&mut names, part)?;
    }
    Ok(names)
}

/// The names of the packages that leave or are replaced in a step of a plan.
pub(crate) fn left_in(alloc: Global, planned: &PlannedStep) -> Result<Vec<Name>, AllocError>
    ensures { IfOk result (λ names. names.items ≡ left_in planned.now) }
{
    names_left(alloc, planned.changes.as_slice())
}

fn change_entries(db: &mut Db, part: &Planned)
    ensures { db.new ≡ entries_by (part_of part.now) db.old }
{
    match part {
        Planned::Remove { name } => {
            let _ = db.without(name);
        }
    }
}

// The entries after a step of a plan.
fn entries_after(alloc: Global, step: &[Planned], db: &Db) -> Result<Db, AllocError>
    ensures { IfOk result (λ next. next ≡ entries_after (parts_of step.now) db.now) }
{
    let mut next = db.copy(alloc)?;
    for part in step {
        change_entries(&mut next, part);
    }
    Ok(next)
}

// What passes its limit of a database.
fn passed_limit(alloc: Global, db: &Db) -> Result<Option<What>, AllocError>
    ensures { IfOk result (λ passed. MatchOption passed (IsWithin db.now) (λ what. IsTooLarge db.now what (limit_of what))) }
{
    if db.len() as u64 > What::Packages.limit() {
        return Ok(Some(What::Packages));
    }
    let text = write_db(alloc, db)?;
    if text.len() as u64 > What::Database.limit() {
        return Ok(Some(What::Database));
    }
    Ok(None)
}

// What passes its limit of the database that a step of a plan would leave.
fn limit_after(alloc: Global, planned: &PlannedStep, db: &Db) -> Result<Option<What>, AllocError>
    ensures { IfOk result (λ passed. MatchOption passed (IsWithin (entries_after (parts_of planned.now) db.now))
        (λ what. IsTooLarge (entries_after (parts_of planned.now) db.now) what (limit_of what))) }
{
    let next = entries_after(alloc, planned.changes.as_slice(), db)?;
    passed_limit(alloc, &next)
}

/// How a command ends at a step of a plan to which nothing can be added for a fault: a limit that the database passes which the step would
/// leave is refused first.
pub(crate) fn fault_ends_step<H: Host>(
    alloc: Global,
    fault: BackupError,
    planned: &PlannedStep,
    tree: Tree<H>,
) -> Acted<H>
    requires { RemovesOne planned.now }
    ensures { (inner : Volume → Run) (old : Planted) → IsAsked H.tells old tree → IsCausedBy old tree fault →
        Told H.tells ((t : Volume) → stand old.seen.present.held ≡ Some t → IfSome (refusal_of fault) (λ refusal. inner t ≡ refused refusal)) →
        Performs H.tells H.seen (λ t. changing_entries old.db (parts_of planned.now) (inner t)) 0 old.seen no_devices no_devices result.ending result.state }
{
    match limit_after(alloc, planned, tree.db()) {
        Ok(Some(what)) => {
            let limit = what.limit();
            refuse_asked(alloc, Refusal::TooLarge { what, limit }, tree)
        }
        Ok(None) => fault_ends(alloc, fault, tree),
        Err(_) => give_up_asked(tree),
    }
}
