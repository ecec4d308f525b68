//! How a command ends at a step of a plan to which nothing can be added for a fault.
ghost use Rattle.std.specs.Prelude.{◌≡◌, true, Some, IfOk, IfSome, MatchOption, OnOk, option_copied};
ghost use Rattle.tl_kind.specs.Quantities.{limit_of};
ghost use Rattle.tl_model.specs.Seen.{Told};
ghost use Rattle.tl_model.specs.Volume.{Volume};
ghost use Rattle.tl_journal_text.specs.Stand.{stand};
ghost use Rattle.tl_tree.specs.Answers.{IsTooLarge, IsWithin};
ghost use Rattle.tl_tree.specs.Changes.{entries_after, has_entries};
ghost use Rattle.tl_tree.specs.Planted.{Planted};
ghost use Rattle.tl_backup.specs.Asked.{IsAsked, IsCausedBy};
ghost use Rattle.tl_backups.specs.Faults.{refusal_of};
ghost use Rattle.tl_coming.specs.Made.{made_by, made_parts, stream_of};
ghost use Rattle.tl_command.specs.Endings.{no_devices};
ghost use Rattle.tl_command.specs.Performs.{Performs};
ghost use Rattle.tl_command.specs.Runs.{Run, changing_entries, refused};

use std::alloc::{AllocError, Global};
use tl_backup::BackupError;
use tl_backups::{fault_ends, give_up_asked, refuse_asked};
use tl_coming::{PlanPart, part_entry};
use tl_command::{Acted, Refusal};
use tl_db::{Db, Repo, write_db};
use tl_host::Host;
use tl_kind::What;
use tl_object::Object;
use tl_tree::Tree;

// Puts an entry, if there is one, into a database without its containers.
fn put_entry(alloc: Global, found: Option<&Object>, db: &mut Db) -> Result<(), AllocError>
    ensures { OnOk result (db.new ≡ entries_after (stream_of (option_copied found.entry)) db.old) }
{
    if let Some(entry) = found {
        db.with(entry.less_containers(alloc)?)?;
    }
    Ok(())
}

fn change_entries(
    alloc: Global,
    repos: &[Repo],
    part: &PlanPart,
    db: &mut Db,
) -> Result<(), AllocError>
    ensures { OnOk result (db.new ≡ entries_after (made_by repos.now part.now) db.old) }
{
    match part {
        PlanPart::Install { .. } | PlanPart::Update { .. } => {
            put_entry(alloc, part_entry(repos, part), db)
        }
        PlanPart::Remove { name } => {
            let _ = db.without(name);
            Ok(())
        }
    }
}

// The entries after a step of a plan.
fn entries_after(
    alloc: Global,
    repos: &[Repo],
    step: &[PlanPart],
    db: &Db,
) -> Result<Db, AllocError>
    ensures { IfOk result (λ next. next ≡ entries_after (made_parts repos.now step.now) db.now) }
{
    let mut next = db.copy(alloc)?;
    for part in step {
        change_entries(alloc, repos, part, &mut next)?;
    }
    Ok(next)
}

// What passes its limit of a database.
fn passed_limit(alloc: Global, db: &Db) -> Result<Option<What>, AllocError>
    ensures { IfOk result (λ passed. MatchOption passed (IsWithin db.now) (λ what. IsTooLarge db.now what (limit_of what))) }
{
    if db.len() as u64 > What::Packages.limit() {
        return Ok(Some(What::Packages));
    }
    let text = write_db(alloc, db)?;
    if text.len() as u64 > What::Database.limit() {
        return Ok(Some(What::Database));
    }
    Ok(None)
}

// What passes its limit of the database that a step of a plan would leave.
fn limit_after(
    alloc: Global,
    repos: &[Repo],
    step: &[PlanPart],
    db: &Db,
) -> Result<Option<What>, AllocError>
    ensures { IfOk result (λ passed. MatchOption passed (IsWithin (entries_after (made_parts repos.now step.now) db.now))
        (λ what. IsTooLarge (entries_after (made_parts repos.now step.now) db.now) what (limit_of what))) }
{
    let next = entries_after(alloc, repos, step, db)?;
    passed_limit(alloc, &next)
}

/// Ends a command at a step of a plan whose backups have a fault: a limit that the database passes which the step would leave is refused
/// first.
pub(crate) fn fault_ends_step<H: Host>(
    alloc: Global,
    fault: BackupError,
    repos: &[Repo],
    step: &[PlanPart],
    tree: Tree<H>,
) -> Acted<H>
    requires { has_entries (made_parts repos.now step.now) ≡ true }
    ensures { (inner : Volume → Run) (old : Planted) → IsAsked H.tells old tree → IsCausedBy old tree fault →
        Told H.tells ((t : Volume) → stand old.seen.present.held ≡ Some t → IfSome (refusal_of fault) (λ refusal. inner t ≡ refused refusal)) →
        Performs H.tells H.seen (λ t. changing_entries old.db (made_parts repos.now step.now) (inner t)) 0 old.seen no_devices no_devices
        result.ending result.state }
{
    match limit_after(alloc, repos, step, tree.db()) {
        Ok(Some(what)) => {
            let limit = what.limit();
            refuse_asked(alloc, Refusal::TooLarge { what, limit }, tree)
        }
        Ok(None) => fault_ends(alloc, fault, tree),
        Err(_) => give_up_asked(tree),
    }
}
