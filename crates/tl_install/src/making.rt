//! The steps of a plan by which packages come, made one after the other.
ghost use Rattle.std.specs.Prelude.{◌≡◌, ◌≤◌, ◌++◌, ◌&&◌, List, ℕ, length, map, IfOk, IfErr, IfSome};
ghost use Rattle.tl_model.specs.Acks.{IsLabel};
ghost use Rattle.tl_model.specs.Devices.{SameShelf};
ghost use Rattle.tl_model.specs.Volume.{Volume};
ghost use Rattle.tl_entry.specs.declared.object.Object.{Object};
ghost use Rattle.tl_tree.specs.Changes.{entries_after};
ghost use Rattle.tl_tree.specs.Conditions.{IsChange};
ghost use Rattle.tl_backup.specs.Form.{AreOfBackups};
ghost use Rattle.tl_coming.specs.Made.{AreChanges, AreUnreserved, made_parts};
ghost use Rattle.tl_command.specs.Endings.{no_devices};
ghost use Rattle.tl_command.specs.Labels.{step_label};
ghost use Rattle.tl_command.specs.Performs.{Performs};
ghost use Rattle.tl_command.specs.Runs.{Run};
ghost use Rattle.tl_fill.specs.Filling.{FillsStep, beside_shelf, filling};
ghost use Rattle.tl_fill.specs.Wanted.{wanted_of};
ghost use Rattle.tl_formats.specs.Ending.{formats_end};
ghost use Rattle.tl_trigger.specs.Stale.{HasChanges};
ghost use Rattle.tl_install.specs.Fetched.{wanted_in};
ghost use Rattle.tl_install.specs.Labels.{coming_texts};
ghost use Rattle.tl_install.specs.Left.{spoken_in};
ghost use Rattle.tl_install.specs.Steps.{CarriesOn, coming_step, plan_made, steps_run};

use crate::fetches::step_fetches;
use crate::labels::label_of;
use crate::left::{backups_in, left_in, spoken_in};
use crate::limits::fault_ends_step;
use crate::parts::parts_with;
use std::alloc::{AllocError, Global};
use tl_coming::PlanStep;
use tl_command::{Acted, Session, give_up};
use tl_db::{Db, Repo};
use tl_file::Bytes;
use tl_fill::{Fetch, step_fetched};
use tl_formats::{before, end};
use tl_host::{Host, Shelf};
use tl_tree::{Change, Part, Tree};

// A step of a plan as it is made: its change, and the containers that it fetches.
#[derive(Drop)]
struct Prepared<'r> {
    change: Change,
    fetches: Vec<Fetch<'r>>,
}

// A step of a plan, with its number, of so many, and with what is added to it.
fn prepare<'r>(
    alloc: Global,
    repos: &'r [Repo],
    number: usize,
    count: usize,
    step: &PlanStep,
    added: Vec<Part>,
) -> Result<Prepared<'r>, AllocError>
    ensures parts { IfOk result (λ p. p.change.parts ≡ made_parts repos.now step.now ++ added.items) }
    ensures text { IfOk result (λ p. p.change.label ≡ step_label number count (coming_texts repos.now step.now)) }
    ensures label { IfOk result (λ p. IsLabel p.change.label) }
    ensures fetches { IfOk result (λ p. map wanted_of p.fetches.items ≡ wanted_in repos.now step.now) }
{
    let step = step.parts.as_slice();
    let label = Bytes::new(label_of(alloc, number, count, repos, step)?);
    let parts = parts_with(alloc, repos, step, added)?;
    let fetches = step_fetches(alloc, repos, step)?;
    Ok(Prepared {
        change: Change { parts, label },
        fetches,
    })
}

// Makes a step of a plan with what is added to it; or, where it isn't made, how the command ends, whatever it would have done behind it.
fn make_adding<S: Shelf, H: Host>(
    alloc: Global,
    shelf: &mut S,
    repos: &[Repo],
    number: usize,
    count: usize,
    step: &PlanStep,
    added: Vec<Part>,
    tree: Tree<H>,
) -> Result<Tree<H>, Acted<H>>
    requires change { (line : List ℕ) → IsLabel line → IsChange tree.db (made_parts repos.now step.now) line }
    requires listed { AreUnreserved repos.now step.now }
    requires added { AreOfBackups added.items }
    ensures made { IfOk result (FillsStep S.tells H.tells (S.seen shelf.old).repositories (wanted_in repos.now step.now)
        (made_parts repos.now step.now ++ added.items) (step_label number count (coming_texts repos.now step.now)) tree) }
    ensures acted { IfErr result (λ acted. (rest : Volume → Run) → Performs (S.tells && H.tells) H.seen
        (filling (S.seen shelf.old).repositories (wanted_in repos.now step.now) tree.db (made_parts repos.now step.now ++ added.items)
        (step_label number count (coming_texts repos.now step.now)) rest)
        0 tree.seen (beside_shelf (S.seen shelf.old).faults) (beside_shelf (S.seen shelf.new).faults) acted.ending acted.state) }
    ensures same { SameShelf (S.seen shelf.old) (S.seen shelf.new) }
    ensures later { (S.seen shelf.old).faults ≤ (S.seen shelf.new).faults }
{
    let Ok(prepared) = prepare(alloc, repos, number, count, step, added) else {
        return Err(give_up(Session::of_tree(tree)));
    };
    step_fetched(
        alloc,
        shelf,
        prepared.fetches.as_slice(),
        &prepared.change,
        tree,
    )
}

// Makes a step of a plan; or, where it isn't made, how the command ends, whatever it would have done behind it.
fn make<S: Shelf, H: Host>(
    alloc: Global,
    shelf: &mut S,
    repos: &[Repo],
    number: usize,
    count: usize,
    step: &PlanStep,
    tree: Tree<H>,
) -> Result<Tree<H>, Acted<H>>
    requires change { (line : List ℕ) → IsLabel line → IsChange tree.db (made_parts repos.now step.now) line }
    requires listed { AreUnreserved repos.now step.now }
    ensures made { IfOk result (CarriesOn (S.tells && H.tells) H.seen
        (coming_step (S.seen shelf.old).repositories repos.now number count step.now) tree) }
    ensures db { IfOk result (λ next. next.db ≡ entries_after (made_parts repos.now step.now) tree.db) }
    ensures acted { IfErr result (λ acted. (rest : List Object → Volume → Run) → Performs (S.tells && H.tells) H.seen
        (λ t. coming_step (S.seen shelf.old).repositories repos.now number count step.now rest tree.db t) 0 tree.seen
        (beside_shelf (S.seen shelf.old).faults) (beside_shelf (S.seen shelf.new).faults) acted.ending acted.state) }
    ensures same { SameShelf (S.seen shelf.old) (S.seen shelf.new) }
    ensures later { (S.seen shelf.old).faults ≤ (S.seen shelf.new).faults }
{
    tree.stands();
    let Ok(names) = left_in(alloc, repos, step.parts.as_slice()) else {
        return Err(give_up(Session::of_tree(tree)));
    };
    let mut tree = tree;
    match backups_in(alloc, &mut tree, &names) {
        Ok(added) => make_adding(alloc, shelf, repos, number, count, step, added, tree),
        Err(fault) => {
            let parts = step.parts.as_slice();
            Err(fault_ends_step(alloc, fault, repos, parts, tree))
        }
    }
}

// Makes the steps of a plan; or, where one of them isn't made, how the command ends, whatever it would have done behind them.
fn make_all<S: Shelf, H: Host>(
    alloc: Global,
    shelf: &mut S,
    repos: &[Repo],
    steps: &[PlanStep],
    tree: Tree<H>,
) -> Result<Tree<H>, Acted<H>>
    requires { AreChanges repos.now tree.db steps.now }
    ensures made { IfOk result (CarriesOn (S.tells && H.tells) H.seen
        (steps_run (S.seen shelf.old).repositories repos.now 1 (length steps.now) steps.now) tree) }
    ensures changes { IfOk result (λ last. HasChanges tree.db last.db (spoken_in repos.now steps.now)) }
    ensures acted { IfErr result (λ acted. (rest : List Object → Volume → Run) → Performs (S.tells && H.tells) H.seen
        (λ t. steps_run (S.seen shelf.old).repositories repos.now 1 (length steps.now) steps.now rest tree.db t) 0 tree.seen
        (beside_shelf (S.seen shelf.old).faults) (beside_shelf (S.seen shelf.new).faults) acted.ending acted.state) }
{
    let mut tree = tree;
    for (at, step) in steps.iter().enumerate() {
        tree = match make(alloc, shelf, repos, at + 1, steps.len(), step, tree) {
            Ok(next) => next,
            Err(acted) => return Err(acted),
        };
    }
    Ok(tree)
}

// Ends a command whose steps are made; `before` is the database before the first one, where the formats to be made anew are asked for.
fn end_steps<H: Host>(
    alloc: Global,
    before: Option<Db>,
    repos: &[Repo],
    steps: &[PlanStep],
    tree: Tree<H>,
) -> Acted<H>
    requires { IfSome before (λ old. HasChanges old tree.db (spoken_in repos.now steps.now)) }
    ensures { Performs H.tells H.seen (λ t. formats_end before tree.db t)
        0 tree.seen no_devices no_devices result.ending result.state }
{
    match spoken_in(alloc, repos, steps) {
        Ok(names) => end(alloc, before, &names, tree),
        Err(_) => give_up(Session::of_tree(tree)),
    }
}

/// Makes the steps of a plan, and ends with a command that was carried out; with `formats` it says the formats to be made anew.
///
/// At each step, in this order: `TooLarge` where the database that it would leave passes a limit; the refusals of the backups of what
/// leaves or is replaced, as `autobackup` says; those of each fetch in turn, as `fetch_into` says.
pub fn make_steps<S: Shelf, H: Host>(
    alloc: Global,
    shelf: &mut S,
    repos: &[Repo],
    steps: &[PlanStep],
    formats: bool,
    tree: Tree<H>,
) -> Acted<H>
    requires { AreChanges repos.now tree.db steps.now }
    ensures { Performs (S.tells && H.tells) H.seen (λ t. plan_made (S.seen shelf.old).repositories repos.now formats steps.now tree.db t)
        0 tree.seen (beside_shelf (S.seen shelf.old).faults) (beside_shelf (S.seen shelf.new).faults) result.ending result.state }
{
    let Ok(before) = before(alloc, formats, tree.db()) else {
        return give_up(Session::of_tree(tree));
    };
    match make_all(alloc, shelf, repos, steps, tree) {
        Ok(last) => end_steps(alloc, before, repos, steps, last),
        Err(acted) => acted,
    }
}
