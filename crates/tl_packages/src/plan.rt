//! The steps of a plan, made one after the other.
ghost use Rattle.std.specs.Prelude.{◌≡◌, ◌++◌, codes, List, All, IfOk, IfErr, IfSome, OnOk, string_bytes};
ghost use Rattle.std.specs.List.{flat_map};
ghost use Rattle.tl_model.specs.Acks.{IsLabel};
ghost use Rattle.tl_model.specs.Lines.{IsLine};
ghost use Rattle.tl_model.specs.Volume.{Volume};
ghost use Rattle.tl_entry.specs.declared.object.Object.{Object};
ghost use Rattle.tl_backup.specs.Form.{AreOfBackups};
ghost use Rattle.tl_command.specs.Endings.{no_devices};
ghost use Rattle.tl_command.specs.Labels.{step_label};
ghost use Rattle.tl_command.specs.Loaded.{Steps};
ghost use Rattle.tl_command.specs.Performs.{Performs};
ghost use Rattle.tl_command.specs.Runs.{Run, stepping};
ghost use Rattle.tl_trigger.specs.Stale.{HasChanges};
ghost use Rattle.tl_tree.specs.Changes.{entries_after};
ghost use Rattle.tl_formats.specs.Ending.{formats_end};
ghost use Rattle.tl_backups.specs.Continuing.{Continues};
ghost use Rattle.tl_packages.specs.Remove.{change_text, changes_text, RemovesOne, left_in_all, part_of, parts_of};
ghost use Rattle.tl_packages.specs.Remove.{plan_made, plan_step, each_step_run};

use crate::added::{fault_ends_step, left_in};
use std::alloc::{AllocError, Global};
use tl_backup::autobackup;
use tl_command::{Acted, Session, give_up, step, step_label};
use tl_db::Db;
use tl_file::Bytes;
use tl_formats::{before, end};
use tl_host::Host;
use tl_path::Name;
use tl_plan::{Planned, PlannedStep};
use tl_tree::{Change, Part, PartList, Tree};

// Adds what a part of a plan is called.
fn push_change(text: &mut String, part: &Planned) -> Result<(), AllocError>
    ensures text { OnOk result (string_bytes text.new ≡ string_bytes text.old ++ change_text part.now) }
    ensures line { OnOk result (IsLine (change_text part.now)) }
{
    match part {
        Planned::Remove { name } => {
            text.push_str("remove ")?;
            text.push_str(name.text())
        }
    }
}

// Adds what further parts of a plan are called, each behind a comma and a space.
fn push_more(text: &mut String, more: &[Planned]) -> Result<(), AllocError>
    requires { IsLine (string_bytes text.old) }
    ensures text { OnOk result (string_bytes text.new
        ≡ string_bytes text.old ++ flat_map (λ next. codes ", " ++ change_text next) more.now) }
    ensures line { OnOk result (IsLine (string_bytes text.new)) }
{
    for part in more {
        text.push_str(", ")?;
        push_change(text, part)?;
    }
    Ok(())
}

// What a step of a plan is called.
fn changes_text(alloc: Global, step: &[Planned]) -> Result<String, AllocError>
    ensures text { IfOk result (λ text. string_bytes text ≡ changes_text step.now) }
    ensures line { IfOk result (λ text. IsLine (string_bytes text)) }
{
    let mut text = String::new(alloc);
    if let Some((first, more)) = step.split_first() {
        push_change(&mut text, first)?;
        push_more(&mut text, more)?;
    }
    Ok(text)
}

// The line that acknowledges a step of a plan.
fn label_of(
    alloc: Global,
    number: usize,
    count: usize,
    planned: &PlannedStep,
) -> Result<Vec<u8>, AllocError>
    ensures text { IfOk result (λ label. label.items ≡ step_label number count (changes_text planned.now)) }
    ensures label { IfOk result (λ label. IsLabel label.items) }
{
    let what = changes_text(alloc, planned.changes.as_slice())?;
    step_label(alloc, number, count, what.as_str())
}

// What a part of a plan does to the tree.
fn part_of(part: &Planned) -> Result<Part, AllocError>
    ensures { IfOk result (λ made. made ≡ part_of part.now) }
{
    match part {
        Planned::Remove { name } => Ok(Part::Remove {
            name: name.clone()?,
        }),
    }
}

fn parts_of(alloc: Global, step: &[Planned]) -> Result<Vec<Part>, AllocError>
    ensures { IfOk result (λ parts. parts.items ≡ parts_of step.now) }
{
    let mut parts = Vec::with_capacity(alloc, step.len())?;
    for part in step {
        parts.push(part_of(part)?)?;
    }
    Ok(parts)
}

// What a step of a plan does to the tree, with what is added to it.
fn parts_with(alloc: Global, step: &[Planned], added: Vec<Part>) -> Result<PartList, AllocError>
    ensures { IfOk result (λ parts. parts ≡ parts_of step.now ++ added.items) }
{
    let mut parts = parts_of(alloc, step)?;
    let mut added = added;
    parts.append(&mut added)?;
    Ok(PartList::new(parts))
}

// The change of a step of a plan, with what is added to it.
fn change_of(
    alloc: Global,
    number: usize,
    count: usize,
    planned: &PlannedStep,
    added: Vec<Part>,
) -> Result<Change, AllocError>
    ensures parts { IfOk result (λ change. change.parts ≡ parts_of planned.now ++ added.items) }
    ensures text { IfOk result (λ change. change.label ≡ step_label number count (changes_text planned.now)) }
    ensures label { IfOk result (λ change. IsLabel change.label) }
{
    let label = Bytes::new(label_of(alloc, number, count, planned)?);
    let parts = parts_with(alloc, planned.changes.as_slice(), added)?;
    Ok(Change { parts, label })
}

// Makes a step of a plan with what is added to it; or, where it isn't made, how the command ends, whatever it would have done behind it.
fn make_adding<H: Host>(
    alloc: Global,
    number: usize,
    count: usize,
    planned: &PlannedStep,
    added: Vec<Part>,
    tree: Tree<H>,
) -> Result<Tree<H>, Acted<H>>
    requires one { RemovesOne planned.now }
    requires added { AreOfBackups added.items }
    ensures made { IfOk result (λ next. Steps H.tells (parts_of planned.now ++ added.items)
        (step_label number count (changes_text planned.now)) tree next) }
    ensures acted { IfErr result (λ acted. (rest : Volume → Run) → Performs H.tells H.seen
        (λ t. stepping tree.db (parts_of planned.now ++ added.items) (step_label number count (changes_text planned.now))
        (rest t) t) 0 tree.seen no_devices no_devices acted.ending acted.state) }
{
    let Ok(change) = change_of(alloc, number, count, planned, added) else {
        return Err(give_up(Session::of_tree(tree)));
    };
    step(alloc, &change, tree)
}

// Makes a step of a plan; or, where it isn't made, how the command ends, whatever it would have done behind it.
fn make<H: Host>(
    alloc: Global,
    number: usize,
    count: usize,
    planned: &PlannedStep,
    tree: Tree<H>,
) -> Result<Tree<H>, Acted<H>>
    requires { RemovesOne planned.now }
    ensures made { IfOk result (λ next. Continues H.tells H.seen (plan_step count (number, planned.now)) tree next) }
    ensures db { IfOk result (λ next. next.db ≡ entries_after (parts_of planned.now) tree.db) }
    ensures acted { IfErr result (λ acted. (rest : List Object → Volume → Run) → Performs H.tells H.seen
        (λ t. plan_step count (number, planned.now) rest tree.db t) 0 tree.seen no_devices no_devices acted.ending acted.state) }
{
    tree.stands();
    let Ok(names) = left_in(alloc, planned) else {
        return Err(give_up(Session::of_tree(tree)));
    };
    let mut tree = tree;
    match autobackup(alloc, &mut tree, &names) {
        Ok(added) => make_adding(alloc, number, count, planned, added, tree),
        Err(fault) => Err(fault_ends_step(alloc, fault, planned, tree)),
    }
}

// Makes the steps of a plan; or, where one of them isn't made, how the command ends, whatever it would have done behind them.
fn make_all<H: Host>(
    alloc: Global,
    steps: &[PlannedStep],
    tree: Tree<H>,
) -> Result<Tree<H>, Acted<H>>
    requires { All RemovesOne steps.now }
    ensures made { IfOk result (λ last. Continues H.tells H.seen (each_step_run steps.now) tree last) }
    ensures changes { IfOk result (λ last. HasChanges tree.db last.db (left_in_all steps.now)) }
    ensures acted { IfErr result (λ acted. (rest : List Object → Volume → Run) → Performs H.tells H.seen
        (λ t. each_step_run steps.now rest tree.db t) 0 tree.seen no_devices no_devices acted.ending acted.state) }
{
    let mut tree = tree;
    for (at, planned) in steps.iter().enumerate() {
        tree = match make(alloc, at + 1, steps.len(), planned, tree) {
            Ok(next) => next,
            Err(acted) => return Err(acted),
        };
    }
    Ok(tree)
}

// The names of the packages that leave or are replaced in some steps.
fn left_in_all(alloc: Global, steps: &[PlannedStep]) -> Result<Vec<Name>, AllocError>
    ensures { IfOk result (λ names. names.items ≡ left_in_all steps.now) }
{
    let mut names = Vec::new(alloc);
    for planned in steps {
        let mut left = left_in(alloc, planned)?;
        names.append(&mut left)?;
    }
    Ok(names)
}

// Ends a command whose steps are made; `before` is the database before the first one, where the formats to be made anew are asked for.
fn end_steps<H: Host>(
    alloc: Global,
    before: Option<Db>,
    steps: &[PlannedStep],
    tree: Tree<H>,
) -> Acted<H>
    requires { IfSome before (λ old. HasChanges old tree.db (left_in_all steps.now)) }
    ensures { Performs H.tells H.seen (λ t. formats_end before tree.db t)
        0 tree.seen no_devices no_devices result.ending result.state }
{
    match left_in_all(alloc, steps) {
        Ok(names) => end(alloc, before, &names, tree),
        Err(_) => give_up(Session::of_tree(tree)),
    }
}

/// Makes the steps of a plan, and ends with a command that was carried out; with `formats` it says the formats to be made anew.
pub fn make_steps<H: Host>(
    alloc: Global,
    steps: &[PlannedStep],
    formats: bool,
    tree: Tree<H>,
) -> Acted<H>
    requires { All RemovesOne steps.now }
    ensures { Performs H.tells H.seen (λ t. plan_made formats steps.now tree.db t)
        0 tree.seen no_devices no_devices result.ending result.state }
{
    let Ok(before) = before(alloc, formats, tree.db()) else {
        return give_up(Session::of_tree(tree));
    };
    match make_all(alloc, steps, tree) {
        Ok(last) => end_steps(alloc, before, steps, last),
        Err(acted) => acted,
    }
}
