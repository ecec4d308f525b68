//! The line that acknowledges a step of a plan by which packages come.
ghost use Rattle.std.specs.Prelude.{◌≡◌, ◌++◌, codes, IfOk, OnOk, option_copied, string_bytes};
ghost use Rattle.std.specs.List.{flat_map};
ghost use Rattle.tl_model.specs.Acks.{IsLabel};
ghost use Rattle.tl_model.specs.Lines.{IsLine};
ghost use Rattle.tl_command.specs.Labels.{step_label};
ghost use Rattle.tl_install.specs.Labels.{coming_text, coming_texts, revision_text, verb_of};

use std::alloc::{AllocError, Global};
use tl_coming::{PlanPart, part_entry};
use tl_command::step_label;
use tl_db::Repo;
use tl_object::Object;

// What is said of an entry's revision.
fn revision_text(alloc: Global, found: Option<&Object>) -> Result<String, AllocError>
    ensures { IfOk result (λ text. string_bytes text ≡ revision_text (option_copied found.entry)) }
{
    match found {
        Some(entry) => {
            let revision = entry.revision;
            format!(in alloc; " r{revision}")
        }
        None => Ok(String::new(alloc)),
    }
}

// What a part of a plan does to its package.
fn verb_of(part: &PlanPart) -> &'static str
    ensures { result.now ≡ verb_of part.now }
{
    match part {
        PlanPart::Install { .. } => "install",
        PlanPart::Update { .. } => "update",
        PlanPart::Remove { .. } => "remove",
    }
}

// What a part of a plan is called.
fn part_text(alloc: Global, repos: &[Repo], part: &PlanPart) -> Result<String, AllocError>
    ensures text { IfOk result (λ text. string_bytes text ≡ coming_text repos.now part.now) }
    ensures line { IfOk result (λ text. IsLine (string_bytes text)) }
{
    let verb = verb_of(part);
    let name = part.name().text();
    let revision = revision_text(alloc, part_entry(repos, part))?;
    format!(in alloc; "{verb} {name}{revision}")
}

// Adds what further parts of a plan are called, each behind a comma and a space.
fn push_more(
    alloc: Global,
    text: &mut String,
    repos: &[Repo],
    more: &[PlanPart],
) -> Result<(), AllocError>
    requires { IsLine (string_bytes text.old) }
    ensures text { OnOk result (string_bytes text.new
        ≡ string_bytes text.old ++ flat_map (λ next. codes ", " ++ coming_text repos.now next) more.now) }
    ensures line { OnOk result (IsLine (string_bytes text.new)) }
{
    for part in more {
        let next = part_text(alloc, repos, part)?;
        text.push_str(", ")?;
        text.push_str(next.as_str())?;
    }
    Ok(())
}

// What a step of a plan is called.
fn step_text(alloc: Global, repos: &[Repo], step: &[PlanPart]) -> Result<String, AllocError>
    ensures text { IfOk result (λ text. string_bytes text ≡ coming_texts repos.now step.now) }
    ensures line { IfOk result (λ text. IsLine (string_bytes text)) }
{
    match step.split_first() {
        Some((first, more)) => {
            let mut text = part_text(alloc, repos, first)?;
            push_more(alloc, &mut text, repos, more)?;
            Ok(text)
        }
        None => Ok(String::new(alloc)),
    }
}

/// The line that acknowledges a step of a plan: the packages that come, with their revisions, and those that leave.
pub(crate) fn label_of(
    alloc: Global,
    number: usize,
    count: usize,
    repos: &[Repo],
    step: &[PlanPart],
) -> Result<Vec<u8>, AllocError>
    ensures text { IfOk result (λ label. label.items ≡ step_label number count (coming_texts repos.now step.now)) }
    ensures label { IfOk result (λ label. IsLabel label.items) }
{
    let what = step_text(alloc, repos, step)?;
    step_label(alloc, number, count, what.as_str())
}
