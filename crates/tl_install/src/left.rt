//! The packages of which the steps of a plan speak, and what is backed up of those that leave or are replaced.
ghost use Rattle.std.specs.Prelude.{◌≡◌, ◌++◌, [], IfOk, IfErr, OnOk, option_copied};
ghost use Rattle.std.specs.List.{IsDistinct};
ghost use Rattle.tl_model.specs.Seen.{Told};
ghost use Rattle.tl_model.specs.Volume.{same_name};
ghost use Rattle.tl_tree.specs.Conditions.{spoken_names};
ghost use Rattle.tl_backup.specs.Asked.{Answers, IsAsked, IsCausedBy, tree_in};
ghost use Rattle.tl_backup.specs.Form.{AreOfBackups};
ghost use Rattle.tl_coming.specs.Made.{made_by, made_parts, stream_of};
ghost use Rattle.tl_install.specs.Left.{backups_in, left_in, name_left, spoken_in};

use std::alloc::{AllocError, Global};
use tl_backup::{BackupError, autobackup};
use tl_coming::{PlanPart, PlanStep, part_entry};
use tl_db::Repo;
use tl_host::Host;
use tl_object::Object;
use tl_path::Name;
use tl_tree::{Part, Tree};

// Adds the name of an entry, if there is one.
fn push_name(found: Option<&Object>, names: &mut Vec<Name>) -> Result<(), AllocError>
    ensures { OnOk result (names.new.items ≡ names.old.items ++ spoken_names (stream_of (option_copied found.entry))) }
{
    if let Some(entry) = found {
        names.push(entry.name.clone()?)?;
    }
    Ok(())
}

// Adds the name of the package of which a part of a plan speaks.
fn push_spoken(repos: &[Repo], part: &PlanPart, names: &mut Vec<Name>) -> Result<(), AllocError>
    ensures { OnOk result (names.new.items ≡ names.old.items ++ spoken_names (made_by repos.now part.now)) }
{
    match part {
        PlanPart::Install { .. } | PlanPart::Update { .. } => {
            push_name(part_entry(repos, part), names)
        }
        PlanPart::Remove { name } => {
            names.push(name.clone()?)?;
            Ok(())
        }
    }
}

// Adds the name of the package that leaves or is replaced with a part of a plan.
fn push_left(repos: &[Repo], part: &PlanPart, names: &mut Vec<Name>) -> Result<(), AllocError>
    ensures { OnOk result (names.new.items ≡ names.old.items ++ name_left repos.now part.now) }
{
    match part {
        PlanPart::Install { .. } => Ok(()),
        PlanPart::Update { .. } | PlanPart::Remove { .. } => push_spoken(repos, part, names),
    }
}

/// The names of the packages that leave or are replaced in a step of a plan.
pub(crate) fn left_in(
    alloc: Global,
    repos: &[Repo],
    step: &[PlanPart],
) -> Result<Vec<Name>, AllocError>
    ensures { IfOk result (λ names. names.items ≡ left_in repos.now step.now) }
{
    let mut names = Vec::new(alloc);
    for part in step {
        push_left(repos, part, &mut names)?;
    }
    Ok(names)
}

// Adds the names of the packages of which a step of a plan speaks.
fn push_step(repos: &[Repo], step: &[PlanPart], names: &mut Vec<Name>) -> Result<(), AllocError>
    ensures { OnOk result (names.new.items ≡ names.old.items ++ spoken_names (made_parts repos.now step.now)) }
{
    for part in step {
        push_spoken(repos, part, names)?;
    }
    Ok(())
}

/// The names of the packages that come, leave or are replaced in some steps of a plan.
pub(crate) fn spoken_in(
    alloc: Global,
    repos: &[Repo],
    steps: &[PlanStep],
) -> Result<Vec<Name>, AllocError>
    ensures { IfOk result (λ names. names.items ≡ spoken_in repos.now steps.now) }
{
    let mut names = Vec::new(alloc);
    for step in steps {
        push_step(repos, step.parts.as_slice(), &mut names)?;
    }
    Ok(names)
}

/// What a step adds for the packages that leave or are replaced in it, as `autobackup` says; nothing where there is none. A step that only
/// installs doesn't ask the tree.
pub(crate) fn backups_in<H: Host>(
    alloc: Global,
    tree: &mut Tree<H>,
    names: &[Name],
) -> Result<Vec<Part>, BackupError>
    requires { IsDistinct same_name names.now }
    ensures parts { Told H.tells (Answers (λ parts. parts.items) result (backups_in names.now tree.old.db (tree_in tree.old))) }
    ensures form { IfOk result (λ parts. AreOfBackups parts.items) }
    ensures some { IfErr result (λ _. names.now ≡ [] → ⊥) }
    ensures asked { IsAsked H.tells tree.old tree.new }
    ensures cause { IfErr result (IsCausedBy tree.old tree.new) }
{
    if names.is_empty() {
        return Ok(Vec::new(alloc));
    }
    autobackup(alloc, tree, names)
}
