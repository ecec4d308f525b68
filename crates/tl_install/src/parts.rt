//! What a step of a plan by which packages come does to the tree.
ghost use Rattle.std.specs.Prelude.{◌≡◌, ◌++◌, IfOk, OnOk, option_copied};
ghost use Rattle.tl_coming.specs.Made.{made_by, made_parts, stream_of};

use std::alloc::{AllocError, Global};
use tl_coming::{PlanPart, part_entry};
use tl_db::Repo;
use tl_object::Object;
use tl_tree::{Part, PartList};

// Adds what brings an entry, if there is one, with files whose bytes come later.
fn push_stream(alloc: Global, found: Option<&Object>, out: &mut Vec<Part>) -> Result<(), AllocError>
    ensures { OnOk result (out.new.items ≡ out.old.items ++ stream_of (option_copied found.entry)) }
{
    if let Some(entry) = found {
        let entry = entry.less_containers(alloc)?;
        out.push(Part::Stream { entry })?;
    }
    Ok(())
}

// Adds what a part of a plan does.
fn push_part(
    alloc: Global,
    repos: &[Repo],
    part: &PlanPart,
    out: &mut Vec<Part>,
) -> Result<(), AllocError>
    ensures { OnOk result (out.new.items ≡ out.old.items ++ made_by repos.now part.now) }
{
    match part {
        PlanPart::Install { .. } | PlanPart::Update { .. } => {
            push_stream(alloc, part_entry(repos, part), out)
        }
        PlanPart::Remove { name } => {
            let name = name.clone()?;
            out.push(Part::Remove { name })?;
            Ok(())
        }
    }
}

// What a step of a plan does to the tree.
fn parts_of(alloc: Global, repos: &[Repo], step: &[PlanPart]) -> Result<Vec<Part>, AllocError>
    ensures { IfOk result (λ parts. parts.items ≡ made_parts repos.now step.now) }
{
    let mut parts = Vec::with_capacity(alloc, step.len())?;
    for part in step {
        push_part(alloc, repos, part, &mut parts)?;
    }
    Ok(parts)
}

/// What a step of a plan does to the tree, with what is added to it.
pub(crate) fn parts_with(
    alloc: Global,
    repos: &[Repo],
    step: &[PlanPart],
    added: Vec<Part>,
) -> Result<PartList, AllocError>
    ensures { IfOk result (λ parts. parts ≡ made_parts repos.now step.now ++ added.items) }
{
    let mut parts = parts_of(alloc, repos, step)?;
    let mut added = added;
    parts.append(&mut added)?;
    Ok(PartList::new(parts))
}
