//! The containers that a step of a plan fetches.
ghost use Rattle.std.specs.Prelude.{◌≡◌, ◌++◌, map, IfOk, OnOk, option_copied, slice_get};
ghost use Rattle.tl_fill.specs.Wanted.{wanted_of};
ghost use Rattle.tl_install.specs.Fetched.{entry_wanted, package_wanted, repo_wanted, wanted_by, wanted_in};

use std::alloc::{AllocError, Global};
use tl_coming::PlanPart;
use tl_db::Repo;
use tl_fetch::ContainerPart;
use tl_fill::Fetch;
use tl_object::Object;
use tl_path::Name;

// Adds the containers of a package.
fn push_package<'r>(
    repo: &'r Repo,
    entry: &'r Object,
    out: &mut Vec<Fetch<'r>>,
) -> Result<(), AllocError>
    ensures { OnOk result (map wanted_of out.new.items ≡ map wanted_of out.old.items ++ package_wanted repo.now entry.now) }
{
    let part = ContainerPart::Run;
    out.push(Fetch { repo, entry, part })?;
    if !entry.doc.files.as_slice().is_empty() {
        let part = ContainerPart::Doc;
        out.push(Fetch { repo, entry, part })?;
    }
    if !entry.src.paths.is_empty() {
        let part = ContainerPart::Src;
        out.push(Fetch { repo, entry, part })?;
    }
    Ok(())
}

// Adds the containers of an entry of a repository, if there is one.
fn push_entry<'r>(
    repo: &'r Repo,
    found: Option<&'r Object>,
    out: &mut Vec<Fetch<'r>>,
) -> Result<(), AllocError>
    ensures { OnOk result (map wanted_of out.new.items ≡ map wanted_of out.old.items ++ entry_wanted repo.now (option_copied found.entry)) }
{
    match found {
        Some(entry) => push_package(repo, entry, out),
        None => Ok(()),
    }
}

// Adds the containers of the package with a name of a repository, if there is one.
fn push_found<'r>(
    found: Option<&'r Repo>,
    name: &Name,
    out: &mut Vec<Fetch<'r>>,
) -> Result<(), AllocError>
    ensures { OnOk result (map wanted_of out.new.items ≡ map wanted_of out.old.items ++ repo_wanted name.now (option_copied found.entry)) }
{
    match found {
        Some(repo) => push_entry(repo, repo.db.get(name), out),
        None => Ok(()),
    }
}

// The repository at a place.
fn repo_at<'r>(repos: &'r [Repo], place: u32) -> Option<&'r Repo>
    ensures { option_copied result ≡ slice_get repos.now place }
{
    repos.get(place as usize)
}

// Adds the containers of the package that comes with a part of a plan.
fn push_fetches<'r>(
    repos: &'r [Repo],
    part: &PlanPart,
    out: &mut Vec<Fetch<'r>>,
) -> Result<(), AllocError>
    ensures { OnOk result (map wanted_of out.new.items ≡ map wanted_of out.old.items ++ wanted_by repos.now part.now) }
{
    match part {
        PlanPart::Install { name, repo } => push_found(repo_at(repos, *repo), name, out),
        PlanPart::Update { name, repo } => push_found(repo_at(repos, *repo), name, out),
        PlanPart::Remove { name: _ } => Ok(()),
    }
}

/// The containers that a step of a plan fetches, package after package: that of the files that it runs on, and those of its documentation
/// and its sources where it has such files.
pub(crate) fn step_fetches<'r>(
    alloc: Global,
    repos: &'r [Repo],
    step: &[PlanPart],
) -> Result<Vec<Fetch<'r>>, AllocError>
    ensures { IfOk result (λ fetches. map wanted_of fetches.items ≡ wanted_in repos.now step.now) }
{
    let mut fetches = Vec::new(alloc);
    for part in step {
        push_fetches(repos, part, &mut fetches)?;
    }
    Ok(fetches)
}
