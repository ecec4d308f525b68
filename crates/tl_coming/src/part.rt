//! What a plan is made of by which packages come.
ghost use Rattle.std.specs.Prelude.{◌≡◌, option_copied, IfOk};
ghost use Rattle.tl_coming.specs.Parts.{part_name, part_entry, entry_at};

use std::alloc::AllocError;
use std::marker::Model;
use tl_db::Repo;
use tl_object::Object;
use tl_path::Name;

/// A part of a plan by which packages come. A repository is told by its place among those that were given.
#[derive(Drop)]
pub enum PlanPart {
    /// The package comes from this repository.
    Install { name: Name, repo: u32 },
    /// The package comes from this repository in the place of the installed one.
    Update { name: Name, repo: u32 },
    /// The package leaves.
    Remove { name: Name },
}

/// What one step of such a plan does, in order. Contracts see the list.
#[derive(Drop)]
pub struct PlanStep {
    pub parts: Vec<PlanPart>,
}

impl Model for PlanStep {
    ghost use Rattle.std.specs.Prelude.{List};
    ghost use Rattle.tl_coming.specs.declared.part.PlanPart.{PlanPart};

    ghost Value = { List PlanPart };

    ghost view = { λ s. s.parts.items };
}

impl PlanPart {
    /// An equal part.
    pub fn copy(&self) -> Result<PlanPart, AllocError>
        ensures { IfOk result (λ copy. copy ≡ self.now) }
    {
        match self {
            PlanPart::Install { name, repo } => Ok(PlanPart::Install {
                name: name.clone()?,
                repo: *repo,
            }),
            PlanPart::Update { name, repo } => Ok(PlanPart::Update {
                name: name.clone()?,
                repo: *repo,
            }),
            PlanPart::Remove { name } => Ok(PlanPart::Remove {
                name: name.clone()?,
            }),
        }
    }

    /// The name of the package.
    pub fn name(&self) -> &Name
        ensures { result.now ≡ part_name self.now }
    {
        match self {
            PlanPart::Install { name, repo: _ } => name,
            PlanPart::Update { name, repo: _ } => name,
            PlanPart::Remove { name } => name,
        }
    }
}

// The entry with a name in the repository at a place.
fn entry_at<'r>(repos: &'r [Repo], place: u32, name: &Name) -> Option<&'r Object>
    ensures { option_copied result ≡ entry_at repos.now place name.now }
{
    match repos.get(place as usize) {
        Some(repo) => repo.db.get(name),
        None => None,
    }
}

/// The entry of the package that comes with a part; `None` where one leaves, or its repository isn't there or doesn't have it.
pub fn part_entry<'r>(repos: &'r [Repo], part: &PlanPart) -> Option<&'r Object>
    ensures { option_copied result ≡ part_entry repos.now part.now }
{
    match part {
        PlanPart::Install { name, repo } => entry_at(repos, *repo, name),
        PlanPart::Update { name, repo } => entry_at(repos, *repo, name),
        PlanPart::Remove { name: _ } => None,
    }
}
