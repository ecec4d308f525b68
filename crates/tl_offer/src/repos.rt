//! The repositories of a command, loaded in their order.
ghost use Rattle.std.specs.Prelude.{◌≡◌, ◌≤◌, ◌<◌, length, option_map, vec_len, IfOk, IfErr, MatchResult};
ghost use Rattle.tl_model.specs.Causes.{HasCauseOf, Rose};
ghost use Rattle.tl_model.specs.Devices.{SameShelf};
ghost use Rattle.tl_model.specs.Seen.{Told};
ghost use Rattle.tl_repo.specs.Faults.{fault_of, IsAbsent};
ghost use Rattle.tl_repo.specs.declared.error.RepoError.TheVariants.{ShelfFault as Fault};
ghost use Rattle.tl_offer.specs.Offered.{EndsUnloaded, IsUnloaded, repo_refusal, repos_of};

use std::alloc::Global;
use tl_action::Repository;
use tl_command::{Acted, Refusal, Session, give_up, refuse, stop_at_shelf};
use tl_host::{Host, Shelf};
use tl_path::Tag;
use tl_repo::{Repo, RepoError, load};
use tl_tree::Tree;

/// The first of some repositories that isn't loaded: its place among them, and why.
#[derive(Drop)]
pub(crate) struct Unloaded {
    pub(crate) place: usize,
    pub(crate) error: RepoError,
}

/// Loads repositories in their order, each under its place as its number; or names the first one that isn't loaded.
pub(crate) fn load_repos<S: Shelf>(
    alloc: Global,
    repositories: &[Repository],
    shelf: &mut S,
) -> Result<Vec<Repo>, Unloaded>
    requires { length repositories.now ≤ 16 }
    ensures read { Told S.tells (MatchResult result
        (λ repos. repos_of repositories.now (S.seen shelf.old).repositories ≡ Ok repos.items)
        (λ unloaded. IsUnloaded repositories.now (S.seen shelf.old).repositories unloaded.place unloaded.error)) }
    ensures count { IfOk result (λ repos. vec_len repos ≡ length repositories.now) }
    ensures place { IfErr result (λ unloaded. unloaded.place < length repositories.now) }
    ensures same { SameShelf (S.seen shelf.old) (S.seen shelf.new) }
    ensures cause { HasCauseOf (λ unloaded. unloaded.error ≡ Fault) (S.seen shelf.old).faults (S.seen shelf.new).faults result }
    ensures absent { IfErr result (λ unloaded. IsAbsent unloaded.error → Rose (S.seen shelf.old).absences (S.seen shelf.new).absences) }
{
    let mut repos = Vec::new(alloc);
    for (place, repository) in repositories.iter().enumerate() {
        match load(alloc, shelf, place as u32, &repository.tag) {
            Ok(repo) => {
                if repos.push(repo).is_err() {
                    let error = RepoError::NoMemory;
                    return Err(Unloaded { place, error });
                }
            }
            Err(error) => return Err(Unloaded { place, error }),
        }
    }
    Ok(repos)
}

// The refusal of a repository with a tag that isn't loaded; `None` for a fault of the device and for want of memory.
fn refusal_of(repo: Tag, error: RepoError) -> Option<Refusal>
    ensures { result ≡ option_map (repo_refusal repo) (fault_of error) }
{
    match error {
        RepoError::Absent { name } => Some(Refusal::Absent { repo, name }),
        RepoError::BadDigestLine => Some(Refusal::BadDigestLine { repo }),
        RepoError::RepoDigest { want, got } => Some(Refusal::RepoDigest { repo, want, got }),
        RepoError::RepoDatabase { line, kind } => {
            Some(Refusal::RepoDatabase { repo, line, kind })
        }
        RepoError::TooLarge { what, limit } => Some(Refusal::TooLarge { what, limit }),
        RepoError::ShelfFault | RepoError::NoMemory => None,
    }
}

// Refuses under a repository with a tag that isn't loaded, or gives up.
fn refuse_unloaded<H: Host>(
    alloc: Global,
    tag: &Tag,
    error: RepoError,
    session: Session<H>,
) -> Acted<H>
    ensures { EndsUnloaded H.tells H.seen tag.now error session result.ending result.state }
{
    let Ok(repo) = tag.clone() else {
        return give_up(session);
    };
    match refusal_of(repo, error) {
        Some(refusal) => refuse(alloc, refusal, session),
        None => give_up(session),
    }
}

/// Ends a command at a repository with a tag that isn't loaded.
pub(crate) fn end_unloaded<H: Host>(
    alloc: Global,
    tag: &Tag,
    error: RepoError,
    tree: Tree<H>,
) -> Acted<H>
    ensures { EndsUnloaded H.tells H.seen tag.now error tree.seen result.ending result.state }
{
    let session = Session::of_tree(tree);
    match error {
        RepoError::ShelfFault => stop_at_shelf(session),
        other => refuse_unloaded(alloc, tag, other, session),
    }
}
