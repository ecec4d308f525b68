//! How a command over repositories begins, and how it says what it found.
ghost use Rattle.std.specs.Prelude.{◌≡◌, ◌&&◌, ℕ, List, Option, Some, IfOk, IfErr};
ghost use Rattle.tl_model.specs.Acks.{IsPlain};
ghost use Rattle.tl_model.specs.Volume.{Volume};
ghost use Rattle.tl_entry.specs.declared.object.Object.{Object};
ghost use Rattle.tl_db.specs.declared.repo.Repo.{Repo};
ghost use Rattle.tl_pin.specs.declared.line.PinLine.{PinLine};
ghost use Rattle.tl_command.specs.Endings.{no_devices};
ghost use Rattle.tl_command.specs.Performs.{Performs};
ghost use Rattle.tl_command.specs.Runs.{Run};
ghost use Rattle.tl_offer.specs.Offered.{counted_faults};
ghost use Rattle.tl_report.specs.Offers.{IsUnreported};
ghost use Rattle.tl_show.specs.Opening.{Opens, over_offer, told_run};

use std::alloc::Global;
use tl_action::Repository;
use tl_command::{Acted, Refusal, Session, give_up, load, refuse, say};
use tl_host::{Host, Shelf};
use tl_offer::{Offer, load_offer};
use tl_path::Name;
use tl_report::ReportError;
use tl_tree::Tree;

/// The tree of a session, its pins and the repositories of a command; or how the command ends, where they don't read: the database is
/// looked at first, then the pins, then each repository in turn.
pub(crate) fn open<H: Host, S: Shelf>(
    alloc: Global,
    repositories: &[Repository],
    shelf: &mut S,
    session: Session<H>,
) -> Result<(Offer, Tree<H>), Acted<H>>
    ensures opened { IfOk result (λ found. Opens S.tells H.tells repositories.now (S.seen shelf.old).repositories
        session found.1 found.0.pins found.0.repos.items) }
    ensures acted { IfErr result (λ acted. (go : Volume → List Object → List PinLine → List Repo → Run) →
        Performs (S.tells && H.tells) H.seen (λ tree. over_offer repositories.now (S.seen shelf.old).repositories (go tree) tree) 0 session
        (counted_faults (S.seen shelf.old).faults) (counted_faults (S.seen shelf.new).faults) acted.ending acted.state) }
{
    match load(alloc, session) {
        Ok(tree) => load_offer(alloc, repositories, shelf, tree),
        Err(acted) => Err(acted),
    }
}

// Says that a package is unknown, or gives up.
fn tell_nothing<H: Host>(
    alloc: Global,
    name: Name,
    error: ReportError,
    session: Session<H>,
) -> Acted<H>
    ensures { (said : Option (List ℕ)) → IsUnreported said error →
        Performs H.tells H.seen (λ _. told_run name said) 0 session no_devices no_devices result.ending result.state }
{
    match error {
        ReportError::UnknownPackage => refuse(alloc, Refusal::UnknownPackage { name }, session),
        _ => give_up(session),
    }
}

/// Says the text of a report on a package, or that it is unknown.
pub(crate) fn tell<H: Host>(
    alloc: Global,
    name: Name,
    report: Result<Vec<u8>, ReportError>,
    tree: Tree<H>,
) -> Acted<H>
    requires { IfOk report (λ text. IsPlain text.items) }
    ensures { (said : Option (List ℕ)) → IfOk report (λ text. said ≡ Some text.items) → IfErr report (IsUnreported said) →
        Performs H.tells H.seen (λ _. told_run name said) 0 tree.seen no_devices no_devices result.ending result.state }
{
    let session = Session::of_tree(tree);
    match report {
        Ok(text) => say(&text, session),
        Err(error) => tell_nothing(alloc, name, error, session),
    }
}
