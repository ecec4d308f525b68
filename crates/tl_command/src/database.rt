//! What a command begins with: the tree, or the text of its database.
ghost use Rattle.std.specs.Prelude.{◌≡◌, List, IfOk, IfErr};
ghost use Rattle.tl_model.specs.Volume.{Volume};
ghost use Rattle.tl_entry.specs.declared.object.Object.{Object};
ghost use Rattle.tl_tree.specs.Planted.{database_text};
ghost use Rattle.tl_command.specs.Endings.{no_devices};
ghost use Rattle.tl_command.specs.Loaded.{Loads, Rewrites};
ghost use Rattle.tl_command.specs.Performs.{Performs};
ghost use Rattle.tl_command.specs.Runs.{Run, over_database};

use crate::acted::Acted;
use crate::closing::{give_up, give_up_spent, refuse, refuse_spent};
use crate::ending::Ending;
use crate::session::{Held, Session};
use std::alloc::Global;
use tl_host::Host;
use tl_journal::{Clean, Lost};
use tl_refusal::Refusal;
use tl_tree::{Tree, TreeError};

/// The tree of a session, which is loaded unless it is held; or how a command over its database ends, where that doesn't read.
pub fn load<H: Host>(alloc: Global, session: Session<H>) -> Result<Tree<H>, Acted<H>>
    ensures loaded { IfOk result (λ tree. Loads H.tells session tree) }
    ensures acted { IfErr result (λ acted. (go : Volume → List Object → Run) → Performs H.tells H.seen
        (λ tree. over_database (go tree) (database_text tree)) 0 session no_devices no_devices acted.ending acted.state) }
{
    match session.into_held() {
        Held::Rest(journal) => load_at_rest(alloc, journal),
        Held::Loaded(tree) => {
            tree.stands();
            Ok(tree)
        }
    }
}

// The tree of a volume at rest.
fn load_at_rest<H: Host>(alloc: Global, journal: Clean<H>) -> Result<Tree<H>, Acted<H>>
    ensures loaded { IfOk result (λ tree. Loads H.tells journal tree) }
    ensures acted { IfErr result (λ acted. (go : Volume → List Object → Run) → Performs H.tells H.seen
        (λ tree. over_database (go tree) (database_text tree)) 0 journal no_devices no_devices acted.ending acted.state) }
{
    journal.stands();
    match Tree::load(alloc, journal) {
        Ok(tree) => Ok(tree),
        Err(Lost { host, fault }) => match fault {
            TreeError::HostFault => Err(Acted {
                ending: Ending::HostFault,
                state: Err(host),
            }),
            TreeError::NoMemory => Err(give_up_spent(host)),
            TreeError::BadDatabase { line, kind } => {
                Err(refuse_spent(alloc, Refusal::BadDatabase { line, kind }, host))
            }
            TreeError::TooLarge { what, limit } => {
                Err(refuse_spent(alloc, Refusal::TooLarge { what, limit }, host))
            }
        },
    }
}

/// The text of the database of a session in canonical form; or how a command over the database ends, where that doesn't read. A
/// database that is in this form already takes little more memory than its text.
pub fn canonical_database<H: Host>(
    alloc: Global,
    session: Session<H>,
) -> Result<(Vec<u8>, Session<H>), Acted<H>>
    ensures text { IfOk result (λ found. Rewrites H.tells session found.1 found.0.items) }
    ensures acted { IfErr result (λ acted. (go : Volume → List Object → Run) → Performs H.tells H.seen
        (λ tree. over_database (go tree) (database_text tree)) 0 session no_devices no_devices acted.ending acted.state) }
{
    let mut journal = session.into_journal();
    journal.stands();
    match tl_tree::canonical_database(alloc, &mut journal) {
        Ok(text) => Ok((text, Session::of_journal(journal))),
        Err(TreeError::HostFault) => Err(Acted {
            ending: Ending::HostFault,
            state: Err(journal.into_host()),
        }),
        Err(TreeError::NoMemory) => Err(give_up(Session::of_journal(journal))),
        Err(TreeError::BadDatabase { line, kind }) => {
            let refusal = Refusal::BadDatabase { line, kind };
            Err(refuse(alloc, refusal, Session::of_journal(journal)))
        }
        Err(TreeError::TooLarge { what, limit }) => {
            let refusal = Refusal::TooLarge { what, limit };
            Err(refuse(alloc, refusal, Session::of_journal(journal)))
        }
    }
}
