//! What a command reads of its tree beside the database.
ghost use Rattle.std.specs.Prelude.{◌≡◌, List, ℕ, Option, IfOk, IfErr};
ghost use Rattle.std.specs.Option.{option_map};
ghost use Rattle.tl_model.specs.Volume.{Volume};
ghost use Rattle.tl_command.specs.Endings.{no_devices};
ghost use Rattle.tl_command.specs.Loaded.{Reads};
ghost use Rattle.tl_command.specs.Performs.{Performs};
ghost use Rattle.tl_command.specs.Runs.{Run, over_file};

use crate::acted::Acted;
use crate::closing::{give_up, refuse};
use crate::ending::Ending;
use crate::session::Session;
use std::alloc::Global;
use tl_host::Host;
use tl_kind::What;
use tl_path::PathRef;
use tl_refusal::Refusal;
use tl_tree::{ContentsError, Tree};

/// The bytes of a file of a tree, `None` where it is absent; or how a command over the file ends, where it has more than the quantity
/// may have.
pub fn read_file<H: Host>(
    alloc: Global,
    what: What,
    path: PathRef<'_>,
    tree: Tree<H>,
) -> Result<(Option<Vec<u8>>, Tree<H>), Acted<H>>
    ensures read { IfOk result (λ found. Reads H.tells what path.entry tree found.1 (option_map (λ v. v.items) found.0)) }
    ensures acted { IfErr result (λ acted. (go : Volume → Option (List ℕ) → Run) → Performs H.tells H.seen
        (λ t. over_file what path.entry (go t) t) 0 tree.seen no_devices no_devices acted.ending acted.state) }
{
    let mut tree = tree;
    tree.stands();
    match tree.contents(alloc, path, what) {
        Ok(found) => Ok((found, tree)),
        Err(ContentsError::TooLarge { what, limit }) => {
            let refusal = Refusal::TooLarge { what, limit };
            Err(refuse(alloc, refusal, Session::of_tree(tree)))
        }
        Err(ContentsError::HostFault) => Err(Acted {
            ending: Ending::HostFault,
            state: Err(tree.release().into_host()),
        }),
        Err(ContentsError::NoMemory) => Err(give_up(Session::of_tree(tree))),
    }
}
