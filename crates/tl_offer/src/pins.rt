//! The pins of a tree, as a command begins with them.
ghost use Rattle.std.specs.Prelude.{◌≡◌, List, IfOk, IfErr};
ghost use Rattle.tl_model.specs.Volume.{Volume};
ghost use Rattle.tl_pin.specs.declared.line.PinLine.{PinLine};
ghost use Rattle.tl_command.specs.Endings.{no_devices};
ghost use Rattle.tl_command.specs.Performs.{Performs};
ghost use Rattle.tl_command.specs.Runs.{Run};
ghost use Rattle.tl_offer.specs.Pinned.{LoadsPins, over_pins};

use std::alloc::Global;
use tl_command::{Acted, Refusal, Session, give_up, read_file, refuse};
use tl_host::Host;
use tl_kind::What;
use tl_path::PathRef;
use tl_pin::{Pins, PinsError};
use tl_tree::Tree;

/// The pins of a tree, none where their file is absent; or how a command over them ends, where the file is too large or doesn't read.
pub fn load_pins<H: Host>(alloc: Global, tree: Tree<H>) -> Result<(Pins, Tree<H>), Acted<H>>
    ensures read { IfOk result (λ found. LoadsPins H.tells tree found.1 found.0) }
    ensures acted { IfErr result (λ acted. (go : Volume → List PinLine → Run) → Performs H.tells H.seen
        (λ t. over_pins (go t) t) 0 tree.seen no_devices no_devices acted.ending acted.state) }
{
    let path = PathRef::known("tlpkg/pinning.txt");
    let (found, tree) = match read_file(alloc, What::Pins, path, tree) {
        Ok(read) => read,
        Err(acted) => return Err(acted),
    };
    let Some(text) = found else {
        return Ok((Pins::none(alloc), tree));
    };
    match Pins::parse(alloc, &text) {
        Ok(pins) => Ok((pins, tree)),
        Err(PinsError::BadPins { line }) => {
            let refusal = Refusal::BadPins { line };
            Err(refuse(alloc, refusal, Session::of_tree(tree)))
        }
        Err(PinsError::NoMemory) => Err(give_up(Session::of_tree(tree))),
    }
}
