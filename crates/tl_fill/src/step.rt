//! A step whose files are fetched.
ghost use Rattle.std.specs.Prelude.{◌≡◌, ◌≤◌, ◌&&◌, [], Bool, IsTrue, Some, map, IfOk, IfErr};
ghost use Rattle.tl_model.specs.Devices.{SameShelf};
ghost use Rattle.tl_model.specs.Seen.{Seen};
ghost use Rattle.tl_model.specs.Volume.{Volume};
ghost use Rattle.tl_tree.specs.Conditions.{IsChange};
ghost use Rattle.tl_tree.specs.Opened.{Opened};
ghost use Rattle.tl_command.specs.Endings.{Faults};
ghost use Rattle.tl_command.specs.Performs.{Advances, Performs};
ghost use Rattle.tl_command.specs.Runs.{Run};
ghost use Rattle.tl_fill.specs.Ends.{EndsBy, HasBroken, HasFinished, IsOpenedFrom, IsPlainHalt, IsWholeHeld};
ghost use Rattle.tl_fill.specs.Filling.{AreLater, FillsStep, beside_shelf, filling};
ghost use Rattle.tl_fill.specs.StepSinks.{IsHeld, StepSince, sink_seen};
ghost use Rattle.tl_fill.specs.Wanted.{wanted_of};
ghost use Rattle.tl_fill.specs.declared.sink.Held.TheVariants as held;

use crate::fetch::{Fetch, fetch_all};
use crate::halt::Halt;
use crate::sink::{Held, StepSink};
use std::alloc::Global;
use tl_command::{Acted, Ending, Session, give_up, open_step, refuse, stop_at_shelf};
use tl_host::{Host, Shelf};
use tl_tree::{Change, Tree};

// A command that ends at a fault of the host.
fn broken<H: Host>(host: H) -> Acted<H>
    ensures { (result.ending ≡ Ending.HostFault) × (result.state ≡ Err host) }
{
    Acted {
        ending: Ending::HostFault,
        state: Err(host),
    }
}

// Ends a command that halts over a tree, where nothing was done since first.
fn end_at<H: Host>(alloc: Global, halt: Halt, tree: Tree<H>) -> Acted<H>
    requires { IsPlainHalt halt }
    ensures { (first : Seen) (tells : Bool) (command : Volume → Run) (before after : Faults) → (IsTrue tells → IsTrue H.tells)
        → Advances H.tells (λ _. []) first tree.seen → EndsBy tells command before after first tree.seen.faults halt
        → Performs tells H.seen command 0 first before after result.ending result.state }
{
    match halt {
        Halt::Refused(refusal) => refuse(alloc, refusal, Session::of_tree(tree)),
        Halt::Shelf => stop_at_shelf(Session::of_tree(tree)),
        Halt::Sink => broken(tree.release().into_host()),
        Halt::Memory => give_up(Session::of_tree(tree)),
    }
}

// Ends a command that halts over what a sink holds of a step.
fn end_held<H: Host>(alloc: Global, halt: Halt, sink: StepSink<'_, H>) -> Acted<H>
    requires plain { IsPlainHalt halt }
    requires held { IsHeld sink.held }
    ensures { (old : Opened) (first : Seen) (tells : Bool) (command : Volume → Run) (before after : Faults)
        → (IsTrue tells → IsTrue H.tells) → IsOpenedFrom H.tells first old
        → StepSince H.tells H.seen (Some (held.Open old)) 0 sink.entry.held sink.entry.later
        → EndsBy tells command before after first (sink_seen H.seen sink.entry.held sink.entry.later).faults halt
        → Performs tells H.seen command 0 first before after result.ending result.state }
{
    match sink.into_held() {
        Held::Open(step) => end_at(alloc, halt, step.abandon()),
        Held::Lost(host) => broken(host),
    }
}

// Makes the step that a sink holds, all of whose files have come.
fn finish_held<H: Host>(sink: StepSink<'_, H>) -> Result<Tree<H>, Acted<H>>
    requires { IsWholeHeld sink.held }
    ensures made { IfOk result (HasFinished H.tells sink.entry.held) }
    ensures lost { IfErr result (λ acted. HasBroken H.tells H.seen sink.entry.held acted.ending acted.state) }
{
    match sink.into_held() {
        Held::Open(step) => match step.finish() {
            Ok(tree) => Ok(tree),
            Err(lost) => Err(broken(lost.host)),
        },
        Held::Lost(host) => Err(broken(host)),
    }
}

/// Makes a step of a tree, the later files of which are fetched, container after container; or, where it isn't made, how the command
/// ends, whatever it would have done behind it. In this order: `TooLarge` where the database that the step leaves passes a limit; then
/// the refusals of each fetch in turn, as `fetch_into` says. What a container holds is staged as it comes: no file is kept in memory.
pub fn step_fetched<S: Shelf, H: Host>(
    alloc: Global,
    shelf: &mut S,
    fetches: &[Fetch<'_>],
    change: &Change,
    tree: Tree<H>,
) -> Result<Tree<H>, Acted<H>>
    requires change { IsChange tree.db change.now.parts change.now.label }
    requires later { AreLater change.now.parts (map wanted_of fetches.now) }
    ensures made { IfOk result (FillsStep S.tells H.tells (S.seen shelf.old).repositories (map wanted_of fetches.now)
        change.now.parts change.now.label tree) }
    ensures acted { IfErr result (λ acted. (rest : Volume → Run) → Performs (S.tells && H.tells) H.seen
        (filling (S.seen shelf.old).repositories (map wanted_of fetches.now) tree.db change.now.parts change.now.label rest)
        0 tree.seen (beside_shelf (S.seen shelf.old).faults) (beside_shelf (S.seen shelf.new).faults) acted.ending acted.state) }
    ensures same { SameShelf (S.seen shelf.old) (S.seen shelf.new) }
    ensures later { (S.seen shelf.old).faults ≤ (S.seen shelf.new).faults }
{
    let step = match open_step(alloc, change, tree) {
        Ok(step) => step,
        Err(acted) => return Err(acted),
    };
    let mut sink = StepSink::new(step);
    match fetch_all(alloc, shelf, fetches, &mut sink) {
        Ok(()) => finish_held(sink),
        Err(halt) => Err(end_held(alloc, halt, sink)),
    }
}
