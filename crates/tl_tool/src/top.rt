//! The top call.
ghost use Rattle.std.specs.Prelude.{◌≡◌, Bool, Some, None, IsSome, IfOk, IfErr, OnOk};
ghost use Rattle.tl_model.specs.Devices.{Outside};
ghost use Rattle.tl_model.specs.Seen.{Told};
ghost use Rattle.tl_model.specs.Volume.{Volume};
ghost use Rattle.tl_journal_text.specs.Slots.{open_slot};
ghost use Rattle.tl_journal_text.specs.Stand.{stand};
ghost use Rattle.tl_action.specs.Actions.{IsOn};
ghost use Rattle.tl_action.specs.Texts.{texts};
ghost use Rattle.tl_words.specs.Commands.{HasRoot, IsCommandOf};
ghost use Rattle.tl_words.specs.Errors.{IsErrorOf};
ghost use Rattle.tl_words.specs.Faults.{program_parts};
ghost use Rattle.tl_refusal.specs.declared.refusal.Refusal.TheVariants.{BadJournal};
ghost use Rattle.tl_command.specs.Endings.{IsCarried, IsCaused, IsWordless};
ghost use Rattle.tl_command.specs.Runs.{AreLabelled, refused};
ghost use Rattle.tl_command.specs.Whole.{OnlySays, Runs, journal_place};
ghost use Rattle.tl_tool.specs.Acts.{MakesRun};
ghost use Rattle.tl_tool.specs.Commands.{built_actions, program_fault, run_of, run_without, tells_all, tells_for};
ghost use Rattle.tl_tool.specs.Outsides.{faults_of, outside_of, shelf_faults};
ghost use Rattle.tl_tool.specs.Top.{AnswersWords};

use crate::acting::act;
use crate::actions::BUILT;
use std::alloc::Global;
use std::thread::Threads;
use tl_command::{Ending, Refusal, begin, end, refuse_at_once};
use tl_host::{Host, Shelf, Source};
use tl_regexp::Regexps;
use tl_words::{Command, OptionName, WordsError, read_words, refuse_option};

// The command that the program's words ask for: each of them, and each option, is carried out. `BadWords` is their first fault.
fn read_command(alloc: Global, words: &[Vec<u8>]) -> Result<Command, WordsError>
    ensures none { OnOk result (program_fault (texts words.now) ≡ None) }
    ensures root { IfOk result (HasRoot (texts words.now)) }
    ensures command { IfOk result (IsCommandOf built_actions (program_parts (texts words.now))) }
    ensures on { IfOk result (λ command. IsOn built_actions command.action) }
    ensures fault { IfErr result (IsErrorOf (program_fault (texts words.now))) }
{
    let command = read_words(alloc, &BUILT, words)?;
    refuse_option(OptionName::Usermode, words)?;
    Ok(command)
}

// Recovers the volume, carries a command out over its tree, and ends the run.
fn start<H: Host, S: Shelf>(
    alloc: Global,
    command: Command,
    shelf: &mut S,
    regexps: &mut Regexps,
    host: H,
) -> (Ending, H)
    requires { IsOn built_actions command.action }
    ensures run { MakesRun S.tells H.tells command result.0 (H.seen host) (H.seen result.1) (S.seen shelf.old) regexps.new }
    ensures without { Told H.tells (stand (H.seen host).present.held ≡ None →
        OnlySays (refused (BadJournal (journal_place (H.seen host).present.held))) result.0 (H.seen host) (H.seen result.1)) }
    ensures shut { (input : Bool) → Told (tells_all command.action S.tells input H.tells)
        (IsSome (stand (H.seen host).present.held) → IsCarried result.0 → open_slot (H.seen result.1).present.held ≡ None) }
    ensures cause { IsCaused result.0 (H.seen host) (H.seen result.1) (shelf_faults (S.seen shelf.old)) (shelf_faults (S.seen shelf.new)) }
    ensures words { IsWordless result.0 → ⊥ }
{
    match begin(alloc, host) {
        Ok(session) => end(act(alloc, command, shelf, regexps, session)),
        Err(ended) => ended,
    }
}

/// Carries a command out over the outside, and hands the host back with every ending.
///
/// The words are the program's, the root first. They are read first; then the volume is recovered, and the command is carried
/// out over its tree. Where the host tells what it holds, and so do the repositories and the input where the command reads them, and
/// the volume stands for a tree, what was seen of the host is the run of the words over that tree: whole where the command was
/// carried out or refused, cut off after a front of it by a fault of the host, given up for want of memory or by a fault of the
/// repositories or the input; and each picture that a stop may leave is a cut of that run: it stands for the tree after as many steps as
/// the bytes said acknowledge, or one more, or nothing was acknowledged and it is a picture that could be left at the start. A run of
/// u steps syncs 2u + 4 times at most.
///
/// A volume that stands for no tree, since its journal is open at a body that doesn't read, is refused at the place, and no
/// name changes. Words that are refused leave the host as it is but for what is said. A fault is answered only where the
/// faults of its device rose. A command that was carried out or refused leaves the journal closed.
pub fn texlive<R: Threads + Sync, H: Host, S: Shelf, I: Source>(
    rt: &R,
    alloc: Global,
    words: &[Vec<u8>],
    host: H,
    shelf: &mut S,
    input: &mut I,
    regexps: &mut Regexps,
) -> (Ending, H)
    ensures run { Told (tells_for (texts words.now) S.tells I.tells H.tells) ((tree : Volume) → stand (H.seen host).present.held ≡ Some tree →
        Runs (run_of (texts words.now) (outside_of (S.seen shelf.old) (I.seen input.old) regexps.new) tree) result.0 (H.seen host) (H.seen result.1) tree) }
    ensures labels { (outside : Outside) (tree : Volume) → AreLabelled (run_of (texts words.now) outside tree).events }
    ensures without { Told H.tells (stand (H.seen host).present.held ≡ None →
        OnlySays (run_without (texts words.now) (H.seen host).present.held) result.0 (H.seen host) (H.seen result.1)) }
    ensures shut { Told (tells_for (texts words.now) S.tells I.tells H.tells) (IsSome (stand (H.seen host).present.held) →
        program_fault (texts words.now) ≡ None → IsCarried result.0 → open_slot (H.seen result.1).present.held ≡ None) }
    ensures words { AnswersWords H.tells (program_fault (texts words.now)) result.0 (H.seen host) (H.seen result.1) }
    ensures cause { IsCaused result.0 (H.seen host) (H.seen result.1)
        (faults_of (S.seen shelf.old) (I.seen input.old)) (faults_of (S.seen shelf.new) (I.seen input.new)) }
{
    match read_command(alloc, words) {
        Ok(command) => start(alloc, command, shelf, regexps, host),
        Err(WordsError::BadWords { at, kind }) => {
            refuse_at_once(alloc, Refusal::BadWords { at, kind }, host)
        }
        Err(WordsError::NoMemory) => (Ending::NoMemory, host),
    }
}
