// The command that words ask for, or their first fault.
ghost use Rattle.std.specs.Prelude.{◌≡◌, ◌≤◌, [], Some, None, true, false, length, IfOk, IfErr, OnOk, option_map};
ghost use Rattle.tl_words.specs.Order.{earlier};
ghost use Rattle.tl_words.specs.Settings.{options_fault, repositories_of, workers_of, user_of};
ghost use Rattle.tl_words.specs.Faults.{size_fault, action_fault, command_fault, plains, program_parts, session_parts, words_fault, session_fault, forbidden_fault};
ghost use Rattle.tl_words.specs.Commands.{first_action, action_of, IsCommandOf, HasRoot};
ghost use Rattle.tl_action.specs.Actions.{IsOn};
ghost use Rattle.tl_action.specs.Texts.{texts};
ghost use Rattle.tl_words.specs.Inside.{parts_left};
ghost use Rattle.tl_words.specs.Errors.{IsErrorOf, IsReadError};
ghost use Rattle.tl_words.specs.Places.{AreWithin};

use crate::error::{WordKind, WordsError};
use crate::faults::{
    Fault, ReadError, asked_fault, earlier_of, forbidden_fault, has_option, size_fault,
};
use crate::parts::PartsIter;
use crate::plains::PlainsIter;
use crate::settings::{Settings, read_options};
use crate::values::read_action;
use std::alloc::Global;
use tl_action::{Action, ActionName, Bytes, Command, OptionName, Repositories};

fn refused(fault: Fault) -> WordsError
    requires { fault.at ≤ 4096 }
    ensures { IsErrorOf (Some fault) result }
{
    WordsError::BadWords {
        at: fault.at as u32,
        kind: fault.kind,
    }
}

// The settings of the options, where neither they nor the words' sizes have a fault.
fn settings(alloc: Global, words: &[Vec<u8>], parts: PartsIter<'_>) -> Result<Settings, ReadError>
    ensures none { OnOk result (earlier (options_fault [] (parts_left parts.entry)) (size_fault 0 (texts words.now)) ≡ None) }
    ensures repositories { IfOk result (λ settings. settings.repositories.items ≡ repositories_of (parts_left parts.entry)) }
    ensures workers { IfOk result (λ settings. settings.workers ≡ workers_of 4 (parts_left parts.entry)) }
    ensures user { IfOk result (λ settings. settings.user ≡ user_of None (parts_left parts.entry)) }
    ensures fault { IfErr result (IsReadError (earlier (options_fault [] (parts_left parts.entry)) (size_fault 0 (texts words.now)))) }
{
    let size = size_fault(words);
    match read_options(alloc, parts) {
        Ok(settings) => match size {
            Some(fault) => Err(ReadError::Bad(fault)),
            None => Ok(settings),
        },
        Err(ReadError::Bad(fault)) => Err(ReadError::Bad(earlier_of(fault, size))),
        Err(ReadError::NoMemory) => Err(ReadError::NoMemory),
    }
}

// The action, where it and what goes with it have no fault; `end` is the number of words, `count` that of the repositories.
fn read_asked(
    alloc: Global,
    on: &[ActionName],
    in_session: bool,
    end: usize,
    count: usize,
    parts: PartsIter<'_>,
) -> Result<Action, ReadError>
    requires { count ≡ length (repositories_of (parts_left parts)) }
    ensures none { OnOk result (action_fault on.now in_session end (parts_left parts.entry) (plains (parts_left parts.entry)) ≡ None) }
    ensures action { IfOk result (λ action. option_map (action_of (parts_left parts.entry))
        (first_action on.now (plains (parts_left parts.entry))) ≡ Some action) }
    ensures fault { IfErr result (IsReadError (action_fault on.now in_session end (parts_left parts.entry) (plains (parts_left parts.entry)))) }
{
    let mut operands = PlainsIter::of(parts);
    let Some(first) = operands.next() else {
        return Err(ReadError::Bad(Fault {
            at: end,
            kind: WordKind::Action,
        }));
    };
    let Some(action) = ActionName::named(on, first.word) else {
        return Err(ReadError::Bad(Fault {
            at: first.at,
            kind: WordKind::Action,
        }));
    };
    match asked_fault(alloc, in_session, action, end, count, parts, operands) {
        Ok(None) => match read_action(alloc, action, parts, operands) {
            Ok(action) => Ok(action),
            Err(_) => Err(ReadError::NoMemory),
        },
        Ok(Some(fault)) => Err(ReadError::Bad(fault)),
        Err(_) => Err(ReadError::NoMemory),
    }
}

fn command(
    alloc: Global,
    on: &[ActionName],
    in_session: bool,
    root: Bytes,
    words: &[Vec<u8>],
    parts: PartsIter<'_>,
) -> Result<Command, WordsError>
    requires { AreWithin (texts words.now) (parts_left parts) }
    ensures none { OnOk result (command_fault on.now in_session (texts words.now) (parts_left parts.entry) ≡ None) }
    ensures root { IfOk result (λ command. command.root ≡ root) }
    ensures command { IfOk result (IsCommandOf on.now (parts_left parts.entry)) }
    ensures fault { IfErr result (IsErrorOf (command_fault on.now in_session (texts words.now) (parts_left parts.entry))) }
{
    let settings = match settings(alloc, words, parts) {
        Ok(settings) => settings,
        Err(ReadError::Bad(fault)) => return Err(refused(fault)),
        Err(ReadError::NoMemory) => return Err(WordsError::NoMemory),
    };
    let count = settings.repositories.len();
    match read_asked(alloc, on, in_session, words.len(), count, parts) {
        Ok(action) => Ok(Command {
            root,
            repositories: Repositories::new(settings.repositories),
            workers: settings.workers,
            action,
            user: settings.user,
            formats: has_option(OptionName::Formats, parts),
        }),
        Err(ReadError::Bad(fault)) => Err(refused(fault)),
        Err(ReadError::NoMemory) => Err(WordsError::NoMemory),
    }
}

/// Reads the program's words, of which the first is the root, where some actions are on. `BadWords` is their first fault.
pub fn read_words(
    alloc: Global,
    on: &[ActionName],
    words: &[Vec<u8>],
) -> Result<Command, WordsError>
    ensures none { OnOk result (words_fault on.now (texts words.now) ≡ None) }
    ensures root { IfOk result (HasRoot (texts words.now)) }
    ensures command { IfOk result (IsCommandOf on.now (program_parts (texts words.now))) }
    ensures on { IfOk result (λ command. IsOn on.now command.action) }
    ensures count { OnOk result (length words.now ≤ 4096) }
    ensures fault { IfErr result (IsErrorOf (words_fault on.now (texts words.now))) }
{
    let Some(root) = words.first() else {
        return Err(WordsError::BadWords {
            at: 0,
            kind: WordKind::Root,
        });
    };
    match Vec::from_slice(alloc, root.as_slice()) {
        Ok(root) => command(
            alloc,
            on,
            false,
            Bytes::new(root),
            words,
            PartsIter::of_program(words),
        ),
        Err(_) => Err(WordsError::NoMemory),
    }
}

/// Refuses the program's words where they have an option that isn't carried out, at its first place, kind `Option`. No memory.
pub fn refuse_option(option: OptionName, words: &[Vec<u8>]) -> Result<(), WordsError>
    requires { length words.now ≤ 4096 }
    ensures none { OnOk result (forbidden_fault option (program_parts (texts words.now)) ≡ None) }
    ensures fault { IfErr result (IsErrorOf (forbidden_fault option (program_parts (texts words.now)))) }
{
    if words.is_empty() {
        return Ok(());
    }
    match forbidden_fault(option, PartsIter::of_program(words)) {
        Some(fault) => Err(refused(fault)),
        None => Ok(()),
    }
}

/// Reads the words of a session's line, which have no root and no repositories, where some actions are on. `BadWords` is their first
/// fault.
pub fn read_shell_words(
    alloc: Global,
    on: &[ActionName],
    words: &[Vec<u8>],
) -> Result<Command, WordsError>
    ensures none { OnOk result (session_fault on.now (texts words.now) ≡ None) }
    ensures root { IfOk result (λ command. command.root ≡ []) }
    ensures command { IfOk result (IsCommandOf on.now (session_parts (texts words.now))) }
    ensures on { IfOk result (λ command. IsOn on.now command.action) }
    ensures fault { IfErr result (IsErrorOf (session_fault on.now (texts words.now))) }
{
    command(
        alloc,
        on,
        true,
        Bytes::new(Vec::new(alloc)),
        words,
        PartsIter::of_session(words),
    )
}
