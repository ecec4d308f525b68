// Where words fail to be a command, but for what needs memory.
ghost use Rattle.std.specs.Prelude.{◌≡◌, ◌==◌, ◌||◌, length, nat_lt, Some, IfOk};
ghost use Rattle.tl_words.specs.Order.{earlier};
ghost use Rattle.tl_words.specs.Settings.{is_option, has_option, repositories_of};
ghost use Rattle.tl_words.specs.Faults.{size_fault, is_foreign, foreign_fault, user_fault, required_fault, flags_fault, repository_fault, asked_fault, forbidden_fault};
ghost use Rattle.tl_action.specs.Texts.{texts};
ghost use Rattle.tl_words.specs.Inside.{parts_left, plains_left};

use crate::error::WordKind;
use crate::operands::operands_fault;
use crate::parts::{PartRef, PartsIter};
use crate::plains::PlainsIter;
use std::alloc::{AllocError, Global};
use tl_action::{ActionName, OptionName};

/// A fault of words.
#[derive(Clone, Copy, Debug, PartialEq, Eq)]
pub struct Fault {
    /// The word it stands at, counted from 0, or the number of words.
    pub at: usize,
    /// How the words fail there.
    pub kind: WordKind,
}

/// Words can't be read.
#[derive(Clone, Copy)]
pub(crate) enum ReadError {
    Bad(Fault),
    NoMemory,
}

// The fault at the lesser place; the first one where both have one place.
pub(crate) fn earlier_of(first: Fault, second: Option<Fault>) -> Fault
    ensures { earlier (Some first) second ≡ Some result }
{
    match second {
        Some(second) if second.at < first.at => second,
        _ => first,
    }
}

// The first word past the limits: 4,096 words of 65,536 bytes each.
pub(crate) fn size_fault(words: &[Vec<u8>]) -> Option<Fault>
    ensures { result ≡ size_fault 0 (texts words.now) }
{
    for at in 0..words.len() {
        if is_past(at, words[at].as_slice()) {
            return Some(Fault {
                at,
                kind: WordKind::Number,
            });
        }
    }
    None
}

fn is_past(at: usize, word: &[u8]) -> bool
    ensures { result ≡ (at == 4096 || nat_lt 65536 (length word.now)) }
{
    at == 4096 || word.len() > 65_536
}

fn is_foreign(action: ActionName, usermode: bool, option: Option<OptionName>) -> bool
    ensures { result ≡ is_foreign action usermode option }
{
    let Some(option) = option else {
        return true;
    };
    if !action.goes_with(option) {
        return true;
    }
    if usermode {
        option.is_unfit_for_users()
    } else {
        option.is_for_users()
    }
}

// The first option that is refused.
fn foreign_fault(action: ActionName, usermode: bool, parts: PartsIter<'_>) -> Option<Fault>
    ensures { result ≡ foreign_fault action usermode (parts_left parts.entry) }
{
    for part in parts {
        if let PartRef::Given { at, option, .. } = part {
            if is_foreign(action, usermode, option) {
                return Some(Fault {
                    at,
                    kind: WordKind::Option,
                });
            }
        }
    }
    None
}

fn is_option(this: OptionName, option: Option<OptionName>) -> bool
    ensures { result ≡ is_option this option }
{
    match option {
        Some(option) => this.is(option),
        None => false,
    }
}

// Whether an option is among the parts.
pub(crate) fn has_option(this: OptionName, parts: PartsIter<'_>) -> bool
    ensures { result ≡ has_option this (parts_left parts.entry) }
{
    for part in parts {
        if let PartRef::Given { option, .. } = part {
            if is_option(this, option) {
                return true;
            }
        }
    }
    false
}

// Where this option first stands, as the fault of words that may not have it.
pub(crate) fn forbidden_fault(this: OptionName, parts: PartsIter<'_>) -> Option<Fault>
    ensures { result ≡ forbidden_fault this (parts_left parts.entry) }
{
    for part in parts {
        if let PartRef::Given { at, option, .. } = part {
            if is_option(this, option) {
                return Some(Fault {
                    at,
                    kind: WordKind::Option,
                });
            }
        }
    }
    None
}

// The fault of `usermode` without `usertree`.
fn user_fault(end: usize, parts: PartsIter<'_>) -> Option<Fault>
    ensures { result ≡ user_fault end (parts_left parts.entry) }
{
    if has_option(OptionName::Usermode, parts) && !has_option(OptionName::Usertree, parts) {
        Some(Fault {
            at: end,
            kind: WordKind::Value,
        })
    } else {
        None
    }
}

// The fault of an action that needs `local`.
fn required_fault(action: ActionName, end: usize, parts: PartsIter<'_>) -> Option<Fault>
    ensures { result ≡ required_fault action end (parts_left parts.entry) }
{
    if action.needs_local() && !has_option(OptionName::Local, parts) {
        Some(Fault {
            at: end,
            kind: WordKind::Option,
        })
    } else {
        None
    }
}

// The first fault of the options with an action.
fn flags_fault(action: ActionName, end: usize, parts: PartsIter<'_>) -> Option<Fault>
    ensures { result ≡ flags_fault action end (parts_left parts.entry) }
{
    let foreign = foreign_fault(action, has_option(OptionName::Usermode, parts), parts);
    if foreign.is_some() {
        return foreign;
    }
    let user = user_fault(end, parts);
    if user.is_some() {
        return user;
    }
    required_fault(action, end, parts)
}

// The fault of too few or too many repositories.
fn repository_fault(in_session: bool, action: ActionName, end: usize, count: usize) -> Option<Fault>
    ensures { result ≡ repository_fault in_session action end count }
{
    if in_session || action.is_served(count) {
        None
    } else {
        Some(Fault {
            at: end,
            kind: WordKind::Repository,
        })
    }
}

// The first fault of a known action's words; `end` is the number of words, `count` that of the repositories.
pub(crate) fn asked_fault(
    alloc: Global,
    in_session: bool,
    action: ActionName,
    end: usize,
    count: usize,
    parts: PartsIter<'_>,
    operands: PlainsIter<'_>,
) -> Result<Option<Fault>, AllocError>
    requires { count ≡ length (repositories_of (parts_left parts)) }
    ensures { IfOk result (λ found. found ≡ asked_fault in_session action end (parts_left parts.entry) (plains_left operands.entry)) }
{
    let flags = flags_fault(action, end, parts);
    if flags.is_some() {
        return Ok(flags);
    }
    let expected = action.operands(has_option(OptionName::All, parts));
    let operand = operands_fault(alloc, expected, end, operands)?;
    if operand.is_some() {
        return Ok(operand);
    }
    Ok(repository_fault(in_session, action, end, count))
}
