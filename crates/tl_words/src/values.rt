// An action with its options and operands, once its words are known to have no fault.
ghost use Rattle.std.specs.Prelude.{◌≡◌, true, IfOk, map, option_map};
ghost use Rattle.std.specs.List.{All};
ghost use Rattle.tl_path.specs.Names.{is_name, is_tag};
ghost use Rattle.tl_action.specs.Forms.{is_number_within, fits, pin_word};
ghost use Rattle.tl_action.specs.Table.{operands_of};
ghost use Rattle.tl_words.specs.Fit.{AreFit, AreNames, MayBeginWithName, MayBeginWithRevision, TagFollows};
ghost use Rattle.tl_words.specs.Commands.{first_word, may_word, later_words, distinct, number_within, check_of, pins_by, pins_of, action_with};
ghost use Rattle.tl_words.specs.Settings.{has_option};
ghost use Rattle.tl_action.specs.Texts.{texts};
ghost use Rattle.tl_words.specs.Inside.{parts_left, plains_left, words_left};

use crate::faults::has_option;
use crate::parts::PartsIter;
use crate::plains::PlainsIter;
use std::alloc::{AllocError, Global};
use std::collections::BTreeSet;
use tl_action::{
    Action, ActionName, Bytes, Form, Names, OptionName, PinAction, PinWord, Texts, number_within,
};
use tl_path::{Check, Name, NameError, Tag, TagError};

fn read_name(alloc: Global, word: &[u8]) -> Result<Name, AllocError>
    requires { is_name word.now ≡ true }
    ensures { IfOk result (λ name. name ≡ word.now) }
{
    match Name::parse(alloc, word) {
        Ok(name) => Ok(name),
        Err(NameError::NoMemory) => Err(AllocError),
        Err(NameError::BadName { .. }) => unreachable!(),
    }
}

fn read_tag(alloc: Global, word: &[u8]) -> Result<Tag, AllocError>
    requires { is_tag word.now ≡ true }
    ensures { IfOk result (λ tag. tag ≡ word.now) }
{
    match Tag::parse(alloc, word) {
        Ok(tag) => Ok(tag),
        Err(TagError::NoMemory) => Err(AllocError),
        Err(TagError::NotTag) => unreachable!(),
    }
}

fn read_bytes(alloc: Global, word: &[u8]) -> Result<Bytes, AllocError>
    ensures { IfOk result (λ bytes. bytes ≡ word.now) }
{
    Ok(Bytes::new(Vec::from_slice(alloc, word)?))
}

fn read_check(word: &[u8]) -> Check
    requires { fits Form.Check word.now ≡ true }
    ensures { result ≡ check_of word.now }
{
    match Check::read(word) {
        Some(check) => check,
        None => unreachable!(),
    }
}

fn read_number(least: u32, most: u32, word: &[u8]) -> u32
    requires { is_number_within least most word.now ≡ true }
    ensures { result ≡ number_within least most word.now }
{
    match number_within(least, most, word) {
        Some(number) => number,
        None => unreachable!(),
    }
}

// The next operand as a name, if there is one.
fn take_name(alloc: Global, operands: &mut PlainsIter<'_>) -> Result<Option<Name>, AllocError>
    requires { MayBeginWithName (words_left operands.old) }
    ensures name { IfOk result (λ name. name ≡ may_word (words_left operands.old)) }
    ensures left { words_left operands.new ≡ later_words (words_left operands.old) }
{
    match operands.next() {
        Some(placed) => match read_name(alloc, placed.word) {
            Ok(name) => Ok(Some(name)),
            Err(error) => Err(error),
        },
        None => Ok(None),
    }
}

// Each word once, in its first place.
fn distinct_words<'a>(alloc: Global, operands: PlainsIter<'a>) -> Result<Vec<&'a [u8]>, AllocError>
    ensures { IfOk result (λ words. map (λ word. word.now) words.items ≡ distinct (words_left operands.entry)) }
{
    let mut seen = BTreeSet::new(alloc);
    let mut words = Vec::new(alloc);
    for operand in operands {
        let is_new = seen.insert(operand.word)?;
        if !is_new {
            continue;
        }
        words.push(operand.word)?;
    }
    Ok(words)
}

fn names_of(alloc: Global, words: &[&[u8]]) -> Result<Vec<Name>, AllocError>
    requires { All (λ word. is_name word.now ≡ true) words.now }
    ensures { IfOk result (λ names. names.items ≡ map (λ word. word.now) words.now) }
{
    let mut names = Vec::with_capacity(alloc, words.len())?;
    for word in words {
        names.push(read_name(alloc, *word)?)?;
    }
    Ok(names)
}

// Each name once.
fn read_names(alloc: Global, operands: PlainsIter<'_>) -> Result<Names, AllocError>
    requires { AreNames (words_left operands) }
    ensures { IfOk result (λ names. names ≡ distinct (words_left operands.entry)) }
{
    let words = distinct_words(alloc, operands)?;
    Ok(Names::new(names_of(alloc, &words)?))
}

fn texts_of(alloc: Global, words: &[&[u8]]) -> Result<Vec<Vec<u8>>, AllocError>
    ensures { IfOk result (λ copied. texts copied.items ≡ map (λ word. word.now) words.now) }
{
    let mut copied = Vec::with_capacity(alloc, words.len())?;
    for word in words {
        copied.push(Vec::from_slice(alloc, *word)?)?;
    }
    Ok(copied)
}

// Each glob once.
fn read_globs(alloc: Global, operands: PlainsIter<'_>) -> Result<Texts, AllocError>
    ensures { IfOk result (λ globs. globs ≡ distinct (words_left operands.entry)) }
{
    let words = distinct_words(alloc, operands)?;
    Ok(Texts::new(texts_of(alloc, &words)?))
}

// Each value as often as it stands.
fn read_values(alloc: Global, operands: PlainsIter<'_>) -> Result<Texts, AllocError>
    ensures { IfOk result (λ values. values ≡ words_left operands.entry) }
{
    let mut values = Vec::new(alloc);
    for operand in operands {
        values.push(Vec::from_slice(alloc, operand.word)?)?;
    }
    Ok(Texts::new(values))
}

fn read_pins(
    alloc: Global,
    with_all: bool,
    operands: PlainsIter<'_>,
) -> Result<PinAction, AllocError>
    requires { TagFollows (pin_word (first_word (words_left operands))) (later_words (words_left operands)) }
    ensures { IfOk result (λ pins. pins ≡ pins_of with_all (words_left operands.entry)) }
{
    let mut operands = operands;
    let pin = PinWord::read(operands.take_word());
    read_pins_by(alloc, with_all, pin, operands)
}

fn read_pins_by(
    alloc: Global,
    with_all: bool,
    pin: Option<PinWord>,
    operands: PlainsIter<'_>,
) -> Result<PinAction, AllocError>
    requires { TagFollows pin (words_left operands) }
    ensures { IfOk result (λ pins. pins ≡ pins_by with_all pin (words_left operands.entry)) }
{
    let mut operands = operands;
    match pin {
        Some(PinWord::Add) => {
            let tag = read_tag(alloc, operands.take_word())?;
            let globs = read_globs(alloc, operands)?;
            Ok(PinAction::Add { tag, globs })
        }
        Some(PinWord::Remove) => {
            let tag = read_tag(alloc, operands.take_word())?;
            let globs = read_globs(alloc, operands)?;
            Ok(PinAction::Remove {
                tag,
                globs,
                all: with_all,
            })
        }
        _ => Ok(PinAction::Show),
    }
}

fn read_install(
    alloc: Global,
    parts: PartsIter<'_>,
    operands: PlainsIter<'_>,
) -> Result<Action, AllocError>
    requires { AreNames (words_left operands) }
    ensures { IfOk result (λ read. read ≡ action_with (λ option. has_option option (parts_left parts.entry))
        (words_left operands.entry) ActionName.Install) }
{
    Ok(Action::Install {
        names: read_names(alloc, operands)?,
        no_depends: has_option(OptionName::NoDepends, parts),
        no_depends_at_all: has_option(OptionName::NoDependsAtAll, parts),
        reinstall: has_option(OptionName::Reinstall, parts),
    })
}

fn read_update(
    alloc: Global,
    parts: PartsIter<'_>,
    operands: PlainsIter<'_>,
) -> Result<Action, AllocError>
    requires { AreNames (words_left operands) }
    ensures { IfOk result (λ read. read ≡ action_with (λ option. has_option option (parts_left parts.entry))
        (words_left operands.entry) ActionName.Update) }
{
    Ok(Action::Update {
        names: read_names(alloc, operands)?,
        all: has_option(OptionName::All, parts),
        no_auto_install: has_option(OptionName::NoAutoInstall, parts),
        no_auto_remove: has_option(OptionName::NoAutoRemove, parts),
        reinstall_forcibly_removed: has_option(OptionName::ReinstallForciblyRemoved, parts),
    })
}

fn read_restore(alloc: Global, operands: PlainsIter<'_>) -> Result<Action, AllocError>
    requires name { MayBeginWithName (words_left operands) }
    requires revision { MayBeginWithRevision (later_words (words_left operands)) }
    ensures { IfOk result (λ read. read ≡ Action.Restore (may_word (words_left operands.entry))
        (option_map (number_within 0 4294967295) (may_word (later_words (words_left operands.entry))))) }
{
    let mut operands = operands;
    let name = take_name(alloc, &mut operands)?;
    let revision = match operands.next() {
        Some(placed) => Some(read_number(0, u32::MAX, placed.word)),
        None => None,
    };
    Ok(Action::Restore { name, revision })
}

fn read_setting(alloc: Global, operands: PlainsIter<'_>) -> Result<Action, AllocError>
    requires { MayBeginWithName (words_left operands) }
    ensures { IfOk result (λ read. read ≡ Action.Setting (may_word (words_left operands.entry))
        (later_words (words_left operands.entry))) }
{
    let mut operands = operands;
    let option = take_name(alloc, &mut operands)?;
    let values = read_values(alloc, operands)?;
    Ok(Action::Setting { option, values })
}

fn read_remove(
    alloc: Global,
    parts: PartsIter<'_>,
    operands: PlainsIter<'_>,
) -> Result<Action, AllocError>
    requires { AreNames (words_left operands) }
    ensures { IfOk result (λ read. read ≡ action_with (λ option. has_option option (parts_left parts.entry))
        (words_left operands.entry) ActionName.Remove) }
{
    Ok(Action::Remove {
        names: read_names(alloc, operands)?,
        force: has_option(OptionName::Force, parts),
    })
}

fn read_backup(
    alloc: Global,
    parts: PartsIter<'_>,
    operands: PlainsIter<'_>,
) -> Result<Action, AllocError>
    requires { AreNames (words_left operands) }
    ensures { IfOk result (λ read. read ≡ action_with (λ option. has_option option (parts_left parts.entry))
        (words_left operands.entry) ActionName.Backup) }
{
    Ok(Action::Backup {
        names: read_names(alloc, operands)?,
        all: has_option(OptionName::All, parts),
    })
}

fn read_pinning(
    alloc: Global,
    parts: PartsIter<'_>,
    operands: PlainsIter<'_>,
) -> Result<Action, AllocError>
    requires { TagFollows (pin_word (first_word (words_left operands))) (later_words (words_left operands)) }
    ensures { IfOk result (λ read. read ≡ action_with (λ option. has_option option (parts_left parts.entry))
        (words_left operands.entry) ActionName.Pinning) }
{
    let with_all = has_option(OptionName::All, parts);
    let pins = read_pins(alloc, with_all, operands)?;
    Ok(Action::Pinning { pins })
}

// The first operand, or an empty one where there is none.
fn first_word<'a>(operands: PlainsIter<'a>) -> &'a [u8]
    ensures { result.now ≡ first_word (words_left operands.entry) }
{
    let mut operands = operands;
    operands.take_word()
}

fn first_name(alloc: Global, operands: PlainsIter<'_>) -> Result<Option<Name>, AllocError>
    requires { MayBeginWithName (words_left operands) }
    ensures { IfOk result (λ name. name ≡ may_word (words_left operands.entry)) }
{
    let mut operands = operands;
    take_name(alloc, &mut operands)
}

// The action of a name, with the options among some parts and operands that have no fault.
pub(crate) fn read_action(
    alloc: Global,
    action: ActionName,
    parts: PartsIter<'_>,
    operands: PlainsIter<'_>,
) -> Result<Action, AllocError>
    requires { AreFit (operands_of action (has_option OptionName.All (parts_left parts))) (plains_left operands) }
    ensures { IfOk result (λ read. read ≡ action_with (λ option. has_option option (parts_left parts.entry))
        (words_left operands.entry) action) }
{
    let first = first_word(operands);
    match action {
        ActionName::DumpTlpdb => Ok(Action::DumpTlpdb {
            local: has_option(OptionName::Local, parts),
        }),
        ActionName::Info => Ok(Action::Info {
            name: first_name(alloc, operands)?,
        }),
        ActionName::Search => Ok(Action::Search {
            word: read_bytes(alloc, first)?,
        }),
        ActionName::Candidates => Ok(Action::Candidates {
            name: read_name(alloc, first)?,
        }),
        ActionName::Check => Ok(Action::Check {
            what: read_check(first),
        }),
        ActionName::Install => read_install(alloc, parts, operands),
        ActionName::Update => read_update(alloc, parts, operands),
        ActionName::Remove => read_remove(alloc, parts, operands),
        ActionName::Backup => read_backup(alloc, parts, operands),
        ActionName::Restore => read_restore(alloc, operands),
        ActionName::Setting => read_setting(alloc, operands),
        ActionName::Pinning => read_pinning(alloc, parts, operands),
        ActionName::Expand => Ok(Action::Expand {
            name: read_name(alloc, first)?,
        }),
        ActionName::Edit => Ok(Action::Edit),
        ActionName::Build => Ok(Action::Build),
        ActionName::Mirror => Ok(Action::Mirror),
        ActionName::Lsr => Ok(Action::Lsr),
        ActionName::Which => Ok(Action::Which {
            word: read_bytes(alloc, first)?,
        }),
        ActionName::Shell => Ok(Action::Shell),
        ActionName::GenerateMaster => Ok(Action::GenerateMaster {
            count: read_number(1, 1000, first),
        }),
    }
}
