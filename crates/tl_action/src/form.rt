// The forms of operands.
ghost use Rattle.std.specs.Prelude.{◌≡◌, ◌==◌, false, true, IfOk, IfNone, IfSome};
ghost use Rattle.std.specs.List.{list_any, list_all};
ghost use Rattle.tl_model.specs.Decimal.{decimal_value};
ghost use Rattle.tl_path.specs.Names.{is_name, is_tag};
ghost use Rattle.tl_action.specs.Forms.{is_number_within, is_component, is_of_glob, is_glob, pin_word, fits};

use std::alloc::{AllocError, Global};
use tl_path::{Check, Name, NameError, PathRef, Tag, TagError};
use tl_text::decimal_u32;

/// The forms of an operand.
#[derive(Clone, Copy, Debug, PartialEq, Eq)]
pub enum Form {
    /// A name.
    Name,
    /// Any word.
    Word,
    /// What is to be checked.
    Check,
    /// A component of a path.
    Component,
    /// A number from 1 to 1000.
    Count,
    /// A revision.
    Revision,
    /// What is done with the pins.
    Pin,
    /// A tag.
    Tag,
    /// A glob of pins.
    Glob,
}

/// What the first operand of `pinning` asks for.
#[derive(Clone, Copy, Debug, PartialEq, Eq)]
pub enum PinWord {
    /// `show`.
    Show,
    /// `add`.
    Add,
    /// `remove`.
    Remove,
}

/// The number that a text stands for, within bounds, which stand among them; None where it is none. No memory.
pub fn number_within(least: u32, most: u32, text: &[u8]) -> Option<u32>
    ensures none { IfNone result (is_number_within least most text.now ≡ false) }
    ensures some { IfSome result (λ n. (is_number_within least most text.now ≡ true) × (n ≡ decimal_value text.now)) }
{
    match decimal_u32(text) {
        Ok(number) if least <= number && number <= most => Some(number),
        _ => None,
    }
}

fn is_number_within(least: u32, most: u32, text: &[u8]) -> bool
    ensures { result ≡ is_number_within least most text.now }
{
    number_within(least, most, text).is_some()
}

fn is_name(alloc: Global, text: &[u8]) -> Result<bool, AllocError>
    ensures { IfOk result (λ fits. fits ≡ is_name text.now) }
{
    match Name::parse(alloc, text) {
        Ok(_) => Ok(true),
        Err(NameError::BadName { .. }) => Ok(false),
        Err(NameError::NoMemory) => Err(AllocError),
    }
}

fn is_tag(alloc: Global, text: &[u8]) -> Result<bool, AllocError>
    ensures { IfOk result (λ fits. fits ≡ is_tag text.now) }
{
    match Tag::parse(alloc, text) {
        Ok(_) => Ok(true),
        Err(TagError::NotTag) => Ok(false),
        Err(TagError::NoMemory) => Err(AllocError),
    }
}

fn has_slash(text: &[u8]) -> bool
    ensures { result ≡ list_any (λ b. b == 47) text.now }
{
    text.iter().any(|byte| *byte == b'/')
}

fn is_component(text: &[u8]) -> bool
    ensures { result ≡ is_component text.now }
{
    PathRef::check(text).is_ok() && !has_slash(text)
}

fn is_of_glob(byte: u8) -> bool
    ensures { result ≡ is_of_glob byte }
{
    (33 <= byte && byte <= 126) && byte != b',' && byte != b':'
}

fn is_glob(text: &[u8]) -> bool
    ensures { result ≡ is_glob text.now }
{
    1 <= text.len() && text.len() <= 128 && has_only_glob_bytes(text)
}

fn has_only_glob_bytes(text: &[u8]) -> bool
    ensures { result ≡ list_all is_of_glob text.now }
{
    text.iter().all(|byte| is_of_glob(*byte))
}

impl PinWord {
    /// What a word asks for, if it is one of the three. No memory.
    pub fn read(word: &[u8]) -> Option<PinWord>
        ensures { result ≡ pin_word word.now }
    {
        if word == b"show".as_slice() {
            Some(PinWord::Show)
        } else if word == b"add".as_slice() {
            Some(PinWord::Add)
        } else if word == b"remove".as_slice() {
            Some(PinWord::Remove)
        } else {
            None
        }
    }
}

impl Form {
    /// Whether an operand has the form. `AllocError` where there is no memory to look at it.
    pub fn fits(self, alloc: Global, word: &[u8]) -> Result<bool, AllocError>
        ensures { IfOk result (λ fit. fit ≡ fits self word.now) }
    {
        match self {
            Form::Name => is_name(alloc, word),
            Form::Word => Ok(true),
            Form::Check => Ok(Check::read(word).is_some()),
            Form::Component => Ok(is_component(word)),
            Form::Count => Ok(is_number_within(1, 1000, word)),
            Form::Revision => Ok(is_number_within(0, u32::MAX, word)),
            Form::Pin => Ok(PinWord::read(word).is_some()),
            Form::Tag => is_tag(alloc, word),
            Form::Glob => Ok(is_glob(word)),
        }
    }
}
