// The operands that an action takes, one after the other.
ghost use Rattle.std.specs.Prelude.{◌≡◌};
ghost use Rattle.tl_action.specs.Forms.{form_of, is_needed, after_pin, after};

use crate::form::{Form, PinWord};

/// The operands that may still come.
#[derive(Clone, Copy, Debug, PartialEq, Eq)]
pub enum Expected {
    /// None.
    Nothing,
    /// A name or none.
    MayName,
    /// A name.
    OneName,
    /// Names, one at least.
    SomeNames,
    /// Names.
    AnyNames,
    /// A word.
    OneWord,
    /// What is to be checked.
    OneCheck,
    /// A component of a path.
    OneComponent,
    /// A number from 1 to 1000.
    OneCount,
    /// A name, a name and a revision, or none.
    MayNameAndRevision,
    /// A revision or none.
    MayRevision,
    /// A name and words, or none.
    MayNameAndWords,
    /// Words.
    AnyWords,
    /// `show`, `add`, a tag and globs, or `remove`, a tag and globs.
    Pins,
    /// The same, with no need of a glob behind `remove`.
    PinsWithAll,
    /// A tag and globs, one at least.
    TagAndGlobs,
    /// A tag and globs.
    TagAndAnyGlobs,
    /// Globs, one at least.
    SomeGlobs,
    /// Globs.
    AnyGlobs,
}

impl Expected {
    /// The form of the next operand, if one may come. No memory.
    pub fn form(self) -> Option<Form>
        ensures { result ≡ form_of self }
    {
        match self {
            Expected::Nothing => None,
            Expected::OneWord | Expected::AnyWords => Some(Form::Word),
            Expected::OneCheck => Some(Form::Check),
            Expected::OneComponent => Some(Form::Component),
            Expected::OneCount => Some(Form::Count),
            Expected::MayRevision => Some(Form::Revision),
            Expected::Pins | Expected::PinsWithAll => Some(Form::Pin),
            Expected::TagAndGlobs | Expected::TagAndAnyGlobs => Some(Form::Tag),
            Expected::SomeGlobs | Expected::AnyGlobs => Some(Form::Glob),
            _ => Some(Form::Name),
        }
    }

    /// Whether one more operand has to come. No memory.
    pub fn is_needed(self) -> bool
        ensures { result ≡ is_needed self }
    {
        match self {
            Expected::Nothing
            | Expected::MayName
            | Expected::AnyNames
            | Expected::MayNameAndRevision
            | Expected::MayRevision
            | Expected::MayNameAndWords
            | Expected::AnyWords
            | Expected::AnyGlobs => false,
            _ => true,
        }
    }

    // What comes after the first operand of `pinning`.
    fn after_pin(with_all: bool, pin: Option<PinWord>) -> Expected
        ensures { result ≡ after_pin with_all pin }
    {
        match pin {
            Some(PinWord::Add) => Expected::TagAndGlobs,
            Some(PinWord::Remove) => {
                if with_all {
                    Expected::TagAndAnyGlobs
                } else {
                    Expected::TagAndGlobs
                }
            }
            _ => Expected::Nothing,
        }
    }

    /// What may come after an operand. No memory.
    pub fn after(self, word: &[u8]) -> Expected
        ensures { result ≡ after self word.now }
    {
        match self {
            Expected::SomeNames | Expected::AnyNames => Expected::AnyNames,
            Expected::MayNameAndRevision => Expected::MayRevision,
            Expected::MayNameAndWords | Expected::AnyWords => Expected::AnyWords,
            Expected::Pins => Expected::after_pin(false, PinWord::read(word)),
            Expected::PinsWithAll => Expected::after_pin(true, PinWord::read(word)),
            Expected::TagAndGlobs => Expected::SomeGlobs,
            Expected::TagAndAnyGlobs | Expected::SomeGlobs | Expected::AnyGlobs => {
                Expected::AnyGlobs
            }
            _ => Expected::Nothing,
        }
    }
}
