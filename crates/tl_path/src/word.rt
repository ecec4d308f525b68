//! Short texts of ASCII, each kind with its bytes and its length.
ghost use Rattle.std.specs.Prelude.{◌≡◌};
ghost use Rattle.std.specs.List.{list_all};
ghost use Rattle.std.specs.Str.{IsUtf8};
ghost use Rattle.tl_path.specs.Inside.{first_byte, further_byte, longest, is_of_kind};

use crate::bytes::{is_letter_or_digit, is_lower_or_digit, is_of_name, is_of_platform, is_of_tag};

// What a short text is.
#[derive(Clone, Copy)]
pub(crate) enum WordKind {
    Name,
    Tag,
    Platform,
}

impl WordKind {
    pub(crate) fn is_met(self, text: &[u8]) -> bool
        ensures { result ≡ is_of_kind self text.now }
    {
        !text.is_empty()
            && text.len() <= self.longest()
            && self.may_begin(text[0])
            && self.has_only_its_bytes(text)
    }

    pub(crate) fn longest(self) -> usize
        ensures { result ≡ longest self }
    {
        match self {
            WordKind::Name => 128,
            WordKind::Tag => 64,
            WordKind::Platform => 32,
        }
    }

    fn may_begin(self, byte: u8) -> bool
        ensures { result ≡ first_byte self byte }
    {
        match self {
            WordKind::Platform => is_lower_or_digit(byte),
            WordKind::Name | WordKind::Tag => is_letter_or_digit(byte),
        }
    }

    fn may_have(self, byte: u8) -> bool
        ensures { result ≡ further_byte self byte }
    {
        match self {
            WordKind::Name => is_of_name(byte),
            WordKind::Tag => is_of_tag(byte),
            WordKind::Platform => is_of_platform(byte),
        }
    }

    fn has_only_its_bytes(self, text: &[u8]) -> bool
        ensures { result ≡ list_all (further_byte self) text.now }
    {
        text.iter().all(|byte| self.may_have(*byte))
    }
}

// The text of bytes that are known to be one.
pub(crate) fn text_of(bytes: &[u8]) -> &str
    requires { IsUtf8 bytes.now }
    ensures { result.now ≡ bytes.now }
{
    // Each caller owes that they are UTF-8.
    unsafe { std::str::from_utf8_unchecked(bytes) }
}
