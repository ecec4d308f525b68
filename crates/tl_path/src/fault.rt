// Where a text fails to be a path.
ghost use Rattle.std.specs.Prelude.{◌≡◌, ◌≤◌, ◌<◌, ◌||◌, length, position, fold, zip, true, false, IfSome, None, Some};
ghost use Rattle.tl_path.specs.Bytes.{is_barred};
ghost use Rattle.tl_path.specs.Inside.{is_doubtful};
ghost use Rattle.tl_path.specs.Path.{earlier, size_fault, byte_fault, component_fault, place_fault};

use crate::bytes::is_barred;
use crate::components::{Components, is_no_component};

/// The ways in which a text fails to be a path.
#[derive(Clone, Copy, Debug, PartialEq, Eq)]
pub enum PathKind {
    /// It has no byte.
    Empty,
    /// It has more than 1,024 bytes; the place is 1,024.
    Long,
    /// Here its longest front that is UTF-8 ends.
    Utf8,
    /// A byte of 0x20 or less, 0x7F, `"` or `\`.
    Byte,
    /// Here a component begins that is empty, `.` or `..`.
    Component,
    /// Here the 65th component begins.
    Deep,
}

/// The first fault of a text that isn't a path: the byte it stands at, counted from 0, and its kind.
#[derive(Clone, Copy, Debug, PartialEq, Eq)]
pub struct PathFault {
    /// The place, in bytes from the text's start.
    pub at: u32,
    /// The kind; at one place the first of `Utf8`, `Byte`, `Component` and `Deep`.
    pub kind: PathKind,
}

const LONGEST: usize = 1024;

const MOST_COMPONENTS: u32 = 64;

// A shorter text has no more than 64 components, if none is empty.
const DEEP_FROM: usize = 128;

// The fault at the lesser place; the first one where both have one place.
fn earlier(first: Option<PathFault>, second: Option<PathFault>) -> Option<PathFault>
    ensures { result ≡ earlier first second }
{
    match first {
        Some(first) => Some(earlier_of(first, second)),
        None => second,
    }
}

pub(crate) fn earlier_of(first: PathFault, second: Option<PathFault>) -> PathFault
    ensures { earlier (Some first) second ≡ Some result }
{
    match second {
        Some(second) if second.at < first.at => second,
        _ => first,
    }
}

pub(crate) fn size_fault(text: &[u8]) -> Option<PathFault>
    ensures { result ≡ size_fault text.now }
{
    if text.is_empty() {
        Some(PathFault {
            at: 0,
            kind: PathKind::Empty,
        })
    } else if text.len() > LONGEST {
        Some(PathFault {
            at: 1024,
            kind: PathKind::Long,
        })
    } else {
        None
    }
}

fn byte_fault(text: &[u8]) -> Option<PathFault>
    requires { length text.now ≤ 1024 }
    ensures { result ≡ byte_fault text.now }
{
    match first_barred(text) {
        Some(at) => Some(PathFault {
            at: at as u32,
            kind: PathKind::Byte,
        }),
        None => None,
    }
}

fn first_barred(text: &[u8]) -> Option<usize>
    ensures place { result ≡ position is_barred text.now }
    ensures within { IfSome result (λ at. at < length text.now) }
{
    if has_barred(text) {
        text.iter().position(|byte| is_barred(*byte))
    } else {
        None
    }
}

// This form, with no early exit, takes several bytes at a time.
fn has_barred(text: &[u8]) -> bool
    ensures { result ≡ fold (λ bad byte. bad || is_barred byte) false text.now }
{
    text.iter().fold(false, |bad, byte| bad | is_barred(*byte))
}

fn component_fault(text: &[u8]) -> Option<PathFault>
    requires { length text.now ≤ 1024 }
    ensures { result ≡ component_fault text.now }
{
    if has_plain_components(text) {
        None
    } else {
        walked_fault(text)
    }
}

// Whether each component has a first byte other than '.', and there are surely no more than 64. Most paths pass.
fn has_plain_components(text: &[u8]) -> bool
    ensures { (result ≡ true) → component_fault text.now ≡ None }
{
    let [first, rest @ ..] = text else {
        return false;
    };
    let doubtful = is_doubtful(b'/', *first)
        | (text[text.len() - 1] == b'/')
        | has_doubtful_pair(text, rest);
    text.len() < DEEP_FROM && !doubtful
}

// This form, with no early exit, takes several bytes at a time.
fn has_doubtful_pair(text: &[u8], rest: &[u8]) -> bool
    ensures { result ≡ fold (λ found pair. found || is_doubtful pair.0 pair.1) false (zip text.now rest.now) }
{
    text.iter().zip(rest).fold(
        false,
        |found, (before, byte)| found | is_doubtful(*before, *byte),
    )
}

// Whether a component that is empty or begins with '.' may stand between the two bytes.
fn is_doubtful(before: u8, byte: u8) -> bool
    ensures { result ≡ is_doubtful before byte }
{
    (before == b'/') & ((byte == b'/') | (byte == b'.'))
}

fn walked_fault(text: &[u8]) -> Option<PathFault>
    requires { length text.now ≤ 1024 }
    ensures { result ≡ component_fault text.now }
{
    let mut at = 0;
    let mut count = 0;
    for component in Components::of(text) {
        if is_no_component(component) {
            return Some(PathFault {
                at,
                kind: PathKind::Component,
            });
        }
        if count == MOST_COMPONENTS {
            return Some(PathFault {
                at,
                kind: PathKind::Deep,
            });
        }
        at += component.len() as u32 + 1;
        count += 1;
    }
    None
}

/// The first fault of a text of 1 to 1,024 bytes that is UTF-8.
pub(crate) fn place_fault(text: &[u8]) -> Option<PathFault>
    requires { length text.now ≤ 1024 }
    ensures { result ≡ place_fault text.now }
{
    earlier(byte_fault(text), component_fault(text))
}
