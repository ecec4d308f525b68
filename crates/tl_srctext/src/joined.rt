//! The lines of a source, where a backslash before a line's end joins a line with the next one.
ghost use Rattle.std.specs.Prelude.{◌≡◌, ◌∷◌, ◌+◌, ◌<◌, ◌≤◌, ◌^◌, ◌==◌, [], Some, length, IfOk, IfSome, ⊤};
ghost use Rattle.std.specs.List.{slice_split};
ghost use Rattle.std.specs.Option.{option_copied};
ghost use Rattle.tl_srctext.specs.Joined.{last_byte, less_last, less_return, is_continued};
ghost use Rattle.tl_srctext.specs.Steps.{lines_from};

use memchr::memchr;
use std::alloc::AllocError;

// What stands behind a line: the number of its first line, and its text. There is none where the line had no end.
#[derive(Drop)]
pub(crate) struct Behind<'a> {
    pub number: u32,
    pub text: Option<&'a [u8]>,
}

// A text without its last byte.
fn less_last(text: &[u8]) -> &[u8]
    ensures { result.now ≡ less_last text.now }
{
    match text {
        [] => text,
        [front @ .., _] => front,
    }
}

// Whether a text ends with a byte other than 0.
fn ends_with(text: &[u8], byte: u8) -> bool
    requires { 0 < byte }
    ensures { result ≡ (last_byte text.now == byte) }
{
    match text {
        [] => false,
        [.., last] => *last == byte,
    }
}

// What stands before a line's end, without the carriage return directly before it.
fn less_return(line: &[u8]) -> &[u8]
    ensures { result.now ≡ less_return line.now }
{
    if ends_with(line, b'\r') {
        less_last(line)
    } else {
        line
    }
}

// Puts the first line of a text with this number into `line`, with those that backslashes join to it.
pub(crate) fn take_joined<'a>(
    line: &mut Vec<u8>,
    number: u32,
    text: &'a [u8],
) -> Result<Behind<'a>, AllocError>
    requires { number + length text.now < 2 ^ 32 }
    ensures line { IfOk result (λ behind. lines_from number (Some text.now)
        ≡ record { number = number; text = line.new.items } ∷ lines_from behind.number (option_copied behind.text)) }
    ensures shorter { IfOk result (λ behind. IfSome behind.text (λ rest. (length rest.now < length text.now)
        × (behind.number + length rest.now ≤ number + length text.now))) }
{
    line.clear();
    let mut next = number;
    let mut rest = text;
    while let Some(end) = memchr(b'\n', rest) {
        let part = less_return(&rest[..end]);
        rest = &rest[end + 1..];
        next += 1;
        if !ends_with(part, b'\\') {
            line.extend_from_slice(part)?;
            return Ok(Behind {
                number: next,
                text: Some(rest),
            });
        }
        line.extend_from_slice(less_last(part))?;
    }
    line.extend_from_slice(rest)?;
    Ok(Behind {
        number: next,
        text: None,
    })
}
