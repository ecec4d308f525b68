//! The lines of a text that count, and texts cut in two.
ghost use Rattle.std.specs.Prelude.{◌≡◌, ◌+◌, ◌<◌, ◌^◌, ◌≤◌, [], ◌∷◌, length, MatchOption, ⊤, true};
ghost use Rattle.tl_model.specs.Lines.{lines};
ghost use Rattle.tl_object.specs.Content.{content, is_comment, entry_lines, lines_left, front, is_full, stretches};
ghost use Rattle.tl_object.specs.Cuts.{cut};

use memchr::memchr;

/// A line that counts, its number, and the text after it.
#[derive(Drop)]
pub(crate) struct Found<'a> {
    pub number: u32,
    pub line: &'a [u8],
    pub rest: &'a [u8],
}

/// What stands before the first such byte of a text and what stands after it; `None` where the text has none.
pub(crate) fn cut_at(text: &[u8], mark: u8) -> Option<(&[u8], &[u8])>
    ensures { MatchOption result (cut mark text.now ≡ None) (λ parts. cut mark text.now ≡ Some (parts.0.now, parts.1.now)) }
{
    match memchr(mark, text) {
        Some(end) => Some((&text[..end], &text[end + 1..])),
        None => None,
    }
}

/// The first line of a text that has one, without its end, and the text after it.
fn first_line(text: &[u8]) -> (&[u8], &[u8])
    requires { 0 < length text.now }
    ensures first { lines text.now ≡ result.0.now ∷ lines result.1.now }
    ensures shorter { length result.1.now < length text.now }
{
    match memchr(b'\n', text) {
        Some(end) => (&text[..end], &text[end + 1..]),
        None => (text, &[]),
    }
}

fn starts_comment(line: &[u8]) -> bool
    ensures { result ≡ is_comment line.now }
{
    match line {
        [] => false,
        [first, ..] => *first == b'#',
    }
}

/// The first line of a text that counts, where this many lines stand before the text; `None` where none does.
pub(crate) fn next_line(before: u32, text: &[u8]) -> Option<Found<'_>>
    requires { before + length text.now < 2 ^ 32 }
    ensures line { MatchOption result (content before text.now ≡ []) (λ found. content before text.now ≡ (found.number, found.line.now) ∷ content found.number found.rest.now) }
    ensures shorter { MatchOption result ⊤ (λ found. length found.rest.now < length text.now) }
    ensures fits { MatchOption result ⊤ (λ found. found.number + length found.rest.now ≤ before + length text.now) }
{
    let mut number = before;
    let mut rest = text;
    while !rest.is_empty() {
        let (line, after) = first_line(rest);
        number += 1;
        rest = after;
        if !starts_comment(line) {
            return Some(Found { number, line, rest });
        }
    }
    None
}

/// The first line that counts of an entry that ends at the text's end, or, where it `stops`, before the first empty line;
/// `None` where the entry has no more.
pub(crate) fn next_entry_line(stops: bool, before: u32, text: &[u8]) -> Option<Found<'_>>
    requires { before + length text.now < 2 ^ 32 }
    ensures line { MatchOption result (entry_lines stops (content before text.now) ≡ [])
        (λ found. entry_lines stops (content before text.now) ≡ (found.number, found.line.now) ∷ entry_lines stops (content found.number found.rest.now)) }
    ensures left { MatchOption result ⊤ (λ found. lines_left stops (content before text.now) ≡ lines_left stops (content found.number found.rest.now)) }
    ensures shorter { MatchOption result ⊤ (λ found. length found.rest.now < length text.now) }
    ensures fits { MatchOption result ⊤ (λ found. found.number + length found.rest.now ≤ before + length text.now) }
{
    match next_line(before, text) {
        Some(found) => {
            if stops && found.line.is_empty() {
                None
            } else {
                Some(found)
            }
        }
        None => None,
    }
}

/// Where the next entry of a text with several begins: the number of lines before it, and the text from its first line on;
/// `None` where no line is left but empty ones and those that are passed over.
pub fn next_entry(before: u32, text: &[u8]) -> Option<(u32, &[u8])>
    requires { before + length text.now < 2 ^ 32 }
    ensures same { MatchOption result (stretches (content before text.now) ≡ []) (λ at. stretches (content before text.now) ≡ stretches (content at.0 at.1.now)) }
    ensures full { MatchOption result ⊤ (λ at. is_full (front (content at.0 at.1.now)) ≡ true) }
    ensures shorter { MatchOption result ⊤ (λ at. length at.1.now ≤ length text.now) }
    ensures fits { MatchOption result ⊤ (λ at. at.0 + length at.1.now ≤ before + length text.now) }
{
    let mut number = before;
    let mut rest = text;
    while let Some(found) = next_line(number, rest) {
        if !found.line.is_empty() {
            return Some((number, rest));
        }
        number = found.number;
        rest = found.rest;
    }
    None
}
