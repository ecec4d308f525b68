// Lines and their values.
ghost use Rattle.std.specs.Prelude.{◌≡◌, ◌==◌, ◌++◌, ◌∷◌, ◌<◌, ◌^◌, ℕ, true, false, List, All, IfSome, IfNone, IsSomeAnd};
ghost use Rattle.tl_model.specs.Decimal.{decimal_text};
ghost use Rattle.tl_model.specs.Lines.{IsLine};
ghost use Rattle.tl_text.specs.Texts.{IsText};
ghost use Rattle.tl_entry.specs.Rising.{comes_before};
ghost use Rattle.tl_object.specs.Writing.{key_line};
ghost use Rattle.tl_written.specs.Found.{Lacks};

use itoa::Buffer;
use memchr::memchr;
use std::cmp::Ordering;
use tl_text::decimal_u64;

/// What stands before the first such byte of a text, and what stands after it.
pub(crate) fn cut_at(text: &[u8], mark: u8) -> Option<(&[u8], &[u8])>
    ensures stands { IfSome result (λ parts. (text.now ≡ parts.0.now ++ mark ∷ parts.1.now) × All (λ b. (b == mark) ≡ false) parts.0.now) }
    ensures finds { (front rest : List ℕ) → All (λ b. (b == mark) ≡ false) front → text.now ≡ front ++ mark ∷ rest → IsSomeAnd result (λ parts. (parts.0.now ≡ front) × (parts.1.now ≡ rest)) }
{
    let end = memchr(mark, text)?;
    Some((&text[..end], &text[end + 1..]))
}

/// The first line of a text, without its end, and what stands behind it.
pub(crate) fn line_behind(text: &[u8]) -> Option<(&[u8], &[u8])>
    ensures stands { IfSome result (λ parts. (text.now ≡ parts.0.now ++ 10 ∷ parts.1.now) × IsLine parts.0.now) }
    ensures finds { (line rest : List ℕ) → IsLine line → text.now ≡ line ++ 10 ∷ rest → IsSomeAnd result (λ parts. (parts.0.now ≡ line) × (parts.1.now ≡ rest)) }
{
    cut_at(text, b'\n')
}

/// What stands behind a word at the front of a text.
pub(crate) fn behind<'a>(text: &'a [u8], word: &[u8]) -> Option<&'a [u8]>
    ensures stands { IfSome result (λ rest. text.now ≡ word.now ++ rest.now) }
    ensures none { IfNone result (Lacks text.now word.now) }
{
    text.strip_prefix(word)
}

/// The value of the line of a key at the front of a text, and what stands behind that line.
pub(crate) fn keyed<'a>(text: &'a [u8], key: &[u8]) -> Option<(&'a [u8], &'a [u8])>
    ensures stands { IfSome result (λ parts. (text.now ≡ key_line key.now parts.0.now ++ parts.1.now) × IsLine parts.0.now) }
    ensures finds { (value rest : List ℕ) → IsLine value → text.now ≡ key_line key.now value ++ rest → IsSomeAnd result (λ parts. (parts.0.now ≡ value) × (parts.1.now ≡ rest)) }
{
    line_behind(behind(behind(text, key)?, b" ")?)
}

/// Whether a line is a text of one line.
pub(crate) fn is_text(line: &[u8]) -> bool
    requires { IsLine line.now }
    ensures is { (result ≡ true) → IsText line.now }
    ensures all { IsText line.now → result ≡ true }
{
    line.len() <= 65_536 && str::from_utf8(line).is_ok()
}

/// The number that these digits are the written form of.
pub(crate) fn number_of(digits: &[u8]) -> Option<u64>
    ensures stands { IfSome result (λ n. (digits.now ≡ decimal_text n) × (n < 2 ^ 64)) }
    ensures finds { (n : ℕ) → n < 2 ^ 64 → digits.now ≡ decimal_text n → result ≡ Some n }
{
    let Ok(number) = decimal_u64(digits) else {
        return None;
    };
    let mut buffer = Buffer::new();
    if buffer.format(number).as_bytes() == digits {
        Some(number)
    } else {
        None
    }
}

/// Whether a text comes before another, by bytes.
pub(crate) fn comes_before(first: &[u8], second: &[u8]) -> bool
    ensures { result ≡ comes_before first.now second.now }
{
    match first.cmp(second) {
        Ordering::Less => true,
        Ordering::Equal | Ordering::Greater => false,
    }
}
