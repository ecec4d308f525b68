//! The words of a text, without memory.
ghost use Rattle.std.specs.Prelude.{◌≡◌, ◌<◌, [], ◌∷◌, not, length, position, MatchOption, IfSome};
ghost use Rattle.tl_model.specs.Words.{is_blank, fields};
ghost use Rattle.tl_entry.specs.Rising.{has_key};
ghost use Rattle.tl_db.specs.Options.{are_platforms};

use tl_path::is_platform;

const MOST: usize = 32;

fn is_blank(byte: u8) -> bool
    ensures { result ≡ is_blank byte }
{
    byte == b' ' || byte == b'\t'
}

fn place_of_blank(text: &[u8]) -> Option<usize>
    ensures { result ≡ position is_blank text.now }
{
    text.iter().position(|byte| is_blank(*byte))
}

fn place_of_word(text: &[u8]) -> Option<usize>
    ensures { result ≡ position (λ b. not (is_blank b)) text.now }
{
    text.iter().position(|byte| !is_blank(*byte))
}

// The first word of a text, and what stands behind it.
fn split_word(text: &[u8]) -> Option<(&[u8], &[u8])>
    ensures words { MatchOption result (fields text.now ≡ []) (λ parts. fields text.now ≡ parts.0.now ∷ fields parts.1.now) }
    ensures shorter { IfSome result (λ parts. length parts.1.now < length text.now) }
{
    let Some(start) = place_of_word(text) else {
        return None;
    };
    let (_, rest) = text.split_at(start);
    match place_of_blank(rest) {
        Some(end) => Some(rest.split_at(end)),
        None => Some((rest, &[])),
    }
}

/// Whether a text has a word.
pub(crate) fn has_word(text: &[u8], word: &[u8]) -> bool
    ensures { result ≡ has_key (λ w. w) word.now (fields text.now) }
{
    let mut rest = text;
    while let Some((first, behind)) = split_word(rest) {
        if first == word {
            return true;
        }
        rest = behind;
    }
    false
}

/// Whether the words of a text are platforms, no two the same and at most 32.
pub(crate) fn are_platforms(text: &[u8]) -> bool
    ensures { result ≡ are_platforms (fields text.now) }
{
    let mut rest = text;
    let mut count = 0;
    while let Some((word, behind)) = split_word(rest) {
        if count == MOST || !is_platform(word) || has_word(behind, word) {
            return false;
        }
        count += 1;
        rest = behind;
    }
    true
}
