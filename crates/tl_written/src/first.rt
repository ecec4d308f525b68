// The first lines of an entry.
ghost use Rattle.std.specs.Prelude.{◌≡◌, ◌++◌, ◌<◌, ◌^◌, ℕ, ⊤, Bool, codes, true, List, [], IfSome};
ghost use Rattle.tl_object.specs.Formed.{HasFormedFront};
ghost use Rattle.tl_object.specs.Writing.{key_line, number_line, category_word, relocated_line, first_lines};
ghost use Rattle.tl_written.specs.Stands.{Stands};
ghost use Rattle.tl_written.specs.Found.{Lacks, Finds, FindsOne};
ghost use Rattle.tl_written.specs.Pieces.{IsCategory, FirstStand, first_words};
ghost use Rattle.tl_entry.specs.declared.object.Object.{Object};

use crate::lines::{behind, keyed, number_of};
use crate::middle::text_behind;
use tl_path::is_name;

const REVISIONS: u64 = 4_294_967_296;

fn is_category(word: &[u8]) -> bool
    ensures is { (result ≡ true) → IsCategory word.now }
    ensures all { IsCategory word.now → result ≡ true }
{
    word == b"Package".as_slice()
        || word == b"TLCore".as_slice()
        || word == b"ConTeXt".as_slice()
        || word == b"Collection".as_slice()
        || word == b"Scheme".as_slice()
}

fn category_behind(text: &[u8]) -> Option<&[u8]>
    ensures stands { IfSome result (λ rest. Stands (λ c. key_line (codes "category") (category_word c)) (λ _. ⊤) text.now rest.now) }
    ensures finds { Finds (λ c. key_line (codes "category") (category_word c)) (λ _. ⊤) [] text.now result }
{
    let (word, rest) = keyed(text, b"category")?;
    if is_category(word) { Some(rest) } else { None }
}

fn revision_behind(text: &[u8]) -> Option<&[u8]>
    ensures stands { IfSome result (λ rest. Stands (number_line (codes "revision")) (λ n. n < 2 ^ 32) text.now rest.now) }
    ensures finds { Finds (number_line (codes "revision")) (λ n. n < 2 ^ 32) [] text.now result }
{
    let (digits, rest) = keyed(text, b"revision")?;
    if number_of(digits)? < REVISIONS {
        Some(rest)
    } else {
        None
    }
}

fn relocated_behind(text: &[u8]) -> &[u8]
    ensures stands { Stands relocated_line (λ _. ⊤) text.now result.now }
    ensures finds { (is_relocated : Bool) (rest : List ℕ) → Lacks rest (codes "relocated 1\n") → text.now ≡ relocated_line is_relocated ++ rest → result.now ≡ rest }
{
    match behind(text, b"relocated 1\n") {
        Some(rest) => rest,
        None => text,
    }
}

/// The name of an entry, and what stands behind its first lines.
pub(crate) fn first_behind(text: &[u8]) -> Option<(&[u8], &[u8])>
    ensures stands { IfSome result (λ parts. FirstStand parts.0.now text.now parts.1.now) }
    ensures finds { FindsOne (λ (o : Object). o.name) first_lines HasFormedFront first_words text.now result }
{
    let (name, rest) = keyed(text, b"name")?;
    if !is_name(name) {
        return None;
    }
    let rest = category_behind(rest)?;
    let rest = revision_behind(rest)?;
    let rest = text_behind(rest, b"catalogue")?;
    let rest = text_behind(rest, b"shortdesc")?;
    Some((name, relocated_behind(rest)))
}
