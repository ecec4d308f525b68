// What the catalogue says.
ghost use Rattle.std.specs.Prelude.{◌≡◌, ◌++◌, [], ℕ, codes, List, All, IfSome};
ghost use Rattle.std.specs.List.{flat_map};
ghost use Rattle.tl_entry.specs.Parts.{FactEntry};
ghost use Rattle.tl_object.specs.Formed.{IsFormedFact};
ghost use Rattle.tl_object.specs.Writing.{fact_line};
ghost use Rattle.tl_written.specs.Stands.{Stands};
ghost use Rattle.tl_written.specs.Found.{Lacks, Finds};
ghost use Rattle.tl_written.specs.Pieces.{FactsStand};

use crate::lines::{behind, cut_at, is_text, line_behind};
use tl_entry::is_fact_key;

fn fact_behind(text: &[u8]) -> Option<&[u8]>
    ensures stands { IfSome result (λ rest. Stands fact_line IsFormedFact text.now rest.now) }
    ensures finds { Finds fact_line IsFormedFact [] text.now result }
{
    let (line, rest) = line_behind(behind(text, b"catalogue-")?)?;
    let (key, value) = cut_at(line, b' ')?;
    if is_fact_key(key) && is_text(value) {
        Some(rest)
    } else {
        None
    }
}

/// What stands behind facts.
pub(crate) fn facts_behind(text: &[u8]) -> &[u8]
    ensures stand { FactsStand text.now result.now }
    ensures finds { (facts : List FactEntry) (rest : List ℕ) → All IsFormedFact facts → Lacks rest (codes "catalogue-") → text.now ≡ flat_map fact_line facts ++ rest → result.now ≡ rest }
{
    let mut rest = text;
    while let Some(behind) = fact_behind(rest) {
        rest = behind;
    }
    rest
}
