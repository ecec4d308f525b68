// A repository's tag.
ghost use Rattle.std.specs.Prelude.{◌≡◌, nat_eq, refl, true, Some, MatchResult};
ghost use Rattle.std.specs.Ordering.{nat_cmp};
ghost use Rattle.std.specs.Cmp.{partial_equiv_from_equiv};
ghost use Rattle.std.specs.Cmp.Lexicographic.{pointwise, slice_cmp, nat_list_eq_equiv, nat_list_cmp_total, texts_ties, texts_po};
ghost use Rattle.tl_path.specs.Names.{is_tag};
ghost use Rattle.tl_path.specs.Errors.{IsTagErrorOf};

use crate::error::TagError;
use crate::word::{WordKind, text_of};
use std::alloc::{AllocError, Global};
use std::cmp::Ordering;
use std::fmt;
use std::marker::Model;

/// A repository's tag: 1 to 64 letters of ASCII, digits, `_` and `-`, the first a letter or digit. Its order is that
/// of its bytes.
#[derive(Drop)]
pub struct Tag {
    text: String,
}

impl Model for Tag {
    ghost use Rattle.std.specs.Prelude.{◌≡◌, List, ℕ, true, string_bytes};
    ghost use Rattle.tl_path.specs.Names.{is_tag};

    ghost Value = { List ℕ };

    ghost view = { λ a. string_bytes a.text };

    ghost invariant = { λ a. is_tag (string_bytes a.text) ≡ true };
}

impl Tag {
    /// Reads a tag. `NotTag` comes exactly for a text that is none; `NoMemory` comes only for a tag.
    #[tactic(auto, using(crate::proofs::Words::tag_utf8))]
    pub fn parse(alloc: Global, text: &[u8]) -> Result<Tag, TagError>
        ensures { MatchResult result (λ tag. (tag ≡ text.now) × (is_tag text.now ≡ true)) (IsTagErrorOf text.now) }
    {
        if !is_tag(text) {
            return Err(TagError::NotTag);
        }
        match String::from_str(alloc, text_of(text)) {
            Ok(text) => Ok(Tag { text }),
            Err(_) => Err(TagError::NoMemory),
        }
    }

    /// The tag's bytes.
    pub fn bytes(&self) -> &[u8]
        ensures bytes { result.now ≡ self.now }
        ensures tag { is_tag self.now ≡ true }
    {
        self.text.as_bytes()
    }

    /// The tag's text.
    pub fn text(&self) -> &str
        ensures text { result.now ≡ self.now }
        ensures tag { is_tag self.now ≡ true }
    {
        self.text.as_str()
    }
}

impl Clone for Tag {
    ghost is_clone = { λ s t. t ≡ s };

    fn clone(&self) -> Result<Tag, AllocError> {
        Ok(Tag {
            text: self.text.clone()?,
        })
    }
}

impl PartialEq for Tag {
    ghost eq = { pointwise nat_eq };

    ghost laws = { partial_equiv_from_equiv nat_list_eq_equiv };

    fn eq(&self, other: &Tag) -> bool {
        self.text() == other.text()
    }
}

impl Eq for Tag {
    ghost laws = { nat_list_eq_equiv };
}

impl PartialOrd for Tag {
    ghost partial_cmp = { λ x y. Some (slice_cmp nat_cmp x y) };

    ghost laws = { texts_po };

    fn partial_cmp(&self, other: &Tag) -> Option<Ordering> {
        Some(self.cmp(other))
    }
}

impl Ord for Tag {
    ghost cmp = { slice_cmp nat_cmp };

    ghost total = { nat_list_cmp_total };

    ghost matches_partial_cmp = { λ x y. refl };

    ghost matches_eq = { texts_ties };

    fn cmp(&self, other: &Tag) -> Ordering {
        self.text().cmp(other.text())
    }
}

impl fmt::Display for Tag {
    ghost output = { λ tag. Some tag };

    fn fmt<W: fmt::Write>(&self, f: &mut fmt::Formatter<W>) -> fmt::Result {
        f.write_str(self.text())
    }
}

impl fmt::Debug for Tag {
    fn fmt<W: fmt::Write>(&self, f: &mut fmt::Formatter<W>) -> fmt::Result {
        fmt::Debug::fmt(self.text(), f)
    }
}

/// Whether bytes are a tag. Takes no memory.
pub fn is_tag(text: &[u8]) -> bool
    ensures { result ≡ is_tag text.now }
{
    WordKind::Tag.is_met(text)
}
