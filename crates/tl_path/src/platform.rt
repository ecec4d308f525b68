// One platform, and the parts of a text between its blanks.
ghost use Rattle.std.specs.Prelude.{◌≡◌, ◌+◌, ◌<◌, [], ◌∷◌, nat_eq, refl, true, Some, length, take, drop, position, IfOk, MatchOption};
ghost use Rattle.std.specs.List.{slice_split};
ghost use Rattle.std.specs.Iterator.{YieldsFirstRef, item_count};
ghost use Rattle.std.specs.Ordering.{nat_cmp};
ghost use Rattle.std.specs.Cmp.{partial_equiv_from_equiv};
ghost use Rattle.std.specs.Cmp.Lexicographic.{pointwise, slice_cmp, nat_list_eq_equiv, nat_list_cmp_total, texts_ties, texts_po};
ghost use Rattle.tl_path.specs.Bytes.{is_blank};
ghost use Rattle.tl_path.specs.Names.{is_platform};

use crate::bytes::is_blank;
use crate::word::{WordKind, text_of};
use std::alloc::{AllocError, Global};
use std::cmp::Ordering;
use std::marker::Model;

/// A platform: 1 to 32 lower case letters of ASCII, digits, `_` and `-`, the first a letter or digit. Its order is that of
/// its bytes.
#[derive(Drop)]
pub struct Platform {
    text: String,
}

impl Model for Platform {
    ghost use Rattle.std.specs.Prelude.{◌≡◌, List, ℕ, true, string_bytes};
    ghost use Rattle.tl_path.specs.Names.{is_platform};

    ghost Value = { List ℕ };

    ghost view = { λ a. string_bytes a.text };

    ghost invariant = { λ a. is_platform (string_bytes a.text) ≡ true };
}

impl Platform {
    /// The platform of a text that has the form of one.
    #[tactic(auto, using(crate::proofs::Parts::platform_utf8))]
    pub fn of(alloc: Global, text: &[u8]) -> Result<Platform, AllocError>
        requires { is_platform text.now ≡ true }
        ensures { IfOk result (λ platform. platform ≡ text.now) }
    {
        Ok(Platform {
            text: String::from_str(alloc, text_of(text))?,
        })
    }

    /// The platform's bytes. Takes no memory.
    pub fn bytes(&self) -> &[u8]
        ensures bytes { result.now ≡ self.now }
        ensures platform { is_platform self.now ≡ true }
    {
        self.text.as_bytes()
    }

    /// The platform's text. Takes no memory.
    pub fn text(&self) -> &str
        ensures { result.now ≡ self.now }
    {
        self.text.as_str()
    }
}

impl Clone for Platform {
    ghost is_clone = { λ s t. t ≡ s };

    fn clone(&self) -> Result<Platform, AllocError> {
        Ok(Platform {
            text: self.text.clone()?,
        })
    }
}

impl PartialEq for Platform {
    ghost eq = { pointwise nat_eq };

    ghost laws = { partial_equiv_from_equiv nat_list_eq_equiv };

    fn eq(&self, other: &Platform) -> bool {
        self.text() == other.text()
    }
}

impl Eq for Platform {
    ghost laws = { nat_list_eq_equiv };
}

impl PartialOrd for Platform {
    ghost partial_cmp = { λ x y. Some (slice_cmp nat_cmp x y) };

    ghost laws = { texts_po };

    fn partial_cmp(&self, other: &Platform) -> Option<Ordering> {
        Some(self.cmp(other))
    }
}

impl Ord for Platform {
    ghost cmp = { slice_cmp nat_cmp };

    ghost total = { nat_list_cmp_total };

    ghost matches_partial_cmp = { λ x y. refl };

    ghost matches_eq = { texts_ties };

    fn cmp(&self, other: &Platform) -> Ordering {
        self.text().cmp(other.text())
    }
}

/// Whether a text has the form of a platform. Takes no memory.
pub fn is_platform(text: &[u8]) -> bool
    ensures { result ≡ is_platform text.now }
{
    WordKind::Platform.is_met(text)
}

// An iterator over the parts of a text that blanks part.
#[derive(Drop)]
pub(crate) struct Parts<'a> {
    rest: Option<&'a [u8]>,
}

impl<'a> Parts<'a> {
    ghost use Rattle.tl_path.specs.Inside.{parts_left};

    pub(crate) fn of(text: &'a [u8]) -> Parts<'a>
        ensures { parts_left result ≡ slice_split is_blank text.now }
    {
        Parts { rest: Some(text) }
    }
}

impl<'a> Iterator for Parts<'a> {
    ghost use Rattle.tl_path.specs.Inside.{parts_left};

    type Item = &'a [u8];

    ghost next_gives = { YieldsFirstRef parts_left };

    ghost remaining = { item_count parts_left };

    fn next(&mut self) -> Option<&'a [u8]> {
        let rest = self.rest?;
        match part_end(rest) {
            Some(end) => {
                self.rest = Some(&rest[end + 1..]);
                Some(&rest[..end])
            }
            None => {
                self.rest = None;
                Some(rest)
            }
        }
    }
}

// Where the first part ends: at the first blank, or with the text where this answers None.
fn part_end(text: &[u8]) -> Option<usize>
    ensures { MatchOption result (slice_split is_blank text.now ≡ text.now ∷ [])
        (λ end. (end < length text.now)
        × (slice_split is_blank text.now ≡ take end text.now ∷ slice_split is_blank (drop (end + 1) text.now))) }
{
    first_blank(text)
}

fn first_blank(text: &[u8]) -> Option<usize>
    ensures { result ≡ position is_blank text.now }
{
    text.iter().position(|byte| is_blank(*byte))
}
