// A package's name.
ghost use Rattle.std.specs.Prelude.{◌≡◌, nat_eq, refl, true, false, Some, MatchResult};
ghost use Rattle.std.specs.List.{prefix_len};
ghost use Rattle.std.specs.Ordering.{nat_cmp};
ghost use Rattle.std.specs.Hash as fed;
ghost use Rattle.std.specs.Cmp.{partial_equiv_from_equiv};
ghost use Rattle.std.specs.Cmp.Rules.{hashing};
ghost use Rattle.std.specs.Cmp.Lexicographic.{pointwise, slice_cmp, nat_list_eq_equiv, nat_list_cmp_total, texts_ties, texts_po};
ghost use Rattle.std.proofs.Common.{rules};
ghost use Rattle.tl_path.specs.Bytes.{is_of_name};
ghost use Rattle.tl_path.specs.Names.{is_name, IsLongestNameFront};
ghost use Rattle.tl_path.specs.Errors.{IsNameErrorOf};

use crate::bytes::{is_letter_or_digit, is_of_name};
use crate::error::NameError;
use crate::word::{WordKind, text_of};
use std::alloc::{AllocError, Global};
use std::cmp::Ordering;
use std::fmt;
use std::hash::{Hash, Hasher};
use std::marker::Model;

/// A package's name: 1 to 128 letters of ASCII, digits, `.`, `_`, `-` and `+`, the first a letter or digit. Its
/// order is that of its bytes.
#[derive(Drop)]
pub struct Name {
    text: String,
}

impl Model for Name {
    ghost use Rattle.std.specs.Prelude.{◌≡◌, List, ℕ, true, string_bytes};
    ghost use Rattle.tl_path.specs.Names.{is_name};

    ghost Value = { List ℕ };

    ghost view = { λ a. string_bytes a.text };

    ghost invariant = { λ a. is_name (string_bytes a.text) ≡ true };
}

impl Name {
    /// Reads a name. `BadName` comes exactly for a text that is none; `NoMemory` comes only for a name.
    #[tactic(auto, using(crate::proofs::Words::name_utf8))]
    pub fn parse(alloc: Global, text: &[u8]) -> Result<Name, NameError>
        ensures { MatchResult result (λ name. (name ≡ text.now) × (is_name text.now ≡ true)) (IsNameErrorOf text.now) }
    {
        if !is_name(text) {
            return Err(NameError::BadName {
                at: name_front(text),
            });
        }
        match String::from_str(alloc, text_of(text)) {
            Ok(text) => Ok(Name { text }),
            Err(_) => Err(NameError::NoMemory),
        }
    }

    /// The name's bytes.
    pub fn bytes(&self) -> &[u8]
        ensures bytes { result.now ≡ self.now }
        ensures name { is_name self.now ≡ true }
    {
        self.text.as_bytes()
    }

    /// The name's text.
    pub fn text(&self) -> &str
        ensures text { result.now ≡ self.now }
        ensures name { is_name self.now ≡ true }
    {
        self.text.as_str()
    }
}

impl Clone for Name {
    ghost is_clone = { λ s t. t ≡ s };

    fn clone(&self) -> Result<Name, AllocError> {
        Ok(Name {
            text: self.text.clone()?,
        })
    }
}

impl PartialEq for Name {
    ghost eq = { pointwise nat_eq };

    ghost laws = { partial_equiv_from_equiv nat_list_eq_equiv };

    fn eq(&self, other: &Name) -> bool {
        self.text() == other.text()
    }
}

impl Eq for Name {
    ghost laws = { nat_list_eq_equiv };
}

impl PartialOrd for Name {
    ghost partial_cmp = { λ x y. Some (slice_cmp nat_cmp x y) };

    ghost laws = { texts_po };

    fn partial_cmp(&self, other: &Name) -> Option<Ordering> {
        Some(self.cmp(other))
    }
}

impl Ord for Name {
    ghost cmp = { slice_cmp nat_cmp };

    ghost total = { nat_list_cmp_total };

    ghost matches_partial_cmp = { λ x y. refl };

    ghost matches_eq = { texts_ties };

    fn cmp(&self, other: &Name) -> Ordering {
        self.text().cmp(other.text())
    }
}

impl Hash for Name {
    ghost hash_input = { fed.str };

    ghost respects_eq = { Prim.search (hashing, rules) };

    fn hash<H: Hasher>(&self, state: &mut H) {
        self.text().hash(state);
    }
}

impl fmt::Display for Name {
    ghost output = { λ name. Some name };

    fn fmt<W: fmt::Write>(&self, f: &mut fmt::Formatter<W>) -> fmt::Result {
        f.write_str(self.text())
    }
}

impl fmt::Debug for Name {
    fn fmt<W: fmt::Write>(&self, f: &mut fmt::Formatter<W>) -> fmt::Result {
        fmt::Debug::fmt(self.text(), f)
    }
}

/// Whether bytes are a name. Takes no memory.
pub fn is_name(text: &[u8]) -> bool
    ensures { result ≡ is_name text.now }
{
    WordKind::Name.is_met(text)
}

// How long the longest front is that some name begins with too.
#[tactic(auto, using(crate::proofs::Words::longest_front, crate::proofs::Words::no_front))]
fn name_front(text: &[u8]) -> u32
    requires { is_name text.now ≡ false }
    ensures { IsLongestNameFront text.now result }
{
    if !text.is_empty() && is_letter_or_digit(text[0]) {
        leading(text).min(WordKind::Name.longest()) as u32
    } else {
        0
    }
}

// How many bytes at the front a name may have.
fn leading(text: &[u8]) -> usize
    ensures { result ≡ prefix_len is_of_name text.now }
{
    text.iter().take_while(|byte| is_of_name(**byte)).count()
}
