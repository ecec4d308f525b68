// Some platforms, as of a tree.
ghost use Rattle.std.specs.Prelude.{◌≡◌, ◌<◌, ◌^◌, ◌++◌, [], ◌∷◌, length, slice_get, nat_eq, true, MatchBool, MatchResult, OnOk, bytes_eq, Some};
ghost use Rattle.std.specs.Option.{option_copied};
ghost use Rattle.std.specs.Cmp.{partial_equiv_from_equiv};
ghost use Rattle.std.specs.Cmp.Lexicographic.{pointwise, nat_list_eq_equiv, lists_equiv};
ghost use Rattle.std.specs.List.{join_with_byte, list_any};
ghost use Rattle.tl_path.specs.Names.{is_platform};
ghost use Rattle.tl_path.specs.Platforms.{ArePlatforms, ArePlatformsInOrder, AreListed};
ghost use Rattle.tl_path.specs.Errors.{IsPlatformsErrorOf};

use crate::error::PlatformsError;
use crate::platform::{Parts, Platform, is_platform};
use std::alloc::{AllocError, Global};
use std::fmt;
use std::marker::Model;

/// Up to 32 platforms in the order of their bytes, no two the same.
#[derive(Drop)]
pub struct Platforms {
    names: Vec<Platform>,
}

impl Model for Platforms {
    ghost use Rattle.std.specs.Prelude.{List, ℕ};
    ghost use Rattle.tl_path.specs.Platforms.{ArePlatformsInOrder};

    ghost Value = { List (List ℕ) };

    ghost view = { λ a. a.names.items };

    ghost invariant = { λ a. ArePlatformsInOrder a.names.items };
}

const MOST: usize = 32;

impl Platforms {
    /// No platforms.
    pub fn none(alloc: Global) -> Platforms
        ensures { result ≡ [] }
    {
        Platforms {
            names: Vec::new(alloc),
        }
    }

    /// Reads distinct platforms that blanks part, in any order. `BadPlatforms` is the place of the first word that is
    /// no platform, repeats one before it or is the 33rd. `NoMemory` says nothing of the text.
    pub fn parse(alloc: Global, text: &[u8]) -> Result<Platforms, PlatformsError>
        requires { length text.now < 2 ^ 32 }
        ensures { MatchResult result (AreListed text.now) (IsPlatformsErrorOf text.now) }
    {
        let mut names = Vec::new(alloc);
        let mut at = 0;
        for part in Parts::of(text) {
            if !part.is_empty() {
                if is_refused(&names, part) {
                    return Err(PlatformsError::BadPlatforms { at: at as u32 });
                }
                add(alloc, &mut names, part)?;
            }
            at += part.len() + 1;
        }
        names.sort_unstable();
        Ok(Platforms { names })
    }

    /// How many platforms there are.
    pub fn len(&self) -> u32
        ensures len { result ≡ length self.now }
        ensures order { ArePlatformsInOrder self.now }
    {
        self.names.len() as u32
    }

    /// The platform with this number, counted from 0; `None` exactly where it isn't below `len`.
    pub fn get(&self, i: u32) -> Option<&[u8]>
        ensures platform { option_copied result ≡ slice_get self.now i }
        ensures order { ArePlatformsInOrder self.now }
    {
        match self.names.get(i as usize) {
            Some(name) => Some(name.bytes()),
            None => None,
        }
    }
}

impl Clone for Platforms {
    ghost is_clone = { λ s t. t ≡ s };

    fn clone(&self) -> Result<Platforms, AllocError> {
        Ok(Platforms {
            names: self.names.clone()?,
        })
    }
}

impl PartialEq for Platforms {
    ghost eq = { pointwise (pointwise nat_eq) };

    ghost laws = { partial_equiv_from_equiv (lists_equiv nat_list_eq_equiv) };

    fn eq(&self, other: &Platforms) -> bool {
        self.names == other.names
    }
}

impl Eq for Platforms {
    ghost laws = { lists_equiv nat_list_eq_equiv };
}

// The platforms, joined by one space.
impl fmt::Display for Platforms {
    ghost output = { λ names. Some (join_with_byte 32 names) };

    fn fmt<W: fmt::Write>(&self, f: &mut fmt::Formatter<W>) -> fmt::Result {
        if let [first, rest @ ..] = self.names.as_slice() {
            f.write_str(first.text())?;
            for name in rest {
                write!(f, " {}", name.text())?;
            }
        }
        Ok(())
    }
}

fn add(alloc: Global, names: &mut Vec<Platform>, word: &[u8]) -> Result<(), AllocError>
    requires { is_platform word.now ≡ true }
    ensures { OnOk result (names.new.items ≡ names.old.items ++ word.now ∷ []) }
{
    names.push(Platform::of(alloc, word)?)?;
    Ok(())
}

// Whether a word can't stand behind those names in a text.
fn is_refused(names: &[Platform], word: &[u8]) -> bool
    requires { ArePlatforms names.now }
    ensures { MatchBool result (¬ (ArePlatforms (names.now ++ word.now ∷ []))) (ArePlatforms (names.now ++ word.now ∷ [])) }
{
    names.len() >= MOST || !is_platform(word) || has(names, word)
}

fn has(names: &[Platform], word: &[u8]) -> bool
    ensures { result ≡ list_any (λ name. bytes_eq name word.now) names.now }
{
    names.iter().any(|name| name.bytes() == word)
}
