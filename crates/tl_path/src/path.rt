// A path that keeps its text.
ghost use Rattle.std.specs.Prelude.{◌≡◌, nat_eq, refl, Some, IfOk, MatchResult};
ghost use Rattle.std.specs.Ordering.{nat_cmp};
ghost use Rattle.std.specs.Hash as fed;
ghost use Rattle.std.specs.Cmp.{partial_equiv_from_equiv};
ghost use Rattle.std.specs.Cmp.Rules.{hashing};
ghost use Rattle.std.specs.Cmp.Lexicographic.{pointwise, slice_cmp, nat_list_eq_equiv, nat_list_cmp_total, texts_ties, texts_po};
ghost use Rattle.std.proofs.Common.{rules};
ghost use Rattle.tl_path.specs.Path.{IsPath};
ghost use Rattle.tl_path.specs.Components.{components, is_below, is_touching};
ghost use Rattle.tl_path.specs.Reserved.{is_reserved};
ghost use Rattle.tl_path.specs.Errors.{IsPathErrorOf};

use crate::below;
use crate::components::Components;
use crate::error::PathError;
use crate::path_ref::{PathRef, path_text};
use std::alloc::{AllocError, Global};
use std::cmp::Ordering;
use std::fmt;
use std::hash::{Hash, Hasher};
use std::marker::Model;

/// A path below the root of a tree: UTF-8 of 1 to 1,024 bytes, whose 1 to 64 components are parted by `/`. No
/// component is empty, `.` or `..`, and no byte is 0x20 or less, 0x7F, `"` or `\`. Its order is that of its bytes.
#[derive(Drop)]
pub struct Path {
    text: String,
}

impl Model for Path {
    ghost use Rattle.std.specs.Prelude.{List, ℕ, string_bytes};
    ghost use Rattle.tl_path.specs.Path.{IsPath};

    ghost Value = { List ℕ };

    ghost view = { λ a. string_bytes a.text };

    ghost invariant = { λ a. IsPath (string_bytes a.text) };
}

impl Path {
    ghost use Rattle.tl_path.specs.Inside.{components_left};

    /// Reads a path. `BadPath` is the text's first fault; `NoMemory` comes only for a path.
    pub fn parse(alloc: Global, text: &[u8]) -> Result<Path, PathError>
        ensures { MatchResult result (λ path. (path ≡ text.now) × IsPath text.now) (IsPathErrorOf text.now) }
    {
        match path_text(text) {
            Ok(text) => match String::from_str(alloc, text) {
                Ok(text) => Ok(Path { text }),
                Err(_) => Err(PathError::NoMemory),
            },
            Err(fault) => Err(PathError::BadPath {
                at: fault.at,
                kind: fault.kind,
            }),
        }
    }

    pub(crate) fn of(alloc: Global, text: &str) -> Result<Path, AllocError>
        requires { IsPath text.now }
        ensures { IfOk result (λ path. path ≡ text.now) }
    {
        Ok(Path {
            text: String::from_str(alloc, text)?,
        })
    }

    /// The path's bytes.
    pub fn bytes(&self) -> &[u8]
        ensures bytes { result.now ≡ self.now }
        ensures path { IsPath self.now }
    {
        self.text.as_bytes()
    }

    /// The path's text.
    pub fn text(&self) -> &str
        ensures text { result.now ≡ self.now }
        ensures path { IsPath self.now }
    {
        self.text.as_str()
    }

    /// The path for a host's calls.
    pub fn view(&self) -> PathRef<'_>
        ensures { result ≡ self.now }
    {
        PathRef::of(self.text())
    }

    /// The path's components, from the first on.
    pub fn components(&self) -> Components<'_>
        ensures { components_left result ≡ components self.now }
    {
        Components::of(self.bytes())
    }

    /// Whether this path is below that directory: the directory's components are its first, and it has more.
    pub fn is_below(&self, dir: &Path) -> bool
        ensures { result ≡ is_below self.now dir.now }
    {
        below::is_below(self.bytes(), dir.bytes())
    }

    /// Whether the two paths are equal or one is below the other.
    pub fn touches(&self, other: &Path) -> bool
        ensures { result ≡ is_touching self.now other.now }
    {
        below::is_touching(self.bytes(), other.bytes())
    }

    /// Whether the path touches one that the program keeps for itself, as its journal, backups and settings.
    pub fn is_reserved(&self) -> bool
        ensures { result ≡ is_reserved self.now }
    {
        below::is_reserved(self.bytes())
    }
}

impl Clone for Path {
    ghost is_clone = { λ s t. t ≡ s };

    fn clone(&self) -> Result<Path, AllocError> {
        Ok(Path {
            text: self.text.clone()?,
        })
    }
}

impl PartialEq for Path {
    ghost eq = { pointwise nat_eq };

    ghost laws = { partial_equiv_from_equiv nat_list_eq_equiv };

    fn eq(&self, other: &Path) -> bool {
        self.text() == other.text()
    }
}

impl Eq for Path {
    ghost laws = { nat_list_eq_equiv };
}

impl PartialOrd for Path {
    ghost partial_cmp = { λ x y. Some (slice_cmp nat_cmp x y) };

    ghost laws = { texts_po };

    fn partial_cmp(&self, other: &Path) -> Option<Ordering> {
        Some(self.cmp(other))
    }
}

impl Ord for Path {
    ghost cmp = { slice_cmp nat_cmp };

    ghost total = { nat_list_cmp_total };

    ghost matches_partial_cmp = { λ x y. refl };

    ghost matches_eq = { texts_ties };

    fn cmp(&self, other: &Path) -> Ordering {
        self.text().cmp(other.text())
    }
}

impl Hash for Path {
    ghost hash_input = { fed.str };

    ghost respects_eq = { Prim.search (hashing, rules) };

    fn hash<H: Hasher>(&self, state: &mut H) {
        self.text().hash(state);
    }
}

impl fmt::Display for Path {
    ghost output = { λ path. Some path };

    fn fmt<W: fmt::Write>(&self, f: &mut fmt::Formatter<W>) -> fmt::Result {
        f.write_str(self.text())
    }
}

impl fmt::Debug for Path {
    fn fmt<W: fmt::Write>(&self, f: &mut fmt::Formatter<W>) -> fmt::Result {
        fmt::Debug::fmt(self.text(), f)
    }
}
