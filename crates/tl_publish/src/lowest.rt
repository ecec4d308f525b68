//! Names that have no other name below them.
ghost use Rattle.std.specs.Prelude.{◌≡◌, ◌++◌, [], ◌∷◌, ◌&&◌, nat_eq, nat_lt, if◌then◌else◌};
ghost use Rattle.std.specs.Prelude.{IfOk, OnOk, filter, length, slice_index_or};
ghost use Rattle.std.specs.List.{list_any, starts_with};
ghost use Rattle.std.specs.List.Sorted.{IsStrictlySortedBy};
ghost use Rattle.std.specs.Ordering.{nat_cmp};
ghost use Rattle.std.specs.Cmp.Lexicographic.{slice_cmp};
ghost use Rattle.tl_path.specs.Components.{is_below};
ghost use Rattle.tl_publish.specs.Listable.{AreInside, is_lowest};

use std::alloc::{AllocError, Global};
use tl_path::Path;

// Whether a name begins with another one and a byte below '/': only such names stand between it and those below it.
fn comes_between(other: &[u8], name: &[u8]) -> bool
    ensures { result ≡ (starts_with nat_eq other.now name.now
        && (nat_lt (length name.now) (length other.now) && nat_lt (slice_index_or other.now (length name.now) 0) 47)) }
{
    other.starts_with(name) && name.len() < other.len() && other[name.len()] < b'/'
}

// Whether one of the names behind a name, in the order of their bytes, is below it. It looks at the first one and, where that begins with
// the name, at further ones that do.
fn has_below(behind: &[Path], name: &Path) -> bool
    requires { IsStrictlySortedBy (slice_cmp nat_cmp) (name.now ∷ behind.now) }
    ensures { result ≡ list_any (λ other. is_below other name.now) behind.now }
{
    let mut rest = behind;
    while let Some((other, others)) = rest.split_first() {
        if other.is_below(name) {
            return true;
        }
        if !comes_between(other.bytes(), name.bytes()) {
            return false;
        }
        rest = others;
    }
    false
}

// Keeps a name, unless one of those behind it is below it.
fn push_lowest(kept: &mut Vec<Path>, name: &Path, behind: &[Path]) -> Result<(), AllocError>
    requires { IsStrictlySortedBy (slice_cmp nat_cmp) (name.now ∷ behind.now) }
    ensures { OnOk result (kept.new.items ≡ kept.old.items
        ++ (if list_any (λ other. is_below other name.now) behind.now then [] else name.now ∷ [])) }
{
    if has_below(behind, name) {
        return Ok(());
    }
    kept.push(name.clone()?)?;
    Ok(())
}

/// Those of some names that have none of the others below them.
pub(crate) fn lowest(alloc: Global, names: &[Path]) -> Result<Vec<Path>, AllocError>
    requires { AreInside names.now }
    ensures { IfOk result (λ kept. kept.items ≡ filter (is_lowest names.now) names.now) }
{
    let mut kept = Vec::new(alloc);
    let mut rest = names;
    while let Some((name, behind)) = rest.split_first() {
        push_lowest(&mut kept, name, behind)?;
        rest = behind;
    }
    Ok(kept)
}
