//! Names that are there and marked paths, in one list.
ghost use Rattle.std.specs.Prelude.{◌≡◌, ◌++◌, ◌∷◌, [], map, IfOk, OnOk};
ghost use Rattle.tl_master.specs.Listing.{behind_first, count_before, first_mark, gone, merged};

use std::alloc::{AllocError, Global};
use tl_marks::MarkedPath;
use tl_path::Path;

// How many marked paths come before a name.
fn count_before(name: &Path, marks: &[MarkedPath]) -> usize
    ensures { result ≡ count_before name.now marks.now }
{
    marks
        .iter()
        .take_while(|marked| marked.path < *name)
        .count()
}

// Adds marked paths that aren't there.
fn push_gone(all: &mut Vec<MarkedPath>, marks: &[MarkedPath]) -> Result<(), AllocError>
    ensures { OnOk result (all.new.items ≡ all.old.items ++ map gone marks.now) }
{
    for marked in marks {
        all.push(MarkedPath {
            lives: false,
            mark: marked.mark,
            path: marked.path.clone()?,
        })?;
    }
    Ok(())
}

// The mark of a name, where it is the first of some marked paths, and the others; 0 and all of them where it is not.
fn take_mark<'a>(name: &Path, marks: &'a [MarkedPath]) -> (u32, &'a [MarkedPath])
    ensures mark { result.0 ≡ first_mark name.now marks.now }
    ensures others { result.1.now ≡ behind_first name.now marks.now }
{
    match marks.split_first() {
        Some((marked, others)) if marked.path == *name => (marked.mark, others),
        _ => (0, marks),
    }
}

/// Names that are there and marked paths, both of which rise, in one rising list. It costs one comparison for each.
pub(crate) fn merged(
    alloc: Global,
    names: Vec<Path>,
    marks: &[MarkedPath],
) -> Result<Vec<MarkedPath>, AllocError>
    ensures { IfOk result (λ all. all.items ≡ merged names.items marks.now) }
{
    let mut all = Vec::new(alloc);
    let mut rest = marks;
    for path in names {
        let (before, others) = rest.split_at(count_before(&path, rest));
        push_gone(&mut all, before)?;
        let (mark, behind) = take_mark(&path, others);
        all.push(MarkedPath {
            lives: true,
            mark,
            path,
        })?;
        rest = behind;
    }
    push_gone(&mut all, rest)?;
    Ok(all)
}
