//! The paths that are files of two packages.
ghost use Rattle.std.specs.Prelude.{◌≡◌, ◌++◌, [], ◌∷◌, List, ℕ, map, take_while, IfOk, OnOk};
ghost use Rattle.tl_model.specs.Volume.{same_name};
ghost use Rattle.tl_entry.specs.Rising.{has_key};
ghost use Rattle.tl_report.specs.Claims.{claim_by};
ghost use Rattle.tl_report.specs.Duplicates.{duplicate_line, clashes_with, clashes};

use crate::lines::{Finding, Lines};
use std::alloc::{AllocError, Global};
use tl_path::{Name, Path};

// Adds the line of a path that is a file of two packages.
fn add_line(
    alloc: Global,
    lines: &mut Lines,
    path: &Path,
    first: &Name,
    second: &Name,
) -> Result<(), AllocError>
    ensures { OnOk result (lines.new
        ≡ lines.old ++ duplicate_line (claim_by first.now path.now) (claim_by second.now path.now) ∷ []) }
{
    let (first, second) = (first.text(), second.text());
    let owners = format!(in alloc; "{first} {second}")?;
    lines.push(alloc, Finding::Duplicate, path.text(), owners.as_str())
}

// Adds a line for each of some files that has this path and a greater owner. Those with the path come first.
fn add_clashes(
    alloc: Global,
    lines: &mut Lines,
    path: &Path,
    owner: &Name,
    behind: &[(Path, &Name)],
) -> Result<(), AllocError>
    ensures { OnOk result (lines.new ≡ lines.old ++ clashes_with
        (take_while (λ other. same_name path.now other.path) (map (λ other. claim_by other.1.now other.0) behind.now))
        (claim_by owner.now path.now)) }
{
    for other in behind {
        if *path != other.0 {
            return Ok(());
        }
        if owner < other.1 {
            add_line(alloc, lines, path, owner, other.1)?;
        }
    }
    Ok(())
}

/// A line for each path among some files that two packages have, and each two such packages. n files cost n log n comparisons.
pub(crate) fn duplicates(alloc: Global, files: Vec<(Path, &Name)>) -> Result<Lines, AllocError>
    ensures { IfOk result (λ lines. (line : List ℕ) → has_key (λ l. l) line lines
        ≡ has_key (λ l. l) line (clashes (map (λ file. claim_by file.1.now file.0) files.entry.items))) }
{
    let mut files = files;
    files.sort_unstable();
    let mut lines = Lines::new(alloc);
    for (at, file) in files.iter().enumerate() {
        add_clashes(alloc, &mut lines, &file.0, file.1, &files[at + 1..])?;
    }
    Ok(lines)
}
