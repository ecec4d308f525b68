//! The files of packages that aren't there.
ghost use Rattle.std.specs.Prelude.{◌≡◌, ◌≤◌, ◌++◌, map, IfOk, OnOk};
ghost use Rattle.tl_model.specs.Causes.{HasCauseOf};
ghost use Rattle.tl_model.specs.Seen.{Told, Quiet};
ghost use Rattle.tl_journal_text.specs.Stand.{tree_of};
ghost use Rattle.tl_report.specs.Claims.{claim_by};
ghost use Rattle.tl_report.specs.Missing.{missing_among};
ghost use Rattle.tl_report.specs.declared.error.ReportError.TheVariants.{HostFault as Fault};

use crate::error::ReportError;
use crate::lines::{Finding, Lines};
use std::alloc::Global;
use tl_host::Host;
use tl_path::{Name, Path};
use tl_tree::Tree;

/// A line for each of some files that isn't in a tree. It asks the tree for each file.
pub(crate) fn missing<H: Host>(
    alloc: Global,
    files: &[(Path, &Name)],
    tree: &mut Tree<H>,
) -> Result<Lines, ReportError>
    ensures lines { Told H.tells (IfOk result (λ lines. lines
        ≡ missing_among (tree_of tree.old.seen.present.held) (map (λ file. claim_by file.1.now file.0) files.now))) }
    ensures same { Told H.tells (Quiet tree.old.seen tree.new.seen) }
    ensures db { tree.new.db ≡ tree.old.db }
    ensures cause { HasCauseOf (λ error. error ≡ Fault) tree.old.seen.faults tree.new.seen.faults result }
{
    let mut lines = Lines::new(alloc);
    for file in files {
        if !tree.present(&file.0)? {
            lines.push(alloc, Finding::Missing, file.1.text(), file.0.text())?;
        }
    }
    Ok(lines)
}
