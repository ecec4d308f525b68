//! `check`: what is wrong with a tree.
ghost use Rattle.std.specs.Prelude.{◌≡◌, ◌++◌, IfOk, OnOk};
ghost use Rattle.tl_model.specs.Acks.{IsPlain};
ghost use Rattle.tl_model.specs.Causes.{HasCauseOf};
ghost use Rattle.tl_model.specs.Seen.{Told, Quiet};
ghost use Rattle.tl_journal_text.specs.Stand.{tree_of};
ghost use Rattle.tl_report.specs.Lines.{in_order};
ghost use Rattle.tl_report.specs.Missing.{missing_lines};
ghost use Rattle.tl_report.specs.Depends.{depend_lines};
ghost use Rattle.tl_report.specs.Duplicates.{duplicate_lines};
ghost use Rattle.tl_report.specs.Executes.{execute_lines};
ghost use Rattle.tl_report.specs.Check.{all_text, check_text};
ghost use Rattle.tl_report.specs.declared.error.ReportError.TheVariants.{HostFault as Fault};

use crate::claims::files_of;
use crate::depends::depends;
use crate::duplicates::duplicates;
use crate::error::ReportError;
use crate::executes::executes;
use crate::missing::missing;
use crate::walk::unmet;
use std::alloc::{AllocError, Global};
use tl_db::Db;
use tl_host::Host;
use tl_path::Check;
use tl_tree::Tree;

// The text on files that aren't there: those that a walk over the tree's names doesn't meet, and that the tree then says are absent.
// It copies the database, since a tree is asked while its entries are walked over.
fn files_text<H: Host>(alloc: Global, tree: &mut Tree<H>) -> Result<Vec<u8>, ReportError>
    ensures text { Told H.tells (IfOk result (λ text. text.items
        ≡ in_order (missing_lines (tree_of tree.old.seen.present.held) tree.old.db))) }
    ensures plain { IfOk result (λ text. IsPlain text.items) }
    ensures same { Told H.tells (Quiet tree.old.seen tree.new.seen) }
    ensures db { tree.new.db ≡ tree.old.db }
    ensures cause { HasCauseOf (λ error. error ≡ Fault) tree.old.seen.faults tree.new.seen.faults result }
{
    let db = tree.db().copy(alloc)?;
    let files = files_of(alloc, &db)?;
    let doubtful = unmet(alloc, files, tree)?;
    let lines = missing(alloc, &doubtful, tree)?;
    Ok(lines.into_text(alloc)?)
}

// The text on depends that stand for names which no package has.
fn depends_text(alloc: Global, db: &Db) -> Result<Vec<u8>, AllocError>
    ensures text { IfOk result (λ text. text.items ≡ in_order (depend_lines db.now)) }
    ensures plain { IfOk result (λ text. IsPlain text.items) }
{
    depends(alloc, db)?.into_text(alloc)
}

// The text on paths that are files of two packages.
fn duplicates_text(alloc: Global, db: &Db) -> Result<Vec<u8>, AllocError>
    ensures text { IfOk result (λ text. text.items ≡ in_order (duplicate_lines db.now)) }
    ensures plain { IfOk result (λ text. IsPlain text.items) }
{
    let files = files_of(alloc, db)?;
    duplicates(alloc, files)?.into_text(alloc)
}

// The text on executes that don't read.
fn executes_text(alloc: Global, db: &Db) -> Result<Vec<u8>, AllocError>
    ensures text { IfOk result (λ text. text.items ≡ in_order (execute_lines db.now)) }
    ensures plain { IfOk result (λ text. IsPlain text.items) }
{
    executes(alloc, db)?.into_text(alloc)
}

// Adds a text to another.
fn append(text: &mut Vec<u8>, more: Vec<u8>) -> Result<(), AllocError>
    requires { IsPlain more.items }
    ensures text { OnOk result (text.new.items ≡ text.old.items ++ more.items) }
    ensures plain { OnOk result (IsPlain text.old.items → IsPlain text.new.items) }
{
    text.extend_from_slice(&more)?;
    Ok(())
}

// Adds the texts of the checks that only read the database to a text.
fn add_texts(alloc: Global, text: &mut Vec<u8>, db: &Db) -> Result<(), AllocError>
    ensures text { OnOk result (text.new.items ≡ text.old.items
        ++ in_order (depend_lines db.now) ++ in_order (duplicate_lines db.now) ++ in_order (execute_lines db.now)) }
    ensures plain { OnOk result (IsPlain text.old.items → IsPlain text.new.items) }
{
    append(text, depends_text(alloc, db)?)?;
    append(text, duplicates_text(alloc, db)?)?;
    append(text, executes_text(alloc, db)?)
}

// The texts of all checks.
fn all_text<H: Host>(alloc: Global, tree: &mut Tree<H>) -> Result<Vec<u8>, ReportError>
    ensures text { Told H.tells (IfOk result (λ text. text.items
        ≡ all_text (tree_of tree.old.seen.present.held) tree.old.db)) }
    ensures plain { IfOk result (λ text. IsPlain text.items) }
    ensures same { Told H.tells (Quiet tree.old.seen tree.new.seen) }
    ensures db { tree.new.db ≡ tree.old.db }
    ensures cause { HasCauseOf (λ error. error ≡ Fault) tree.old.seen.faults tree.new.seen.faults result }
{
    let mut text = files_text(alloc, tree)?;
    add_texts(alloc, &mut text, tree.db())?;
    Ok(text)
}

/// What a check says of a tree: a line for each finding, in the order of its parts, each once; none is an acknowledgement. `HostFault`
/// comes only where the host's faults rose; `UnknownPackage` never comes. Files and duplicates cost one sort of what is found, and of
/// all files.
pub fn check<H: Host>(
    alloc: Global,
    tree: &mut Tree<H>,
    what: Check,
) -> Result<Vec<u8>, ReportError>
    ensures text { Told H.tells (IfOk result (λ text. text.items
        ≡ check_text what (tree_of tree.old.seen.present.held) tree.old.db)) }
    ensures plain { IfOk result (λ text. IsPlain text.items) }
    ensures same { Told H.tells (Quiet tree.old.seen tree.new.seen) }
    ensures db { tree.new.db ≡ tree.old.db }
    ensures cause { HasCauseOf (λ error. error ≡ Fault) tree.old.seen.faults tree.new.seen.faults result }
{
    match what {
        Check::Files => files_text(alloc, tree),
        Check::Depends => Ok(depends_text(alloc, tree.db())?),
        Check::Duplicates => Ok(duplicates_text(alloc, tree.db())?),
        Check::Executes => Ok(executes_text(alloc, tree.db())?),
        Check::All => all_text(alloc, tree),
    }
}
