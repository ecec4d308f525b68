//! The executes that don't read.
ghost use Rattle.std.specs.Prelude.{◌≡◌, ◌++◌, IfOk, OnOk};
ghost use Rattle.tl_report.specs.Executes.{is_unread, unread_lines, execute_lines};

use crate::lines::{Finding, Lines};
use std::alloc::{AllocError, Global};
use tl_db::Db;
use tl_entry::Object;
use tl_execute::{Execute, ExecuteError};
use tl_text::Text;

fn is_unread(alloc: Global, text: &Text) -> Result<bool, AllocError>
    ensures { IfOk result (λ unread. unread ≡ is_unread text.now) }
{
    match Execute::parse(alloc, text.bytes()) {
        Ok(_) => Ok(false),
        Err(ExecuteError::BadExecute { .. }) => Ok(true),
        Err(ExecuteError::NoMemory) => Err(AllocError),
    }
}

// Adds a line for each execute of an entry that doesn't read.
fn add_unread(alloc: Global, lines: &mut Lines, entry: &Object) -> Result<(), AllocError>
    ensures { OnOk result (lines.new ≡ lines.old ++ unread_lines entry.now) }
{
    for text in entry.executes.as_slice() {
        if is_unread(alloc, text)? {
            lines.push(alloc, Finding::Execute, entry.name.text(), text.text())?;
        }
    }
    Ok(())
}

/// A line for each execute that doesn't read.
pub(crate) fn executes(alloc: Global, db: &Db) -> Result<Lines, AllocError>
    ensures { IfOk result (λ lines. lines ≡ execute_lines db.now) }
{
    let mut lines = Lines::new(alloc);
    for entry in db.entries() {
        add_unread(alloc, &mut lines, entry)?;
    }
    Ok(lines)
}
