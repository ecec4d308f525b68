//! Refusals for what the entries have of packages that come: executes and reserved paths.
ghost use Rattle.std.specs.Prelude.{◌≡◌, None, OnOk, IfErr, map};
ghost use Rattle.tl_execute.specs.Executes.{read_execute};
ghost use Rattle.tl_coming.specs.Refused.{IsWantedFault};
ghost use Rattle.tl_coming.specs.Refused.{first_of, execute_fault, bad_execute, reserved_path};

use crate::error::ComingError;
use std::alloc::Global;
use tl_execute::{Execute, ExecuteError};
use tl_object::Object;
use tl_text::Text;

// Refuses an execute that doesn't read, where so many stand before it.
fn refuse_execute(
    alloc: Global,
    entry: &Object,
    before: usize,
    text: &Text,
) -> Result<(), ComingError>
    ensures ok { OnOk result (execute_fault entry.now.name before (read_execute text.now) ≡ None) }
    ensures fault { IfErr result (IsWantedFault (execute_fault entry.now.name before (read_execute text.now))) }
{
    let kind = match Execute::parse(alloc, text.bytes()) {
        Ok(_) => return Ok(()),
        Err(ExecuteError::BadExecute { kind }) => kind,
        Err(ExecuteError::NoMemory) => return Err(ComingError::NoMemory),
    };
    let Ok(at) = u32::try_from(before) else {
        return Err(ComingError::NoMemory);
    };
    let name = entry.name.clone()?;
    Err(ComingError::BadExecute { name, at, kind })
}

// Refuses the first execute of an entry that doesn't read.
fn refuse_executes_of(alloc: Global, entry: &Object) -> Result<(), ComingError>
    ensures ok { OnOk result (bad_execute entry.now ≡ None) }
    ensures fault { IfErr result (IsWantedFault (bad_execute entry.now)) }
{
    for (before, text) in entry.executes.as_slice().iter().enumerate() {
        refuse_execute(alloc, entry, before, text)?;
    }
    Ok(())
}

/// Refuses the first execute that doesn't read.
pub fn refuse_executes(alloc: Global, coming: &[&Object]) -> Result<(), ComingError>
    ensures ok { OnOk result (first_of bad_execute (map (λ entry. entry.now) coming.now) ≡ None) }
    ensures fault { IfErr result (IsWantedFault (first_of bad_execute (map (λ entry. entry.now) coming.now))) }
{
    for entry in coming {
        refuse_executes_of(alloc, entry)?;
    }
    Ok(())
}

// Refuses the least reserved path of an entry.
fn refuse_reserved_of(alloc: Global, entry: &Object) -> Result<(), ComingError>
    ensures ok { OnOk result (reserved_path entry.now ≡ None) }
    ensures fault { IfErr result (IsWantedFault (reserved_path entry.now)) }
{
    let paths = entry.file_paths(alloc)?;
    for path in &paths {
        if path.is_reserved() {
            return Err(ComingError::Reserved {
                path: path.clone()?,
            });
        }
    }
    Ok(())
}

/// Refuses the first entry's least path that is reserved, as `Reserved`.
pub fn refuse_reserved(alloc: Global, coming: &[&Object]) -> Result<(), ComingError>
    ensures ok { OnOk result (first_of reserved_path (map (λ entry. entry.now) coming.now) ≡ None) }
    ensures fault { IfErr result (IsWantedFault (first_of reserved_path (map (λ entry. entry.now) coming.now))) }
{
    for entry in coming {
        refuse_reserved_of(alloc, entry)?;
    }
    Ok(())
}
