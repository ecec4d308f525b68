//! Whether the entry with a name has changed.
ghost use Rattle.std.specs.Prelude.{◌≡◌, Some, IfOk};
ghost use Rattle.std.specs.Option.{option_copied};
ghost use Rattle.tl_trigger.specs.Stale.{is_same, is_changed};

use std::alloc::{AllocError, Global};
use tl_db::Db;
use tl_object::{Object, write_object};
use tl_path::Name;

// Whether two entries have one text.
fn has_text_of(alloc: Global, a: &Object, b: &Object) -> Result<bool, AllocError>
    ensures { IfOk result (λ same. same ≡ is_same (Some a.now) (Some b.now)) }
{
    let first = write_object(alloc, a)?;
    let second = write_object(alloc, b)?;
    Ok(first.as_slice() == second.as_slice())
}

// Whether two entries have one text, or both are absent.
fn is_same(alloc: Global, a: Option<&Object>, b: Option<&Object>) -> Result<bool, AllocError>
    ensures { IfOk result (λ same. same ≡ is_same (option_copied a.entry) (option_copied b.entry)) }
{
    match (a, b) {
        (Some(a), Some(b)) => has_text_of(alloc, a, b),
        (None, None) => Ok(true),
        (Some(_), None) | (None, Some(_)) => Ok(false),
    }
}

/// Whether the entry with a name isn't the same in two databases, absence included.
pub(crate) fn is_changed(alloc: Global, old: &Db, new: &Db, name: &Name) -> Result<bool, AllocError>
    ensures { IfOk result (λ changed. changed ≡ is_changed old.now new.now name.now) }
{
    let same = is_same(alloc, old.get(name), new.get(name))?;
    Ok(!same)
}
