//! The names of some entries.
ghost use Rattle.std.specs.Prelude.{◌≡◌, map, IfOk};
ghost use Rattle.tl_claims.specs.Claims.{first_twice, twice_in};

use std::alloc::{AllocError, Global};
use tl_object::Object;
use tl_path::Name;

fn names_of(alloc: Global, objects: &[Object]) -> Result<Vec<Name>, AllocError>
    ensures { IfOk result (λ names. names.items ≡ map (λ object. object.name) objects.now) }
{
    let mut names = Vec::with_capacity(alloc, objects.len())?;
    for object in objects {
        names.push(object.name.clone()?)?;
    }
    Ok(names)
}

// The first name that its neighbour has too.
fn first_twice(names: &[Name]) -> Result<Option<Name>, AllocError>
    ensures { IfOk result (λ found. found ≡ first_twice names.now) }
{
    let mut rest = names;
    while let Some((first, behind)) = rest.split_first() {
        let Some((second, _)) = behind.split_first() else {
            return Ok(None);
        };
        if first == second {
            return Ok(Some(first.clone()?));
        }
        rest = behind;
    }
    Ok(None)
}

/// The least name that two of some entries have; `None` exactly where each has a name of its own. n entries cost n log n comparisons.
pub fn twice_in(alloc: Global, objects: &[Object]) -> Result<Option<Name>, AllocError>
    ensures { IfOk result (λ found. found ≡ twice_in objects.now) }
{
    let mut names = names_of(alloc, objects)?;
    names.sort_unstable();
    first_twice(&names)
}
