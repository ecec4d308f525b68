//! The paths that some entries claim.
ghost use Rattle.std.specs.Prelude.{◌≡◌, ◌++◌, ◌+◌, ◌<◌, ◌^◌, length, map, IfOk, OnOk};
ghost use Rattle.std.specs.List.{flat_map};
ghost use Rattle.tl_entry.specs.Sections.{paths_of};
ghost use Rattle.tl_entry.specs.FilePaths.{listed_paths};
ghost use Rattle.tl_claims.specs.Claims.{claim, clash_in, claims_from, first_clash};

use crate::claim::{Claim, Clash};
use std::alloc::{AllocError, Global};
use tl_object::{BinFiles, DocFile, Object, Paths};
use tl_path::Name;

fn push_paths(
    alloc: Global,
    claims: &mut Vec<Claim>,
    number: usize,
    by: &Name,
    paths: &Paths,
) -> Result<(), AllocError>
    ensures { OnOk result (claims.new.items ≡ claims.old.items ++ map (claim number by.now) paths.now) }
{
    for path in paths.iter() {
        let path = path.to_path(alloc)?;
        let by = by.clone()?;
        claims.push(Claim { path, number, by })?;
    }
    Ok(())
}

fn push_documents(
    claims: &mut Vec<Claim>,
    number: usize,
    by: &Name,
    files: &[DocFile],
) -> Result<(), AllocError>
    ensures { OnOk result (claims.new.items ≡ claims.old.items ++ map (claim number by.now) (paths_of files.now)) }
{
    for file in files {
        let path = file.path.clone()?;
        let by = by.clone()?;
        claims.push(Claim { path, number, by })?;
    }
    Ok(())
}

fn push_binaries(
    alloc: Global,
    claims: &mut Vec<Claim>,
    number: usize,
    by: &Name,
    bins: &[BinFiles],
) -> Result<(), AllocError>
    ensures { OnOk result (claims.new.items ≡ claims.old.items ++ map (claim number by.now) (flat_map (λ bin. bin.paths) bins.now)) }
{
    for bin in bins {
        push_paths(alloc, claims, number, by, &bin.paths)?;
    }
    Ok(())
}

// Adds the claims of an entry.
fn push_claims(
    alloc: Global,
    claims: &mut Vec<Claim>,
    number: usize,
    object: &Object,
) -> Result<(), AllocError>
    ensures { OnOk result (claims.new.items ≡ claims.old.items ++ map (claim number object.now.name) (listed_paths object.now)) }
{
    push_paths(alloc, claims, number, &object.name, &object.run.paths)?;
    push_documents(claims, number, &object.name, object.doc.files.as_slice())?;
    push_paths(alloc, claims, number, &object.name, &object.src.paths)?;
    push_binaries(alloc, claims, number, &object.name, object.bin.as_slice())
}

// The claims of some entries, in their order.
fn claims_of(alloc: Global, objects: &[Object]) -> Result<Vec<Claim>, AllocError>
    ensures { IfOk result (λ claims. claims.items ≡ claims_from 0 objects.now) }
{
    let mut claims = Vec::new(alloc);
    let mut number = 0;
    let mut rest = objects;
    while let Some((object, behind)) = rest.split_first() {
        push_claims(alloc, &mut claims, number, object)?;
        number += 1;
        rest = behind;
    }
    Ok(claims)
}

// The first two neighbours of one path.
fn first_clash(claims: &[Claim]) -> Result<Option<Clash>, AllocError>
    ensures { IfOk result (λ found. found ≡ first_clash claims.now) }
{
    let mut rest = claims;
    while let Some((first, behind)) = rest.split_first() {
        let Some((second, _)) = behind.split_first() else {
            return Ok(None);
        };
        if first.path == second.path {
            return Ok(Some(Clash {
                path: first.path.clone()?,
                first: first.by.clone()?,
                second: second.by.clone()?,
            }));
        }
        rest = behind;
    }
    Ok(None)
}

/// The least path that two sections of some entries have, with the names of the entries of the first two: by the order of the entries, and
/// within one by that of its sections. `None` exactly where no path stands in two sections. n paths cost n log n comparisons.
pub fn clash_in(alloc: Global, objects: &[Object]) -> Result<Option<Clash>, AllocError>
    ensures { IfOk result (λ found. found ≡ clash_in objects.now) }
{
    let mut claims = claims_of(alloc, objects)?;
    claims.sort_unstable();
    first_clash(&claims)
}
