//! The entries of a source.
ghost use Rattle.std.specs.Prelude.{◌≡◌, ◌++◌, slice_get, IfOk, OnOk};
ghost use Rattle.std.specs.Option.{option_copied};
ghost use Rattle.tl_auto.specs.Pushing.{Judges};
ghost use Rattle.tl_expand.specs.Objects.{parts_of, objects_by, objects_of};

use crate::choice::{Choice, Chosen, Expansion, Stamp, revision_of};
use crate::part::{package_of, push_part};
use std::alloc::{AllocError, Global};
use tl_auto::{AutoError, Platforms};
use tl_entry::Object;
use tl_index::Index;
use tl_path::Platform;
use tl_pattern::Regexps;
use tl_srctext::{SourceFields, SourceText};

fn platform_at(
    alloc: Global,
    platforms: &Platforms,
    number: u32,
) -> Result<Option<Platform>, AllocError>
    ensures { IfOk result (λ platform. platform ≡ slice_get platforms.now number) }
{
    match platforms.get(number) {
        Some(platform) => Ok(Some(Platform::of(alloc, platform)?)),
        None => Ok(None),
    }
}

fn chosen_at(bins: &[Chosen], number: u32) -> Option<&Chosen>
    ensures { option_copied result ≡ slice_get bins.now number }
{
    bins.get(number as usize)
}

// Adds the parts for some platforms, with what is chosen for each.
fn push_parts(
    alloc: Global,
    source: &SourceFields,
    revision: u32,
    platforms: &Platforms,
    bins: &[Chosen],
    objects: &mut Vec<Object>,
) -> Result<(), AllocError>
    ensures { OnOk result (objects.new.items ≡ objects.old.items ++ parts_of source.now revision platforms.now bins.now) }
{
    for number in 0..platforms.len() {
        let Some(chosen) = chosen_at(bins, number) else {
            return Ok(());
        };
        let Some(platform) = platform_at(alloc, platforms, number)? else {
            return Ok(());
        };
        push_part(alloc, source, revision, &platform, chosen, objects)?;
    }
    Ok(())
}

fn objects_by(
    alloc: Global,
    source: &SourceFields,
    stamp: Stamp,
    platforms: &Platforms,
    choice: &Choice,
) -> Result<Vec<Object>, AllocError>
    ensures { IfOk result (λ objects. objects.items ≡ objects_by source.now stamp platforms.now choice.now) }
{
    let revision = revision_of(source, stamp, choice);
    let mut objects = Vec::new(alloc);
    objects.push(package_of(alloc, source, revision, choice)?)?;
    push_parts(
        alloc,
        source,
        revision,
        platforms,
        choice.bins.as_slice(),
        &mut objects,
    )?;
    Ok(objects)
}

/// The entries of a source over the files of an index: the package's own, and where it has patterns of binaries its parts in the order of
/// the platforms. The revision is the greatest mark of all that they are made of, gone files too. The faults are those of `effective`,
/// in the order of run files, documentation, sources and the platforms.
pub fn expand(
    alloc: Global,
    source: &SourceText,
    stamp: Stamp,
    index: &Index,
    platforms: &Platforms,
    regexps: &mut Regexps,
) -> Result<Vec<Object>, AutoError>
    ensures { Judges (λ objects. objects.items) (λ verdicts. objects_of verdicts source.now stamp index.now platforms.now)
        regexps.old regexps.new result }
{
    let expansion = Expansion {
        source,
        platforms,
        index,
    };
    let choice = expansion.choice(alloc, regexps)?;
    let objects = objects_by(alloc, source.fields(), stamp, platforms, &choice)?;
    Ok(objects)
}
