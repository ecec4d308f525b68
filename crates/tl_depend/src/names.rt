//! The names that depends stand for.
ghost use Rattle.std.specs.Prelude.{◌≡◌, ◌++◌, ◌∷◌, [], Some, OnOk, map, filter};
ghost use Rattle.std.specs.List.{flat_map};
ghost use Rattle.std.specs.Str.{bytes_eq};
ghost use Rattle.indexmap.specs.IndexSet.{insert_all};
ghost use Rattle.tl_path.specs.Names.{is_name};
ghost use Rattle.tl_depend.specs.Names.{named_by};

use indexmap::IndexSet;
use std::alloc::{AllocError, Global};
use tl_path::{Name, NameError};
use tl_text::Text;

// Adds a text to some names, where it is a name.
fn add_text(alloc: Global, names: &mut IndexSet<Name>, text: &[u8]) -> Result<(), AllocError>
    ensures { OnOk result (names.new.keys ≡ insert_all bytes_eq names.old.keys (filter is_name (text.now ∷ []))) }
{
    match Name::parse(alloc, text) {
        Ok(name) => {
            names.insert(name)?;
            Ok(())
        }
        Err(NameError::BadName { .. }) => Ok(()),
        Err(NameError::NoMemory) => Err(AllocError),
    }
}

/// Adds the names that a front and a point have with platforms behind them.
pub fn add_on_platforms(
    alloc: Global,
    names: &mut IndexSet<Name>,
    front: &[u8],
    platforms: &[Vec<u8>],
) -> Result<(), AllocError>
    ensures { OnOk result (names.new.keys
        ≡ insert_all bytes_eq names.old.keys (filter is_name (map (λ platform. front.now ++ 46 ∷ platform.items) platforms.now))) }
{
    let mut text = Vec::new(alloc);
    for platform in platforms {
        text.clear();
        text.extend_from_slice(front)?;
        text.push(b'.')?;
        text.extend_from_slice(platform.as_slice())?;
        add_text(alloc, names, text.as_slice())?;
    }
    Ok(())
}

// Adds the names that a depend stands for.
fn add_depend(
    alloc: Global,
    names: &mut IndexSet<Name>,
    depend: &[u8],
    platforms: &[Vec<u8>],
) -> Result<(), AllocError>
    ensures { OnOk result (names.new.keys
        ≡ insert_all bytes_eq names.old.keys (named_by (map (λ platform. platform.items) platforms.now) depend.now)) }
{
    match depend.strip_suffix(b".ARCH") {
        Some(front) => add_on_platforms(alloc, names, front, platforms),
        None => add_text(alloc, names, depend),
    }
}

/// Adds the names that some depends stand for on some platforms.
pub fn add_depends(
    alloc: Global,
    names: &mut IndexSet<Name>,
    depends: &[Text],
    platforms: &[Vec<u8>],
) -> Result<(), AllocError>
    ensures { OnOk result (names.new.keys
        ≡ insert_all bytes_eq names.old.keys (flat_map (named_by (map (λ platform. platform.items) platforms.now)) depends.now)) }
{
    for depend in depends {
        add_depend(alloc, names, depend.bytes(), platforms)?;
    }
    Ok(())
}
