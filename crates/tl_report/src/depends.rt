//! The depends that stand for names which no package has.
ghost use Rattle.std.specs.Prelude.{◌≡◌, ◌++◌, ◌∷◌, ◌==◌, ◌||◌, map, IfOk, OnOk};
ghost use Rattle.std.specs.List.{list_any, slice_split};
ghost use Rattle.tl_model.specs.Words.{fields};
ghost use Rattle.tl_db.specs.Options.{option_value};
ghost use Rattle.tl_db.specs.declared.options.TreeOption.TheVariants.{Platforms};
ghost use Rattle.tl_report.specs.Depends.{is_absent_name, is_unmet, unmet_lines, depend_lines};

use crate::lines::{Finding, Lines};
use std::alloc::{AllocError, Global};
use tl_db::{Db, TreeOption};
use tl_entry::Object;
use tl_path::{Name, NameError};

// The parts of a text between blanks.
fn parts_of<'t>(alloc: Global, text: &'t [u8]) -> Result<Vec<&'t [u8]>, AllocError>
    ensures { IfOk result (λ parts. map (λ p. p.now) parts.items ≡ slice_split (λ b. b == 32 || b == 9) text.now) }
{
    text.split(|b| *b == b' ' || *b == b'\t').collect(alloc)
}

// The words of a text.
fn words_of<'t>(alloc: Global, text: &'t [u8]) -> Result<Vec<&'t [u8]>, AllocError>
    ensures { IfOk result (λ words. map (λ w. w.now) words.items ≡ fields text.now) }
{
    let mut words = parts_of(alloc, text)?;
    words.retain(|word| !word.is_empty());
    Ok(words)
}

// The platforms of a tree, as its option has them.
fn platforms_of(alloc: Global, db: &Db) -> Result<Vec<u8>, AllocError>
    ensures { IfOk result (λ value. value.items ≡ option_value Platforms db.now) }
{
    match db.option(alloc, TreeOption::Platforms.name().as_bytes()) {
        Ok(value) => Ok(value),
        Err(_) => Err(AllocError),
    }
}

// Whether a text is a name that no package has.
fn is_absent_name(alloc: Global, db: &Db, text: &[u8]) -> Result<bool, AllocError>
    ensures { IfOk result (λ absent. absent ≡ is_absent_name db.now text.now) }
{
    match Name::parse(alloc, text) {
        Ok(name) => Ok(db.get(&name).is_none()),
        Err(NameError::BadName { .. }) => Ok(false),
        Err(NameError::NoMemory) => Err(AllocError),
    }
}

// Whether a front, a point and one of some platforms are such a name.
fn is_absent_on(
    alloc: Global,
    db: &Db,
    front: &[u8],
    platforms: &[&[u8]],
) -> Result<bool, AllocError>
    ensures { IfOk result (λ absent. absent
        ≡ list_any (λ platform. is_absent_name db.now (front.now ++ 46 ∷ platform.now)) platforms.now) }
{
    for platform in platforms {
        let mut text = Vec::from_slice(alloc, front)?;
        text.push(b'.')?;
        text.extend_from_slice(platform)?;
        if is_absent_name(alloc, db, &text)? {
            return Ok(true);
        }
    }
    Ok(false)
}

// Whether a depend stands for a name that no package has.
fn is_unmet(alloc: Global, db: &Db, platforms: &[&[u8]], depend: &[u8]) -> Result<bool, AllocError>
    ensures { IfOk result (λ unmet. unmet ≡ is_unmet db.now (map (λ p. p.now) platforms.now) depend.now) }
{
    match depend.strip_suffix(b".ARCH") {
        Some(front) => is_absent_on(alloc, db, front, platforms),
        None => is_absent_name(alloc, db, depend),
    }
}

// Adds a line for each depend of an entry that stands for a name which no package has.
fn add_unmet(
    alloc: Global,
    lines: &mut Lines,
    db: &Db,
    platforms: &[&[u8]],
    entry: &Object,
) -> Result<(), AllocError>
    ensures { OnOk result (lines.new ≡ lines.old ++ unmet_lines db.now (map (λ p. p.now) platforms.now) entry.now) }
{
    for depend in entry.depends.as_slice() {
        if is_unmet(alloc, db, platforms, depend.bytes())? {
            lines.push(alloc, Finding::Depends, entry.name.text(), depend.text())?;
        }
    }
    Ok(())
}

/// A line for each depend that stands for a name which no package has, on the platforms of the tree. It looks each name up by halving.
pub(crate) fn depends(alloc: Global, db: &Db) -> Result<Lines, AllocError>
    ensures { IfOk result (λ lines. lines ≡ depend_lines db.now) }
{
    let value = platforms_of(alloc, db)?;
    let platforms = words_of(alloc, &value)?;
    let mut lines = Lines::new(alloc);
    for entry in db.entries() {
        add_unmet(alloc, &mut lines, db, &platforms, entry)?;
    }
    Ok(lines)
}
