//! The text that lists paths.
ghost use Rattle.std.specs.Prelude.{◌≡◌, ◌++◌, ◌∷◌, [], List, ℕ, drop, fold, IfOk, OnOk, length, ◌<◌};
ghost use Rattle.std.specs.List.{AllByRecursion};
ghost use Rattle.tl_model.specs.Lines.{text_of};
ghost use Rattle.tl_lsr.specs.Items.{with_items, all_items};
ghost use Rattle.tl_lsr.specs.Lists.{heading, turning, listing, closing, lsr_text, AreListable};

use crate::item::Item;
use std::alloc::{AllocError, Global};
use std::collections::BTreeSet;
use tl_path::Path;

// The folder whose files are listed.
pub(crate) const FOLDER: &[u8] = b"texmf-dist";

// The line that the file begins with.
pub(crate) const FIRST_LINE: &[u8] =
    b"% ls-R -- filename database for kpathsea; do not change this line.";

// Adds the items of a path.
fn add_items(alloc: Global, items: &mut BTreeSet<Item>, path: &Path) -> Result<(), AllocError>
    ensures { OnOk result (items.new.keys ≡ with_items items.old.keys path.now) }
{
    let mut dir = Vec::from_slice(alloc, FOLDER)?;
    let mut names = path.components();
    names.next();
    for name in names {
        items.insert(Item::new(alloc, &dir, name)?)?;
        dir.push(b'/')?;
        dir.extend_from_slice(name)?;
    }
    Ok(())
}

// The items of all paths.
fn items_of(alloc: Global, paths: &[Path]) -> Result<BTreeSet<Item>, AllocError>
    ensures { IfOk result (λ items. items.keys ≡ all_items paths.now) }
{
    let mut items = BTreeSet::new(alloc);
    for path in paths {
        add_items(alloc, &mut items, path)?;
    }
    Ok(items)
}

fn push_line(text: &mut Vec<u8>, line: &[u8]) -> Result<(), AllocError>
    ensures { OnOk result (text.new.items ≡ text.old.items ++ line.now ++ 10 ∷ []) }
{
    text.extend_from_slice(line)?;
    text.push(b'\n')?;
    Ok(())
}

// Ends the section of a directory; with none there is nothing to end.
fn close(text: &mut Vec<u8>, dir: &[u8]) -> Result<(), AllocError>
    ensures { OnOk result (text.new.items ≡ text.old.items ++ text_of (closing dir.now)) }
{
    if !dir.is_empty() {
        text.push(b'\n')?;
    }
    Ok(())
}

// What stands in a directory's path behind the folder's; nothing for the folder itself.
fn below_folder(dir: &[u8]) -> &[u8]
    ensures { result.now ≡ drop 11 dir.now }
{
    if dir.len() > FOLDER.len() {
        &dir[FOLDER.len() + 1..]
    } else {
        &[]
    }
}

// Begins the section of a directory.
fn push_heading(text: &mut Vec<u8>, dir: &[u8]) -> Result<(), AllocError>
    ensures { OnOk result (text.new.items ≡ text.old.items ++ heading dir.now ++ 10 ∷ []) }
{
    text.extend_from_slice(b"./")?;
    text.extend_from_slice(below_folder(dir))?;
    text.extend_from_slice(b":\n")?;
    Ok(())
}

// Turns from a directory to the next one.
fn turn(text: &mut Vec<u8>, dir: &[u8], next: &[u8]) -> Result<(), AllocError>
    ensures { OnOk result (text.new.items ≡ text.old.items ++ text_of (turning dir.now next.now)) }
{
    if next == dir {
        return Ok(());
    }
    close(text, dir)?;
    push_heading(text, next)
}

// Adds the lines of items in order.
fn push_items(text: &mut Vec<u8>, items: &BTreeSet<Item>) -> Result<(), AllocError>
    ensures { OnOk result (text.new.items ≡ text.old.items ++ text_of (listing [] items.now.keys)) }
{
    let mut dir: &[u8] = &[];
    for item in items {
        let (next, name) = item.parts();
        turn(text, dir, next)?;
        push_line(text, name)?;
        dir = next;
    }
    close(text, dir)
}

/// The text that lists paths below `texmf-dist`: the first line, an empty one, and for each directory that has something below it, in the
/// order of their paths, its heading, the names in it in order, and an empty line. The paths rise, none is `texmf-dist/ls-R`, and no two
/// touch. n names, each counted once for each directory above it, cost n log n comparisons.
pub fn write(alloc: Global, paths: &[Path]) -> Result<Vec<u8>, AllocError>
    requires { AreListable paths.now }
    ensures { IfOk result (λ text. text.items ≡ lsr_text paths.now) }
{
    let items = items_of(alloc, paths)?;
    let mut text = Vec::new(alloc);
    push_line(&mut text, FIRST_LINE)?;
    push_line(&mut text, &[])?;
    push_items(&mut text, &items)?;
    Ok(text)
}
