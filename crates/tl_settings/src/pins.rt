//! `pinning`: the pins of a tree, said and changed.
ghost use Rattle.std.specs.Prelude.{◌≡◌, [], ◌∷◌, true, Ok, Err, IfOk, IfSome, MatchOption};
ghost use Rattle.std.specs.List.{list_all};
ghost use Rattle.tl_text.specs.Texts.{is_text};
ghost use Rattle.tl_pin.specs.Form.{is_pin_glob, pin_globs};
ghost use Rattle.tl_pin.specs.Changes.{with_globs};
ghost use Rattle.tl_pin.specs.Reading.{pins_text};
ghost use Rattle.tl_action.specs.Texts.{texts};
ghost use Rattle.tl_tree.specs.Planted.{database_text};
ghost use Rattle.tl_tree.specs.declared.change.Part.TheVariants.{Write};
ghost use Rattle.tl_refusal.specs.declared.refusal.Refusal.TheVariants.{NoPin};
ghost use Rattle.tl_command.specs.Endings.{no_devices};
ghost use Rattle.tl_command.specs.Performs.{Performs};
ghost use Rattle.tl_command.specs.Runs.{over_database, finished, refused, saying, stepping};
ghost use Rattle.tl_offer.specs.Pinned.{pins_path, over_pins};
ghost use Rattle.tl_settings.specs.Pinning.{pinning_label, write_run, without_globs, without_all, left_run, over_globs, pinning_run};

use std::alloc::{AllocError, Global};
use tl_action::PinAction;
use tl_command::{Acted, Refusal, Session, finish, give_up, load, refuse, say, step};
use tl_file::Bytes;
use tl_glob::Glob;
use tl_host::Host;
use tl_kind::What;
use tl_offer::load_pins;
use tl_path::{Path, PathRef, Tag};
use tl_pin::{PinGlobs, Pins};
use tl_text::{Text, TextError};
use tl_tree::{Change, Part, PartList, Tree};

// The change that writes the text of pins.
fn change_of(alloc: Global, text: Vec<u8>) -> Result<Change, AllocError>
    ensures parts { IfOk result (λ change. change.parts ≡ Write pins_path text.items ∷ []) }
    ensures label { IfOk result (λ change. change.label ≡ pinning_label) }
{
    let path = PathRef::known("tlpkg/pinning.txt").to_path(alloc)?;
    let mut parts = Vec::new(alloc);
    parts.push(Part::Write {
        path,
        bytes: Bytes::new(text),
    })?;
    Ok(Change {
        parts: PartList::new(parts),
        label: Bytes::new(Vec::from_slice(alloc, b"step 1/1 pinning done\n")?),
    })
}

// Writes the text of pins, in one step.
fn write_text<H: Host>(alloc: Global, text: Vec<u8>, tree: Tree<H>) -> Acted<H>
    ensures { Performs H.tells H.seen (λ t. stepping tree.db (Write pins_path text.items ∷ []) pinning_label finished t)
        0 tree.seen no_devices no_devices result.ending result.state }
{
    let Ok(change) = change_of(alloc, text) else {
        return give_up(Session::of_tree(tree));
    };
    match step(alloc, &change, tree) {
        Ok(tree) => finish(Session::of_tree(tree)),
        Err(acted) => acted,
    }
}

// Writes pins, where their text is within its limit.
fn write<H: Host>(alloc: Global, pins: &Pins, tree: Tree<H>) -> Acted<H>
    ensures { Performs H.tells H.seen (λ t. write_run pins.now t tree.db)
        0 tree.seen no_devices no_devices result.ending result.state }
{
    let Ok(text) = pins.write(alloc) else {
        return give_up(Session::of_tree(tree));
    };
    let limit = What::Pins.limit();
    if text.len() as u64 > limit {
        let what = What::Pins;
        let refusal = Refusal::TooLarge { what, limit };
        return refuse(alloc, refusal, Session::of_tree(tree));
    }
    write_text(alloc, text, tree)
}

// Says pins.
fn show<H: Host>(alloc: Global, pins: &Pins, tree: Tree<H>) -> Acted<H>
    ensures { Performs H.tells H.seen (λ _. saying (pins_text pins.now))
        0 tree.seen no_devices no_devices result.ending result.state }
{
    match pins.write(alloc) {
        Ok(text) => say(&text, Session::of_tree(tree)),
        Err(_) => give_up(Session::of_tree(tree)),
    }
}

// The refusal of a glob that no pin with a tag has.
fn no_pin(alloc: Global, tag: Tag, glob: &[u8]) -> Result<Refusal, AllocError>
    requires { is_text glob.now ≡ true }
    ensures { IfOk result (λ refusal. refusal ≡ NoPin tag glob.now) }
{
    match Text::parse(alloc, glob) {
        Ok(glob) => Ok(Refusal::NoPin { repo: tag, glob }),
        Err(TextError::NotText) => unreachable!(),
        Err(TextError::NoMemory) => Err(AllocError),
    }
}

// Refuses a glob that no pin with a tag has.
fn refuse_glob<H: Host>(alloc: Global, tag: Tag, glob: &[u8], tree: Tree<H>) -> Acted<H>
    requires { is_text glob.now ≡ true }
    ensures { Performs H.tells H.seen (λ _. refused (NoPin tag glob.now))
        0 tree.seen no_devices no_devices result.ending result.state }
{
    match no_pin(alloc, tag, glob) {
        Ok(refusal) => refuse(alloc, refusal, Session::of_tree(tree)),
        Err(_) => give_up(Session::of_tree(tree)),
    }
}

// Adds globs of a tag.
fn add<H: Host>(
    alloc: Global,
    tag: &Tag,
    globs: &[Vec<u8>],
    mut pins: Pins,
    tree: Tree<H>,
) -> Acted<H>
    ensures { Performs H.tells H.seen (λ t. over_globs (λ gs. write_run (with_globs tag.now gs pins) t tree.db) (pin_globs (texts globs.now)))
        0 tree.seen no_devices no_devices result.ending result.state }
{
    let globs = match PinGlobs::parse(alloc, globs) {
        Ok(Some(globs)) => globs,
        Ok(None) => return finish(Session::of_tree(tree)),
        Err(_) => return give_up(Session::of_tree(tree)),
    };
    match pins.add(alloc, tag, globs.as_slice()) {
        Ok(()) => write(alloc, &pins, tree),
        Err(_) => give_up(Session::of_tree(tree)),
    }
}

// Takes some globs of a tag away, one after the other; or gives the first that isn't there.
fn remove_globs<'g>(pins: &mut Pins, tag: &Tag, globs: &'g [Glob]) -> Option<&'g Glob>
    requires { list_all is_pin_glob globs.now ≡ true }
    ensures left { MatchOption result (without_globs tag.now globs.now pins.old ≡ Ok pins.new)
        (λ glob. without_globs tag.now globs.now pins.old ≡ Err glob.now) }
    ensures form { IfSome result (λ glob. is_pin_glob glob.now ≡ true) }
{
    for glob in globs {
        if !pins.remove(tag, glob) {
            return Some(glob);
        }
    }
    None
}

// Removes globs of a tag.
fn remove<H: Host>(
    alloc: Global,
    tag: Tag,
    globs: &[Vec<u8>],
    mut pins: Pins,
    tree: Tree<H>,
) -> Acted<H>
    ensures { Performs H.tells H.seen (λ t. over_globs (λ gs. left_run tag (without_globs tag gs pins) t tree.db) (pin_globs (texts globs.now)))
        0 tree.seen no_devices no_devices result.ending result.state }
{
    let globs = match PinGlobs::parse(alloc, globs) {
        Ok(Some(globs)) => globs,
        Ok(None) => return finish(Session::of_tree(tree)),
        Err(_) => return give_up(Session::of_tree(tree)),
    };
    match remove_globs(&mut pins, &tag, globs.as_slice()) {
        Some(glob) => refuse_glob(alloc, tag, glob.bytes(), tree),
        None => write(alloc, &pins, tree),
    }
}

// Removes all pins with a tag.
fn remove_all<H: Host>(alloc: Global, tag: Tag, mut pins: Pins, tree: Tree<H>) -> Acted<H>
    ensures { Performs H.tells H.seen (λ t. left_run tag (without_all tag pins) t tree.db)
        0 tree.seen no_devices no_devices result.ending result.state }
{
    if pins.remove_all(&tag) {
        write(alloc, &pins, tree)
    } else {
        refuse_glob(alloc, tag, &[], tree)
    }
}

// Says the pins of a tree, or changes them.
fn show_or_change<H: Host>(alloc: Global, asked: PinAction, pins: Pins, tree: Tree<H>) -> Acted<H>
    ensures { Performs H.tells H.seen (λ t. pinning_run asked t tree.db pins)
        0 tree.seen no_devices no_devices result.ending result.state }
{
    match asked {
        PinAction::Show => show(alloc, &pins, tree),
        PinAction::Add { tag, globs } => add(alloc, &tag, globs.as_slice(), pins, tree),
        PinAction::Remove { tag, globs, all } => {
            if all {
                remove_all(alloc, tag, pins, tree)
            } else {
                remove(alloc, tag, globs.as_slice(), pins, tree)
            }
        }
    }
}

// Says the pins of a loaded tree, or changes them.
fn over_tree<H: Host>(alloc: Global, asked: PinAction, tree: Tree<H>) -> Acted<H>
    ensures { Performs H.tells H.seen (λ t. over_pins (pinning_run asked t tree.db) t)
        0 tree.seen no_devices no_devices result.ending result.state }
{
    match load_pins(alloc, tree) {
        Ok((pins, tree)) => show_or_change(alloc, asked, pins, tree),
        Err(acted) => acted,
    }
}

/// Carries `pinning` out: says the pins, or writes them in one step with more globs of a tag, without some, or without any. A glob is
/// added behind those of the first pin with the tag, or in a new last pin; its first occurrence is removed, and a pin without globs goes.
///
/// `TooLarge` of `Pins`, `BadPins` where the pins don't read, then `NoPin` for the first glob that isn't there, or for an empty one where
/// no pin has the tag and all are to go, else `TooLarge` where the text to be written passes the limit.
pub fn pinning<H: Host>(alloc: Global, asked: PinAction, session: Session<H>) -> Acted<H>
    ensures { Performs H.tells H.seen (λ tree. over_database (λ entries. over_pins (pinning_run asked tree entries) tree) (database_text tree))
        0 session no_devices no_devices result.ending result.state }
{
    match load(alloc, session) {
        Ok(tree) => over_tree(alloc, asked, tree),
        Err(acted) => acted,
    }
}
