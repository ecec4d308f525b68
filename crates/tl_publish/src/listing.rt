//! `lsr`: the list of the names of a tree, made anew.
ghost use Rattle.std.specs.Prelude.{◌≡◌, [], ◌∷◌, None, IfOk, filter};
ghost use Rattle.tl_lsr.specs.Lists.{list_path, lsr_text};
ghost use Rattle.tl_tree.specs.Planted.{database_text};
ghost use Rattle.tl_tree.specs.declared.change.Part.TheVariants.{Write};
ghost use Rattle.tl_command.specs.Endings.{no_devices};
ghost use Rattle.tl_command.specs.Performs.{Performs};
ghost use Rattle.tl_command.specs.Runs.{over_database, finished, stepping};
ghost use Rattle.tl_publish.specs.Listable.{AreInside, is_lowest};
ghost use Rattle.tl_publish.specs.Lsr.{lsr_label, lsr_run, names_run, over_names, unless_occupied, writing_run};
ghost use Rattle.tl_publish.specs.Owning.{list_owner};

use crate::gathering::Gathered;
use crate::lowest::lowest;
use crate::owning::owned;
use crate::walk::gather;
use std::alloc::{AllocError, Global};
use tl_command::{Acted, Refusal, Session, finish, give_up, load, refuse, step};
use tl_file::Bytes;
use tl_host::Host;
use tl_kind::What;
use tl_path::{Path, PathRef};
use tl_tree::{Change, Part, PartList, Tree};

// The change that writes the list.
fn change_of(alloc: Global, text: Vec<u8>) -> Result<Change, AllocError>
    ensures parts { IfOk result (λ change. change.parts ≡ Write list_path text.items ∷ []) }
    ensures label { IfOk result (λ change. change.label ≡ lsr_label) }
{
    let path = PathRef::known("texmf-dist/ls-R").to_path(alloc)?;
    let mut parts = Vec::new(alloc);
    parts.push(Part::Write {
        path,
        bytes: Bytes::new(text),
    })?;
    Ok(Change {
        parts: PartList::new(parts),
        label: Bytes::new(Vec::from_slice(alloc, b"step 1/1 lsr done\n")?),
    })
}

// Writes the list in one step.
fn write_text<H: Host>(alloc: Global, text: Vec<u8>, tree: Tree<H>) -> Acted<H>
    requires { list_owner tree.db ≡ None }
    ensures { Performs H.tells H.seen (λ t. stepping tree.db (Write list_path text.items ∷ []) lsr_label finished t)
        0 tree.seen no_devices no_devices result.ending result.state }
{
    let Ok(change) = change_of(alloc, text) else {
        return give_up(Session::of_tree(tree));
    };
    match step(alloc, &change, tree) {
        Ok(tree) => finish(Session::of_tree(tree)),
        Err(acted) => acted,
    }
}

// Writes the list, where its text is within the limit.
fn write_list<H: Host>(alloc: Global, text: Vec<u8>, tree: Tree<H>) -> Acted<H>
    requires { list_owner tree.db ≡ None }
    ensures { Performs H.tells H.seen (λ t. writing_run text.items tree.db t)
        0 tree.seen no_devices no_devices result.ending result.state }
{
    let limit = What::Database.limit();
    if text.len() as u64 > limit {
        let what = What::Database;
        let refusal = Refusal::TooLarge { what, limit };
        return refuse(alloc, refusal, Session::of_tree(tree));
    }
    write_text(alloc, text, tree)
}

// The text that lists those of some names that have no other name below them.
fn text_of(alloc: Global, names: &[Path]) -> Result<Vec<u8>, AllocError>
    requires { AreInside names.now }
    ensures { IfOk result (λ text. text.items ≡ lsr_text (filter (is_lowest names.now) names.now)) }
{
    let paths = lowest(alloc, names)?;
    tl_lsr::write(alloc, &paths)
}

// Lists those of some names that have no other name below them.
fn list_names<H: Host>(alloc: Global, names: &[Path], tree: Tree<H>) -> Acted<H>
    requires names { AreInside names.now }
    requires free { list_owner tree.db ≡ None }
    ensures { Performs H.tells H.seen (λ t. writing_run (lsr_text (filter (is_lowest names.now) names.now)) tree.db t)
        0 tree.seen no_devices no_devices result.ending result.state }
{
    match text_of(alloc, names) {
        Ok(text) => write_list(alloc, text, tree),
        Err(_) => give_up(Session::of_tree(tree)),
    }
}

// Lists what was gathered of the names of a tree, unless a name stands below the list.
fn list_gathered<H: Host>(alloc: Global, gathered: Gathered, tree: Tree<H>) -> Acted<H>
    requires names { AreInside gathered.inside }
    requires free { list_owner tree.db ≡ None }
    ensures { Performs H.tells H.seen (λ t. unless_occupied gathered.occupant
        (writing_run (lsr_text (filter (is_lowest gathered.inside) gathered.inside)) tree.db t))
        0 tree.seen no_devices no_devices result.ending result.state }
{
    let (names, occupant) = gathered.into_parts();
    match occupant {
        Some(path) => refuse(alloc, Refusal::Occupied { path }, Session::of_tree(tree)),
        None => list_names(alloc, &names, tree),
    }
}

// Lists the names of a tree.
fn list_tree<H: Host>(alloc: Global, tree: Tree<H>) -> Acted<H>
    requires { list_owner tree.db ≡ None }
    ensures { Performs H.tells H.seen (λ t. over_names (names_run tree.db t) t)
        0 tree.seen no_devices no_devices result.ending result.state }
{
    match gather(alloc, tree) {
        Ok((gathered, tree)) => list_gathered(alloc, gathered, tree),
        Err(acted) => acted,
    }
}

// Lists the names of a loaded tree, unless an entry has the list among its files, or something above or below it.
fn over_tree<H: Host>(alloc: Global, tree: Tree<H>) -> Acted<H>
    ensures { Performs H.tells H.seen (λ t. lsr_run t tree.db)
        0 tree.seen no_devices no_devices result.ending result.state }
{
    match owned(alloc, tree.db()) {
        Ok(None) => list_tree(alloc, tree),
        Ok(Some(refusal)) => refuse(alloc, refusal, Session::of_tree(tree)),
        Err(_) => give_up(Session::of_tree(tree)),
    }
}

/// Carries `lsr` out: writes `texmf-dist/ls-R` in one step. It lists the names of the tree below `texmf-dist`, other than the list itself,
/// that have no other name below them. One walk over all names; n of them cost n log n comparisons.
///
/// `Owned` where an installed package has the list among its files, or something above or below it, at the least name of one; else
/// `TooLarge` of `Files` where the tree has more than 1,048,576 names; else `Occupied` at the least name below the list; else `TooLarge` of
/// `Database` where the text to be written passes 268,435,456 bytes.
pub fn lsr<H: Host>(alloc: Global, session: Session<H>) -> Acted<H>
    ensures { Performs H.tells H.seen (λ tree. over_database (lsr_run tree) (database_text tree))
        0 session no_devices no_devices result.ending result.state }
{
    match load(alloc, session) {
        Ok(tree) => over_tree(alloc, tree),
        Err(acted) => acted,
    }
}
