//! Changes whose conditions are seen to hold when they are made.
ghost use Rattle.std.specs.Prelude.{◌≡◌, ◌≢◌, List, None, false, IfOk};
ghost use Rattle.tl_path.specs.Reserved.{is_reserved};
ghost use Rattle.tl_entry.specs.declared.object.Object.{Object};
ghost use Rattle.tl_tree.specs.Owners.{owner_of};
ghost use Rattle.tl_tree.specs.Conditions.{IsChange, has_later};

use std::alloc::{AllocError, Global};
use std::process::Abort;
use tl_file::{Bytes, FileBytes};
use tl_memhost::MemHost;
use tl_object::Object;
use tl_path::{Name, Path};
use tl_tree::{Change, Part, PartList, PathList, Tree};

const LABEL: &[u8] = b"step 1/1 edit done\n";

// The path is neither reserved nor the journal's, and no entry owns it.
fn free(rt: &impl Abort, tree: &Tree<MemHost>, path: &Path)
    ensures unreserved { is_reserved path.now ≡ false }
    ensures unowned { owner_of path.now tree.now.db ≡ None }
{
    assert!(rt; !path.is_reserved());
    if tree.owner(path).is_some() {
        panic!(rt; "an entry owns the path");
    }
}

fn differ(rt: &impl Abort, one: &Path, other: &Path)
    ensures { one.now ≢ other.now }
{
    if one == other {
        panic!(rt; "one path twice");
    }
}

fn names_differ(rt: &impl Abort, one: &Name, other: &Name)
    ensures { one.now ≢ other.now }
{
    if one == other {
        panic!(rt; "one name twice");
    }
}

// The parts as a change, with the label.
fn labelled(alloc: Global, parts: Vec<Part>) -> Result<Change, AllocError>
    ensures { IfOk result (λ change. (change.parts ≡ parts.items) × (change.label ≡ LABEL.now)) }
{
    Ok(Change {
        parts: PartList::new(parts),
        label: Bytes::new(Vec::from_slice(alloc, LABEL)?),
    })
}

// A change that removes a package, and enters another one's entry.
pub(crate) fn of_entries(
    rt: &impl Abort,
    alloc: Global,
    removed: Name,
    entry: Object,
) -> Result<Change, AllocError>
    ensures change { IfOk result (λ change. (db : List Object) → IsChange db change.parts change.label) }
    ensures whole { IfOk result (λ change. has_later change.parts ≡ false) }
{
    names_differ(rt, &removed, &entry.name);
    let parts = [Part::Remove { name: removed }, Part::Entry { entry }];
    labelled(alloc, Vec::from_array(alloc, parts)?)
}

// Files beside those of entries: one that is written, one that is erased, and one whose bytes come later.
#[derive(Drop)]
pub(crate) struct Loose {
    pub(crate) written: FileBytes,
    pub(crate) erased: Path,
    pub(crate) later: Path,
}

// A change of these files.
pub(crate) fn of_files(
    rt: &impl Abort,
    alloc: Global,
    tree: &Tree<MemHost>,
    files: Loose,
) -> Result<Change, AllocError>
    ensures { IfOk result (λ change. IsChange tree.now.db change.parts change.label) }
{
    free(rt, tree, &files.written.path);
    free(rt, tree, &files.erased);
    free(rt, tree, &files.later);
    differ(rt, &files.written.path, &files.erased);
    differ(rt, &files.written.path, &files.later);
    differ(rt, &files.erased, &files.later);
    let later = Vec::from_array(alloc, [files.later])?;
    let parts = [
        Part::Write {
            path: files.written.path,
            bytes: files.written.bytes,
        },
        Part::Erase { path: files.erased },
        Part::Later {
            paths: PathList::new(later),
        },
    ];
    labelled(alloc, Vec::from_array(alloc, parts)?)
}
