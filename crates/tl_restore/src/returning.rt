//! What keeps an entry from coming back.
ghost use Rattle.std.specs.Prelude.{◌≡◌, [], ◌∷◌, None, IfOk, IfErr, OnOk};
ghost use Rattle.tl_model.specs.Seen.{Told};
ghost use Rattle.tl_coming.specs.Asked.{IsAsked, IsCausedBy, IsFaultOf, tree_in};
ghost use Rattle.tl_coming.specs.Refused.{IsWantedFault};
ghost use Rattle.tl_restore.specs.Restoring.{paths_fault, return_fault};

use indexmap::IndexSet;
use std::alloc::{AllocError, Global};
use tl_coming::{ComingError, refuse_in_tree, refuse_owned, refuse_reserved};
use tl_db::Db;
use tl_host::Host;
use tl_object::Object;
use tl_path::Name;
use tl_tree::Tree;

// The set of one name.
fn name_alone(alloc: Global, name: &Name) -> Result<IndexSet<Name>, AllocError>
    ensures { IfOk result (λ names. names.keys ≡ name.now ∷ []) }
{
    let mut names = IndexSet::new(alloc);
    names.insert(name.clone()?)?;
    Ok(names)
}

// Refuses an entry for its least reserved path, or for the least one that touches a file of an installed package of another name.
fn refuse_paths(alloc: Global, entry: &Object, db: &Db) -> Result<(), ComingError>
    ensures ok { OnOk result (paths_fault db.now entry.now ≡ None) }
    ensures fault { IfErr result (IsWantedFault (paths_fault db.now entry.now)) }
{
    let names = name_alone(alloc, &entry.name)?;
    let coming = [entry];
    refuse_reserved(alloc, &coming)?;
    refuse_owned(alloc, db, &names, &coming)
}

/// Refuses an entry that comes back, in this order: `Reserved`, `Owned`, `TooLarge` of `Files`, `Occupied`, each at its least path. It
/// takes time in proportion to n log n, for n paths of the entry, files of installed packages and names of the tree.
pub(crate) fn refuse_return<H: Host>(
    alloc: Global,
    entry: &Object,
    tree: &mut Tree<H>,
) -> Result<(), ComingError>
    ensures ok { Told H.tells (OnOk result (return_fault tree.old.db (tree_in tree.old) entry.now ≡ None)) }
    ensures fault { Told H.tells (IfErr result (IsFaultOf (return_fault tree.old.db (tree_in tree.old) entry.now))) }
    ensures paths { OnOk result (paths_fault tree.old.db entry.now ≡ None) }
    ensures asked { IsAsked H.tells tree.old tree.new }
    ensures cause { IfErr result (IsCausedBy tree.old tree.new) }
{
    refuse_paths(alloc, entry, tree.db())?;
    refuse_in_tree(alloc, tree, &[entry])
}
