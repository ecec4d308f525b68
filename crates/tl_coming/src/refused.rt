//! Refusals of plans by which packages come.
ghost use Rattle.std.specs.Prelude.{◌≡◌, None, IfErr, OnOk, map};
ghost use Rattle.tl_model.specs.Seen.{Told};
ghost use Rattle.tl_coming.specs.Asked.{IsAsked, IsCausedBy, IsFaultOf, tree_in};
ghost use Rattle.tl_coming.specs.Refused.{coming_fault, entries_fault};
ghost use Rattle.tl_coming.specs.Refused.{IsWantedFault};

use crate::clashes::refuse_clashes;
use crate::entries::{refuse_executes, refuse_reserved};
use crate::error::ComingError;
use crate::occupied::refuse_in_tree;
use crate::owned::refuse_owned;
use indexmap::IndexSet;
use std::alloc::Global;
use tl_db::Db;
use tl_host::Host;
use tl_object::Object;
use tl_path::Name;
use tl_tree::Tree;

// Refuses what the entries have of packages that come.
fn refuse_entries(
    alloc: Global,
    db: &Db,
    names: &IndexSet<Name>,
    coming: &[&Object],
) -> Result<(), ComingError>
    ensures ok { OnOk result (entries_fault db.now names.now.keys (map (λ entry. entry.now) coming.now) ≡ None) }
    ensures fault { IfErr result (IsWantedFault (entries_fault db.now names.now.keys (map (λ entry. entry.now) coming.now))) }
{
    refuse_executes(alloc, coming)?;
    refuse_reserved(alloc, coming)?;
    refuse_clashes(alloc, coming)?;
    refuse_owned(alloc, db, names, coming)
}

/// Refuses a plan that speaks of packages of some names, where these come, in this order: `BadExecute`, `Reserved`, `Clash`, `Owned`,
/// `TooLarge` of `Files`, `Occupied`, each at the first package in the order of the plan and there at its first execute or its least
/// path. It takes time in proportion to n log n, for n paths that come, files of installed packages and names of the tree.
pub fn refuse_coming<H: Host>(
    alloc: Global,
    tree: &mut Tree<H>,
    names: &IndexSet<Name>,
    coming: &[&Object],
) -> Result<(), ComingError>
    ensures ok { Told H.tells (OnOk result (coming_fault tree.old.db names.now.keys (tree_in tree.old) (map (λ entry. entry.now) coming.now) ≡ None)) }
    ensures fault { Told H.tells (IfErr result
        (IsFaultOf (coming_fault tree.old.db names.now.keys (tree_in tree.old) (map (λ entry. entry.now) coming.now)))) }
    ensures entries { OnOk result (entries_fault tree.old.db names.now.keys (map (λ entry. entry.now) coming.now) ≡ None) }
    ensures asked { IsAsked H.tells tree.old tree.new }
    ensures cause { IfErr result (IsCausedBy tree.old tree.new) }
{
    refuse_entries(alloc, tree.db(), names, coming)?;
    refuse_in_tree(alloc, tree, coming)
}
