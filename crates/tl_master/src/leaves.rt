//! The index of a master.
ghost use Rattle.std.specs.Prelude.{◌≡◌, [], fold, Ok, IfOk, IfErr};
ghost use Rattle.tl_index.specs.declared.hit.Leaf.{Leaf};
ghost use Rattle.tl_master.specs.Answers.{Asks, IsFree};
ghost use Rattle.tl_master.specs.Listing.{index_of, indexed, leaf_in, size_in};

use crate::error::MasterError;
use std::alloc::Global;
use tl_host::Host;
use tl_index::{Index, Leaf};
use tl_marks::MarkedPath;
use tl_tree::Tree;

// The size of a listed path: 0 where it is gone.
fn size_in<H: Host>(tree: &mut Tree<H>, marked: &MarkedPath) -> Result<u64, MasterError>
    ensures { Asks H.tells (λ size. size) (λ t. Ok (size_in t marked.now)) tree.old tree.new result }
{
    if !marked.lives {
        return Ok(0);
    }
    match tree.size(marked.path.view()) {
        Ok(Some(size)) => Ok(size),
        Ok(None) => Ok(0),
        Err(_) => Err(MasterError::HostFault),
    }
}

// Puts a listed path into an index, unless it is reserved.
fn put_leaf<H: Host>(
    alloc: Global,
    tree: &mut Tree<H>,
    index: &mut Index,
    marked: MarkedPath,
) -> Result<(), MasterError>
    ensures { Asks H.tells (λ _. index.new) (λ t. Ok (indexed t index.old marked)) tree.old tree.new result }
{
    if marked.path.is_reserved() {
        return Ok(());
    }
    let leaf = Leaf {
        size: size_in(tree, &marked)?,
        mark: marked.mark,
        lives: marked.lives,
    };
    index.insert(alloc, marked.path, leaf)?;
    Ok(())
}

/// The index of listed paths, each with its size. It asks for the size of each that is there and isn't reserved.
pub(crate) fn index_of<H: Host>(
    alloc: Global,
    tree: &mut Tree<H>,
    listing: Vec<MarkedPath>,
) -> Result<Index, MasterError>
    ensures { Asks H.tells (λ index. index) (λ t. Ok (index_of t listing.items)) tree.old tree.new result }
{
    let mut index = Index::new(alloc);
    for marked in listing {
        put_leaf(alloc, tree, &mut index, marked)?;
    }
    Ok(index)
}
