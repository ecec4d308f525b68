//! What would keep a package from being backed up, found without reading its files.
ghost use Rattle.std.specs.Prelude.{◌≡◌, IfOk, IfErr};
ghost use Rattle.tl_model.specs.Seen.{Told};
ghost use Rattle.tl_db.specs.Entries.{entry_of};
ghost use Rattle.tl_backup.specs.Asked.{IsAsked, IsCausedBy, IsFree, tree_in};
ghost use Rattle.tl_backup.specs.Frames.{large_in, large_of, missing_of, size_at};

use crate::error::BackupError;
use crate::make::{missing_path, own_paths};
use std::alloc::Global;
use tl_host::Host;
use tl_kind::What;
use tl_object::write_object;
use tl_path::{Name, Path};
use tl_tree::Tree;

/// The first file of an installed package that isn't there; `None` also where none of the name is installed.
pub fn missing_file<H: Host>(
    alloc: Global,
    tree: &mut Tree<H>,
    name: &Name,
) -> Result<Option<Path>, BackupError>
    ensures found { Told H.tells (IfOk result (λ found. found ≡ missing_of (entry_of name.now tree.old.db) (tree_in tree.old))) }
    ensures fault { IfErr result IsFree }
    ensures asked { IsAsked H.tells tree.old tree.new }
    ensures cause { IfErr result (IsCausedBy tree.old tree.new) }
{
    let Some(entry) = tree.db().get(name) else {
        return Ok(None);
    };
    let paths = own_paths(alloc, entry)?;
    match missing_path(tree, &paths)? {
        Some(path) => Ok(Some(path.clone()?)),
        None => Ok(None),
    }
}

// How many bytes a tree has at a path.
fn size_at<H: Host>(tree: &mut Tree<H>, path: &Path) -> Result<u64, BackupError>
    ensures size { Told H.tells (IfOk result (λ size. size ≡ size_at (tree_in tree.old) path.now)) }
    ensures fault { IfErr result IsFree }
    ensures asked { IsAsked H.tells tree.old tree.new }
    ensures cause { IfErr result (IsCausedBy tree.old tree.new) }
{
    match tree.size(path.view()) {
        Ok(Some(size)) => Ok(size),
        Ok(None) => Ok(0),
        Err(_) => Err(BackupError::HostFault),
    }
}

// What is too large of the backup of an entry, by the length of its text and the paths of its files.
fn large_in<H: Host>(
    tree: &mut Tree<H>,
    text: &[u8],
    paths: &[Path],
) -> Result<Option<What>, BackupError>
    ensures found { Told H.tells (IfOk result (λ found. found ≡ large_in text.now (tree_in tree.old) paths.now)) }
    ensures fault { IfErr result IsFree }
    ensures asked { IsAsked H.tells tree.old tree.new }
    ensures cause { IfErr result (IsCausedBy tree.old tree.new) }
{
    let mut total = (text.len() as u64).saturating_add(24);
    for path in paths {
        let size = size_at(tree, path)?;
        if size > What::File.limit() {
            return Ok(Some(What::File));
        }
        total = total
            .saturating_add(10)
            .saturating_add(path.bytes().len() as u64)
            .saturating_add(size);
    }
    if total > What::Frame.limit() {
        return Ok(Some(What::Frame));
    }
    Ok(None)
}

/// What is too large of the backup of an installed package whose files are there: a file, or the frame; `None` also where none of the
/// name is installed.
pub fn large_quantity<H: Host>(
    alloc: Global,
    tree: &mut Tree<H>,
    name: &Name,
) -> Result<Option<What>, BackupError>
    ensures found { Told H.tells (IfOk result (λ found. found ≡ large_of (entry_of name.now tree.old.db) (tree_in tree.old))) }
    ensures fault { IfErr result IsFree }
    ensures asked { IsAsked H.tells tree.old tree.new }
    ensures cause { IfErr result (IsCausedBy tree.old tree.new) }
{
    let Some(entry) = tree.db().get(name) else {
        return Ok(None);
    };
    let text = write_object(alloc, entry)?;
    let paths = own_paths(alloc, entry)?;
    large_in(tree, &text, &paths)
}
