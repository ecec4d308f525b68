//! The backups of a tree.
ghost use Rattle.std.specs.Prelude.{◌≡◌, ◌++◌, [], ◌∷◌, IfOk, IfErr, IfSome, OnOk};
ghost use Rattle.std.specs.Option.{option_copied};
ghost use Rattle.tl_model.specs.Seen.{Told};
ghost use Rattle.tl_model.specs.Volume.{IsAfter, IsNext};
ghost use Rattle.tl_backup.specs.Asked.{Answers, IsAsked, IsCausedBy, IsFree, tree_in};
ghost use Rattle.tl_backup.specs.Listed.{backups_at, is_wanted, listed};
ghost use Rattle.tl_backup.specs.Ordered.{AreDifferent};

use crate::error::BackupError;
use crate::names::{Backup, backup_at};
use std::alloc::{AllocError, Global};
use tl_host::Host;
use tl_kind::What;
use tl_path::{Name, Path, PathRef};
use tl_tree::Tree;

const MOST_FILES: u32 = 1_048_576;

/// The first path of a tree behind another one in byte order, or the first of all.
pub(crate) fn next_path<H: Host>(
    alloc: Global,
    tree: &mut Tree<H>,
    after: &Option<Path>,
) -> Result<Option<Path>, BackupError>
    ensures next { Told H.tells (IfOk result (λ found. IsNext (tree_in tree.old) after.now found)) }
    ensures behind { IfOk result (λ found. IfSome found (λ path. IsAfter after.now path)) }
    ensures fault { IfErr result IsFree }
    ensures asked { IsAsked H.tells tree.old tree.new }
    ensures cause { IfErr result (IsCausedBy tree.old tree.new) }
{
    let mut name = [0; 1024];
    let after = match after {
        Some(path) => Some(path.view()),
        None => None,
    };
    match tree.next_name(after, &mut name) {
        Ok(Some(count)) => Ok(Some(PathRef::of_bytes(&name[..count]).to_path(alloc)?)),
        Ok(None) => Ok(None),
        Err(_) => Err(BackupError::HostFault),
    }
}

fn is_wanted(backup: &Backup, name: Option<&Name>) -> bool
    ensures { result ≡ is_wanted (option_copied name.entry) backup.now }
{
    match name {
        Some(name) => backup.name == *name,
        None => true,
    }
}

// Adds the backup that a path is the name of, where it is one that is asked for.
fn push_backup(
    alloc: Global,
    found: &mut Vec<Backup>,
    name: Option<&Name>,
    path: &Path,
) -> Result<(), AllocError>
    ensures { OnOk result (found.new.items ≡ found.old.items ++ backups_at (option_copied name.entry) (path.now ∷ [])) }
{
    let Some(backup) = backup_at(alloc, path.bytes())? else {
        return Ok(());
    };
    if is_wanted(&backup, name) {
        found.push(backup)?;
    }
    Ok(())
}

/// The backups of a tree, of one package or of all, by name and then by revision. `TooLarge` of `Files` where the tree has more names
/// than that limit. `HostFault` comes only where the host's faults rose. It walks over all names of the tree.
pub fn list<H: Host>(
    alloc: Global,
    tree: &mut Tree<H>,
    name: Option<&Name>,
) -> Result<Vec<Backup>, BackupError>
    ensures list { Told H.tells (Answers (λ found. found.items) result (listed (option_copied name.entry) (tree_in tree.old))) }
    ensures apart { IfOk result (λ found. AreDifferent found.items) }
    ensures asked { IsAsked H.tells tree.old tree.new }
    ensures cause { IfErr result (IsCausedBy tree.old tree.new) }
{
    let mut found = Vec::new(alloc);
    let mut last = None;
    for _number in 0..MOST_FILES + 1 {
        let path = match next_path(alloc, tree, &last) {
            Ok(Some(path)) => path,
            Ok(None) => {
                found.sort_unstable();
                return Ok(found);
            }
            Err(fault) => return Err(fault),
        };
        push_backup(alloc, &mut found, name, &path)?;
        last = Some(path);
    }
    let what = What::Files;
    let limit = what.limit();
    Err(BackupError::TooLarge { what, limit })
}
