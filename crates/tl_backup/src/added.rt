//! What a step adds for the packages that leave or are replaced in it: their backups, and the erasures of older ones.
ghost use Rattle.std.specs.Prelude.{◌≡◌, ◌<◌, ◌++◌, [], ◌∷◌, Some, Ok, IfOk, IfErr, IfSome, OnOk, map};
ghost use Rattle.std.specs.List.{flat_map, IsDistinct};
ghost use Rattle.tl_model.specs.Seen.{Told};
ghost use Rattle.tl_model.specs.Volume.{same_name};
ghost use Rattle.tl_db.specs.Options.{option_value};
ghost use Rattle.tl_db.specs.declared.options.TreeOption.TheVariants as options;
ghost use Rattle.tl_backup.specs.Asked.{Answers, IsAsked, IsCausedBy, tree_in};
ghost use Rattle.tl_backup.specs.Autobackup.{autobackup, backups_of, erasing, gone_of, kept_by, pruning, pruning_by, revision_at, with_parts};
ghost use Rattle.tl_backup.specs.Form.{AreAt, AreOfBackups, backup_by, installed};

use crate::error::BackupError;
use crate::listing::list;
use crate::make::backup;
use crate::names::{Backup, backup_path, pruned};
use std::alloc::{AllocError, Global};
use tl_db::{Db, OptionError};
use tl_host::Host;
use tl_path::Name;
use tl_text::decimal_u32;
use tl_tree::{Part, Tree};

// The value of a tree's option `autobackup`.
fn autobackup_value(alloc: Global, db: &Db) -> Result<Vec<u8>, AllocError>
    ensures { IfOk result (λ value. value.items ≡ option_value options.Autobackup db.now) }
{
    match db.option(alloc, b"autobackup") {
        Ok(value) => Ok(value),
        Err(OptionError::UnknownOption | OptionError::BadValue) => unreachable!(),
        Err(OptionError::NoMemory) => Err(AllocError),
    }
}

// How many backups of a package are kept by a value of the option; `None` where all are.
fn kept_by(value: &[u8]) -> Option<u32>
    ensures kept { result ≡ kept_by value.now }
    ensures some { IfSome result (λ keep. 0 < keep) }
{
    match decimal_u32(value) {
        Ok(keep) if keep > 0 => Some(keep),
        _ => None,
    }
}

// The revision of an installed package; 0 where none has the name.
fn revision_at(db: &Db, name: &Name) -> u32
    ensures { result ≡ revision_at db.now name.now }
{
    match db.get(name) {
        Some(entry) => entry.revision,
        None => 0,
    }
}

fn push_part(parts: &mut Vec<Part>, part: Part) -> Result<(), AllocError>
    ensures { OnOk result (parts.new.items ≡ parts.old.items ++ part ∷ []) }
{
    parts.push(part)?;
    Ok(())
}

// The parts that back packages up.
fn backups_of<H: Host>(
    alloc: Global,
    tree: &mut Tree<H>,
    names: &[Name],
) -> Result<Vec<Part>, BackupError>
    ensures parts { Told H.tells (Answers (λ parts. parts.items) result (backups_of names.now tree.old.db (tree_in tree.old))) }
    ensures named { IfOk result (λ parts. AreAt parts.items (map (installed (revision_at tree.old.db)) names.now)) }
    ensures asked { IsAsked H.tells tree.old tree.new }
    ensures cause { IfErr result (IsCausedBy tree.old tree.new) }
{
    let mut parts = Vec::new(alloc);
    for name in names {
        match backup(alloc, tree, name) {
            Ok(part) => push_part(&mut parts, part)?,
            Err(fault) => return Err(fault),
        }
    }
    Ok(parts)
}

// The part that erases a backup.
fn erasing(alloc: Global, backup: &Backup) -> Result<Part, AllocError>
    ensures part { IfOk result (λ part. part ≡ erasing backup.now) }
    ensures named { IfOk result (λ part. backup_by part ≡ Some backup.now) }
{
    let path = backup_path(alloc, &backup.name, backup.revision)?;
    Ok(Part::Erase { path })
}

// Adds the parts that erase some backups.
fn push_erased(alloc: Global, parts: &mut Vec<Part>, gone: &[Backup]) -> Result<(), AllocError>
    ensures parts { OnOk result (parts.new.items ≡ parts.old.items ++ map erasing gone.now) }
    ensures named { OnOk result (AreAt (map erasing gone.now) gone.now) }
{
    for backup in gone {
        push_part(parts, erasing(alloc, backup)?)?;
    }
    Ok(())
}

// Adds the parts that erase the backups of a package that go.
fn push_pruned(
    alloc: Global,
    parts: &mut Vec<Part>,
    keep: u32,
    db: &Db,
    backups: &[Backup],
    name: &Name,
) -> Result<(), AllocError>
    requires { 0 < keep }
    ensures parts { OnOk result (parts.new.items ≡ parts.old.items ++ map erasing (gone_of keep db.now backups.now name.now)) }
    ensures named { OnOk result (AreAt (map erasing (gone_of keep db.now backups.now name.now)) (gone_of keep db.now backups.now name.now)) }
{
    let gone = pruned(alloc, backups, name, revision_at(db, name), keep)?;
    push_erased(alloc, parts, &gone)
}

// The parts that erase the backups of packages that go.
fn pruning(
    alloc: Global,
    keep: u32,
    names: &[Name],
    db: &Db,
    backups: &[Backup],
) -> Result<Vec<Part>, AllocError>
    requires { 0 < keep }
    ensures parts { IfOk result (λ parts. parts.items ≡ pruning keep names.now db.now backups.now) }
    ensures named { IfOk result (λ parts. AreAt parts.items (flat_map (gone_of keep db.now backups.now) names.now)) }
{
    let mut parts = Vec::new(alloc);
    for name in names {
        push_pruned(alloc, &mut parts, keep, db, backups, name)?;
    }
    Ok(parts)
}

// Adds the parts by which backups go, where so many of each package are kept.
fn add_pruning<H: Host>(
    alloc: Global,
    tree: &mut Tree<H>,
    names: &[Name],
    keep: u32,
    parts: Vec<Part>,
) -> Result<Vec<Part>, BackupError>
    requires keep { 0 < keep }
    requires names { IsDistinct same_name names.now }
    requires named { AreAt parts.items (map (installed (revision_at tree.old.db)) names.now) }
    ensures parts { Told H.tells (Answers (λ added. added.items) result
        (with_parts (Ok parts.items) (pruning_by (Some keep) names.now tree.old.db (tree_in tree.old)))) }
    ensures form { IfOk result (λ added. AreOfBackups added.items) }
    ensures asked { IsAsked H.tells tree.old tree.new }
    ensures cause { IfErr result (IsCausedBy tree.old tree.new) }
{
    let backups = list(alloc, tree, None)?;
    let mut gone = pruning(alloc, keep, names, tree.db(), &backups)?;
    let mut added = parts;
    added.append(&mut gone)?;
    Ok(added)
}

/// What a step adds for the packages that leave or are replaced in it, by the tree's option `autobackup`: nothing where it is 0; else the
/// backup of each, in order, and behind them, where it is above 0, the erasures of the backups that aren't among so many of each package.
///
/// `NotInstalled`, `FileMissing` and `TooLarge` of `File` and `Frame` at the first package that has a fault; then, where the option is
/// above 0, `TooLarge` of `Files` where the tree has more names than that limit. `HostFault` comes only where the host's faults rose.
/// Where the option is above 0 it walks over all names of the tree.
pub fn autobackup<H: Host>(
    alloc: Global,
    tree: &mut Tree<H>,
    names: &[Name],
) -> Result<Vec<Part>, BackupError>
    requires { IsDistinct same_name names.now }
    ensures parts { Told H.tells (Answers (λ parts. parts.items) result (autobackup names.now tree.old.db (tree_in tree.old))) }
    ensures form { IfOk result (λ parts. AreOfBackups parts.items) }
    ensures asked { IsAsked H.tells tree.old tree.new }
    ensures cause { IfErr result (IsCausedBy tree.old tree.new) }
{
    let value = autobackup_value(alloc, tree.db())?;
    if value.as_slice() == b"0".as_slice() {
        return Ok(Vec::new(alloc));
    }
    let parts = backups_of(alloc, tree, names)?;
    match kept_by(&value) {
        Some(keep) => add_pruning(alloc, tree, names, keep, parts),
        None => Ok(parts),
    }
}
