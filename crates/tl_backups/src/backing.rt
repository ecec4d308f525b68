//! `backup`: packages, each backed up in a step of its own.
ghost use Rattle.std.specs.Prelude.{◌≡◌, ◌++◌, [], ◌∷◌, List, IfOk, IfErr, OnOk, find, if◌then◌else◌, length, string_bytes};
ghost use Rattle.std.specs.List.{enumerate_from};
ghost use Rattle.std.specs.Option.{option_copied};
ghost use Rattle.tl_model.specs.Acks.{IsLabel};
ghost use Rattle.tl_model.specs.Lines.{IsLine};
ghost use Rattle.tl_model.specs.Seen.{Told};
ghost use Rattle.tl_model.specs.Volume.{Volume};
ghost use Rattle.tl_entry.specs.declared.object.Object.{Object};
ghost use Rattle.tl_tree.specs.Planted.{database_text};
ghost use Rattle.tl_backup.specs.Asked.{IsAsked, IsCausedBy, tree_in};
ghost use Rattle.tl_backup.specs.Autobackup.{revision_at};
ghost use Rattle.tl_backup.specs.Frames.{IsBackupPart};
ghost use Rattle.tl_command.specs.Endings.{no_devices};
ghost use Rattle.tl_command.specs.Labels.{step_label};
ghost use Rattle.tl_command.specs.Loaded.{Steps};
ghost use Rattle.tl_command.specs.Performs.{Performs};
ghost use Rattle.tl_command.specs.Runs.{Run, over_database, stepping};
ghost use Rattle.tl_command.specs.Steps.{running};
ghost use Rattle.tl_backups.specs.Backing.{IsChecked, installed_fault, nothing_left, backup_run, backup_text, backup_step, checked_run, fault_among, is_own_name, size_fault, files_fault, open_names, packages_fault, packages_of};
ghost use Rattle.tl_backups.specs.Continuing.{Continues};

use crate::faults::fault_ends;
use std::alloc::{AllocError, Global};
use tl_backup::{BackupError, large_quantity, missing_file};
use tl_command::{Acted, Refusal, Session, finish, give_up, load, refuse, step, step_label};
use tl_db::Db;
use tl_file::Bytes;
use tl_host::Host;
use tl_object::Object;
use tl_path::Name;
use tl_tree::{Change, Part, PartList, Tree};

fn is_own_name(name: &Name) -> bool
    ensures { result ≡ is_own_name name.now }
{
    name.bytes().starts_with(b"00texlive")
}

// Adds the name of an installed package, unless it is protected.
fn push_open(names: &mut Vec<Name>, entry: &Object) -> Result<(), AllocError>
    ensures { OnOk result (names.new.items ≡ names.old.items ++ open_names (entry.now ∷ [])) }
{
    if is_own_name(&entry.name) {
        return Ok(());
    }
    names.push(entry.name.clone()?)?;
    Ok(())
}

// Adds the names of the installed packages that aren't protected.
#[tactic(auto, using(crate::proofs::Packages::open_more))]
fn push_installed(names: &mut Vec<Name>, db: &Db) -> Result<(), AllocError>
    ensures { OnOk result (names.new.items ≡ names.old.items ++ open_names db.now) }
{
    for entry in db.entries() {
        push_open(names, entry)?;
    }
    Ok(())
}

// The names of packages, with those of the installed ones where all are meant.
fn named_packages(
    alloc: Global,
    names: &[Name],
    every: bool,
    db: &Db,
) -> Result<Vec<Name>, AllocError>
    ensures { IfOk result (λ packages. packages.items ≡ names.now ++ (if every then open_names db.now else [])) }
{
    let mut packages = Vec::with_capacity(alloc, names.len())?;
    for name in names {
        packages.push(name.clone()?)?;
    }
    if every {
        push_installed(&mut packages, db)?;
    }
    Ok(packages)
}

// The packages that are backed up, in the order of their names, each once.
fn packages_of(alloc: Global, names: &[Name], every: bool, db: &Db) -> Result<Vec<Name>, AllocError>
    ensures { IfOk result (λ packages. packages.items ≡ packages_of names.now every db.now) }
{
    let mut packages = named_packages(alloc, names, every, db)?;
    packages.sort_unstable();
    packages.dedup();
    Ok(packages)
}

// The first package that is protected.
fn first_protected(packages: &[Name]) -> Option<&Name>
    ensures { option_copied result ≡ find is_own_name packages.now }
{
    packages.iter().find(|name| is_own_name(name))
}

// Whether a package is installed.
fn check_installed(name: &Name, db: &Db) -> Result<(), BackupError>
    ensures fault { IsChecked result (installed_fault db.now name.now) }
    ensures quiet { IfErr result (λ e. e ≡ BackupError.HostFault → ⊥) }
{
    if db.get(name).is_none() {
        let name = name.clone()?;
        return Err(BackupError::NotInstalled { name });
    }
    Ok(())
}

fn check_all_installed(packages: &[Name], db: &Db) -> Result<(), BackupError>
    ensures fault { IsChecked result (fault_among (installed_fault db.now) packages.now) }
    ensures quiet { IfErr result (λ e. e ≡ BackupError.HostFault → ⊥) }
{
    for name in packages {
        check_installed(name, db)?;
    }
    Ok(())
}

// Whether the files of a package are there.
fn check_missing<H: Host>(alloc: Global, name: &Name, tree: &mut Tree<H>) -> Result<(), BackupError>
    ensures fault { Told H.tells (IsChecked result (files_fault tree.old.db (tree_in tree.old) name.now)) }
    ensures asked { IsAsked H.tells tree.old tree.new }
    ensures cause { IfErr result (IsCausedBy tree.old tree.new) }
{
    match missing_file(alloc, tree, name)? {
        Some(path) => Err(BackupError::FileMissing { path }),
        None => Ok(()),
    }
}

fn check_all_missing<H: Host>(
    alloc: Global,
    packages: &[Name],
    tree: &mut Tree<H>,
) -> Result<(), BackupError>
    ensures fault { Told H.tells (IsChecked result (fault_among (files_fault tree.old.db (tree_in tree.old)) packages.now)) }
    ensures asked { IsAsked H.tells tree.old tree.new }
    ensures cause { IfErr result (IsCausedBy tree.old tree.new) }
{
    for name in packages {
        check_missing(alloc, name, tree)?;
    }
    Ok(())
}

// Whether a package can be backed up, by the lengths of its files.
fn check_large<H: Host>(alloc: Global, name: &Name, tree: &mut Tree<H>) -> Result<(), BackupError>
    ensures fault { Told H.tells (IsChecked result (size_fault tree.old.db (tree_in tree.old) name.now)) }
    ensures asked { IsAsked H.tells tree.old tree.new }
    ensures cause { IfErr result (IsCausedBy tree.old tree.new) }
{
    match large_quantity(alloc, tree, name)? {
        Some(what) => {
            let limit = what.limit();
            Err(BackupError::TooLarge { what, limit })
        }
        None => Ok(()),
    }
}

fn check_all_large<H: Host>(
    alloc: Global,
    packages: &[Name],
    tree: &mut Tree<H>,
) -> Result<(), BackupError>
    ensures fault { Told H.tells (IsChecked result (fault_among (size_fault tree.old.db (tree_in tree.old)) packages.now)) }
    ensures asked { IsAsked H.tells tree.old tree.new }
    ensures cause { IfErr result (IsCausedBy tree.old tree.new) }
{
    for name in packages {
        check_large(alloc, name, tree)?;
    }
    Ok(())
}

// Whether packages can be backed up: each kind of fault is looked for over all of them before the next one.
fn check_packages<H: Host>(
    alloc: Global,
    packages: &[Name],
    tree: &mut Tree<H>,
) -> Result<(), BackupError>
    ensures fault { Told H.tells (IsChecked result (packages_fault packages.now tree.old.db (tree_in tree.old))) }
    ensures asked { IsAsked H.tells tree.old tree.new }
    ensures cause { IfErr result (IsCausedBy tree.old tree.new) }
{
    check_all_installed(packages, tree.db())?;
    check_all_missing(alloc, packages, tree)?;
    check_all_large(alloc, packages, tree)
}

// What a package is backed up as.
fn backup_text(alloc: Global, name: &Name, revision: u32) -> Result<String, AllocError>
    ensures text { IfOk result (λ text. string_bytes text ≡ backup_text name.now revision) }
    ensures line { IfOk result (λ text. IsLine (string_bytes text)) }
{
    let name = name.text();
    format!(in alloc; "backup {name} r{revision}")
}

// The line that acknowledges a backup.
fn label_of(
    alloc: Global,
    number: usize,
    count: usize,
    name: &Name,
    revision: u32,
) -> Result<Vec<u8>, AllocError>
    ensures text { IfOk result (λ label. label.items ≡ step_label number count (backup_text name.now revision)) }
    ensures label { IfOk result (λ label. IsLabel label.items) }
{
    let text = backup_text(alloc, name, revision)?;
    step_label(alloc, number, count, text.as_str())
}

// The change that backs a package up.
fn change_of(
    alloc: Global,
    number: usize,
    count: usize,
    name: &Name,
    revision: u32,
    part: Part,
) -> Result<Change, AllocError>
    ensures parts { IfOk result (λ change. change.parts ≡ part ∷ []) }
    ensures label { IfOk result (λ change. change.label ≡ step_label number count (backup_text name.now revision)) }
    ensures one { IfOk result (λ change. IsLabel change.label) }
{
    let label = Bytes::new(label_of(alloc, number, count, name, revision)?);
    let mut parts = Vec::new(alloc);
    parts.push(part)?;
    Ok(Change {
        parts: PartList::new(parts),
        label,
    })
}

// The revision of an installed package; 0 where none has the name.
fn revision_at(db: &Db, name: &Name) -> u32
    ensures { result ≡ revision_at db.now name.now }
{
    match db.get(name) {
        Some(entry) => entry.revision,
        None => 0,
    }
}

// Makes the step whose part backs a package up; or, where it isn't made, how the command ends.
fn make_backup<H: Host>(
    alloc: Global,
    number: usize,
    count: usize,
    name: &Name,
    part: Part,
    tree: Tree<H>,
) -> Result<Tree<H>, Acted<H>>
    requires { IsBackupPart name.now tree.db part }
    ensures made { IfOk result (λ next. Steps H.tells (part ∷ [])
        (step_label number count (backup_text name.now (revision_at tree.db name.now))) tree next) }
    ensures acted { IfErr result (λ acted. (rest : Volume → Run) → Performs H.tells H.seen
        (λ t. stepping tree.db (part ∷ []) (step_label number count (backup_text name.now (revision_at tree.db name.now)))
        (rest t) t) 0 tree.seen no_devices no_devices acted.ending acted.state) }
{
    let revision = revision_at(tree.db(), name);
    let Ok(change) = change_of(alloc, number, count, name, revision, part) else {
        return Err(give_up(Session::of_tree(tree)));
    };
    step(alloc, &change, tree)
}

// The step that backs a package up.
fn back_up_one<H: Host>(
    alloc: Global,
    number: usize,
    count: usize,
    name: &Name,
    tree: Tree<H>,
) -> Result<Tree<H>, Acted<H>>
    ensures made { IfOk result (λ next. Continues H.tells H.seen (backup_step count (number, name.now)) tree next) }
    ensures acted { IfErr result (λ acted. (rest : List Object → Volume → Run) → Performs H.tells H.seen
        (λ t. backup_step count (number, name.now) rest tree.db t) 0 tree.seen no_devices no_devices acted.ending acted.state) }
{
    tree.stands();
    let mut tree = tree;
    match tl_backup::backup(alloc, &mut tree, name) {
        Ok(part) => make_backup(alloc, number, count, name, part, tree),
        Err(fault) => Err(fault_ends(alloc, fault, tree)),
    }
}

// Backs packages up, one after another.
fn back_up_all<H: Host>(alloc: Global, packages: &[Name], tree: Tree<H>) -> Acted<H>
    ensures { Performs H.tells H.seen (λ t. running (backup_step (length packages.now)) (enumerate_from 1 packages.now) nothing_left tree.db t)
        0 tree.seen no_devices no_devices result.ending result.state }
{
    let mut tree = tree;
    for (before, name) in packages.iter().enumerate() {
        tree = match back_up_one(alloc, before + 1, packages.len(), name, tree) {
            Ok(next) => next,
            Err(acted) => return acted,
        };
    }
    finish(Session::of_tree(tree))
}

// Backs packages up, where none has a fault.
fn back_up_checked<H: Host>(alloc: Global, packages: &[Name], tree: Tree<H>) -> Acted<H>
    ensures { Performs H.tells H.seen (λ t. checked_run packages.now t tree.db) 0 tree.seen no_devices no_devices result.ending result.state }
{
    tree.stands();
    let mut tree = tree;
    match check_packages(alloc, packages, &mut tree) {
        Ok(()) => back_up_all(alloc, packages, tree),
        Err(fault) => fault_ends(alloc, fault, tree),
    }
}

// Backs packages up, where none is protected.
fn back_up<H: Host>(alloc: Global, names: &[Name], every: bool, tree: Tree<H>) -> Acted<H>
    ensures { Performs H.tells H.seen (λ t. backup_run names.now every t tree.db) 0 tree.seen no_devices no_devices result.ending result.state }
{
    let Ok(packages) = packages_of(alloc, names, every, tree.db()) else {
        return give_up(Session::of_tree(tree));
    };
    let Some(name) = first_protected(&packages) else {
        return back_up_checked(alloc, &packages, tree);
    };
    match name.clone() {
        Ok(name) => refuse(alloc, Refusal::Protected { name }, Session::of_tree(tree)),
        Err(_) => give_up(Session::of_tree(tree)),
    }
}

/// Carries `backup` out: backs packages up, each in a step of its own, in the order of their names: those that are named, and with the
/// flag all that are installed and aren't the program's own.
///
/// `Protected`, `NotInstalled`, `FileMissing`, and `TooLarge` of `File` or `Frame`: each kind over all packages before the next one and
/// before the first step.
pub fn backup<H: Host>(alloc: Global, names: &[Name], every: bool, session: Session<H>) -> Acted<H>
    ensures { Performs H.tells H.seen (λ tree. over_database (backup_run names.now every tree) (database_text tree))
        0 session no_devices no_devices result.ending result.state }
{
    match load(alloc, session) {
        Ok(tree) => back_up(alloc, names, every, tree),
        Err(acted) => acted,
    }
}
