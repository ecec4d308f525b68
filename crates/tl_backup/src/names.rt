//! Which file of a tree is a backup.
ghost use Rattle.std.specs.Prelude.{◌≡◌, ◌<◌, IfOk, Some, filter};
ghost use Rattle.std.specs.Char.{is_ascii_digit};
ghost use Rattle.std.specs.List.{suffix_len};
ghost use Rattle.std.specs.Option.{option_copied};
ghost use Rattle.tl_backup.specs.Files.{backup_at, backup_of, backup_path, before_back, behind_front, is_other, is_plain_decimal, pruned_from, revision_of};

use std::alloc::{AllocError, Global};
use tl_path::{Name, NameError, Path};
use tl_text::decimal_u32;

/// A backup of a package: the package's name and its revision then. Its order is by name, then by revision.
#[derive(Clone, Debug, PartialEq, Eq, PartialOrd, Ord, Drop)]
pub struct Backup {
    pub name: Name,
    pub revision: u32,
}

// What a text has behind a front.
fn behind_front<'a>(front: &[u8], text: &'a [u8]) -> Option<&'a [u8]>
    ensures { option_copied result ≡ behind_front front.now text.now }
{
    text.strip_prefix(front)
}

// What a text has before a back.
fn before_back<'a>(back: &[u8], text: &'a [u8]) -> Option<&'a [u8]>
    ensures { option_copied result ≡ before_back back.now text.now }
{
    text.strip_suffix(back)
}

// How many digits a text ends with.
fn digits_at_end(text: &[u8]) -> usize
    ensures { result ≡ suffix_len is_ascii_digit text.now }
{
    text.iter()
        .rev()
        .take_while(|byte| byte.is_ascii_digit())
        .count()
}

// Whether a text is the digits of a number without leading zeros.
fn is_plain_decimal(text: &[u8]) -> bool
    ensures { result ≡ is_plain_decimal text.now }
{
    text.len() == 1 || text.first() != Some(&b'0')
}

// The revision that digits without leading zeros stand for.
fn revision_of(digits: &[u8]) -> Option<u32>
    ensures { result ≡ revision_of digits.now }
{
    match decimal_u32(digits) {
        Ok(revision) if is_plain_decimal(digits) => Some(revision),
        _ => None,
    }
}

// The backup that a text `NAME.rREV` names.
fn backup_of(alloc: Global, text: &[u8]) -> Result<Option<Backup>, AllocError>
    ensures { IfOk result (λ found. found ≡ backup_of text.now) }
{
    let (front, digits) = text.split_at(text.len() - digits_at_end(text));
    let Some(name) = before_back(b".r", front) else {
        return Ok(None);
    };
    let Some(revision) = revision_of(digits) else {
        return Ok(None);
    };
    match Name::parse(alloc, name) {
        Ok(name) => Ok(Some(Backup { name, revision })),
        Err(NameError::BadName { .. }) => Ok(None),
        Err(NameError::NoMemory) => Err(AllocError),
    }
}

/// The backup that a path is the name of: `tlpkg/backups/NAME.rREV.tlc`. `None` for any other.
pub(crate) fn backup_at(alloc: Global, path: &[u8]) -> Result<Option<Backup>, AllocError>
    ensures { IfOk result (λ found. found ≡ backup_at path.now) }
{
    let Some(file) = behind_front(b"tlpkg/backups/", path) else {
        return Ok(None);
    };
    match before_back(b".tlc", file) {
        Some(text) => backup_of(alloc, text),
        None => Ok(None),
    }
}

fn is_other(backup: &Backup, name: &Name, coming: u32) -> bool
    ensures { result ≡ is_other name.now coming backup.now }
{
    backup.name == *name && backup.revision != coming
}

// The backups of a package at other revisions than the one that comes.
fn others(
    alloc: Global,
    backups: &[Backup],
    name: &Name,
    coming: u32,
) -> Result<Vec<Backup>, AllocError>
    ensures { IfOk result (λ others. others.items ≡ filter (is_other name.now coming) backups.now) }
{
    let mut others = Vec::new(alloc);
    for backup in backups {
        if is_other(backup, name, coming) {
            others.push(backup.clone()?)?;
        }
    }
    Ok(others)
}

/// The backups of a package that go when one of it comes at a revision and so many are kept: those at other revisions, in order, but
/// for the greatest, one fewer than are kept.
pub fn pruned(
    alloc: Global,
    backups: &[Backup],
    name: &Name,
    coming: u32,
    keep: u32,
) -> Result<Vec<Backup>, AllocError>
    requires { 0 < keep }
    ensures { IfOk result (λ gone. gone.items ≡ pruned_from name.now coming keep backups.now) }
{
    let mut others = others(alloc, backups, name, coming)?;
    others.sort_unstable();
    others.truncate(others.len().saturating_sub(keep as usize - 1));
    Ok(others)
}

/// The path of a backup of a package at a revision. It is the name of that backup and of no other.
pub fn backup_path(alloc: Global, name: &Name, revision: u32) -> Result<Path, AllocError>
    ensures path { IfOk result (λ path. path ≡ backup_path name.now revision) }
    ensures named { IfOk result (λ path. backup_at path ≡ Some (record { name = name.now; revision = revision })) }
{
    let name = name.text();
    let text = format!(in alloc; "tlpkg/backups/{name}.r{revision}.tlc")?;
    match Path::parse(alloc, text.as_bytes()) {
        Ok(path) => Ok(path),
        Err(_) => Err(AllocError),
    }
}
