//! The entries after a change, and the files that are made from them.
ghost use Rattle.std.specs.Prelude.{◌≡◌, ◌++◌, [], ◌∷◌, OnOk, IfOk, IfErr, map, true, if◌then◌else◌};
ghost use Rattle.std.specs.Option.{unwrap_or};
ghost use Rattle.tl_db.specs.Reading.{IsRead};
ghost use Rattle.tl_db.specs.Text.{db_text};
ghost use Rattle.tl_tree.specs.Changes.{named_bytes, is_entry, has_entries, with_entry, entries_by, entries_after, made, leaving};
ghost use Rattle.tl_tree.specs.Answers.{IsMadeError, IsPlanError};

use crate::change::Part;
use crate::error::StepError;
use crate::leaving::leaving;
use std::alloc::{AllocError, Global};
use tl_config::{fmtutil, language_dat, language_def, language_lua, updmap};
use tl_db::{Db, What, write_db};
use tl_file::{Bytes, FileBytes};
use tl_object::Object;
use tl_path::{Path, PathRef};

const MOST_PACKAGES: u64 = 65_536;

const MOST_BYTES: u64 = 268_435_456;

fn is_entry(part: &Part) -> bool
    ensures { result ≡ is_entry part.now }
{
    match part {
        Part::Put { entry: _, files: _ }
        | Part::Remove { name: _ }
        | Part::Entry { entry: _ }
        | Part::Stream { entry: _ } => true,
        Part::Write { path: _, bytes: _ } | Part::Erase { path: _ } | Part::Later { paths: _ } => {
            false
        }
    }
}

fn has_entries(parts: &[Part]) -> bool
    ensures { result ≡ has_entries parts.now }
{
    parts.iter().any(|part| is_entry(part))
}

fn put_entry(alloc: Global, db: &mut Db, entry: &Object) -> Result<(), AllocError>
    ensures { OnOk result (db.new ≡ with_entry entry.now db.old) }
{
    db.with(entry.copy(alloc)?)
}

fn change_entry(alloc: Global, db: &mut Db, part: &Part) -> Result<(), AllocError>
    ensures { OnOk result (db.new ≡ entries_by part.now db.old) }
{
    match part {
        Part::Put { entry, files: _ } => put_entry(alloc, db, entry),
        Part::Entry { entry } => put_entry(alloc, db, entry),
        Part::Stream { entry } => put_entry(alloc, db, entry),
        Part::Remove { name } => {
            let _ = db.without(name);
            Ok(())
        }
        Part::Write { path: _, bytes: _ } | Part::Erase { path: _ } | Part::Later { paths: _ } => {
            Ok(())
        }
    }
}

fn change_entries(alloc: Global, db: &mut Db, parts: &[Part]) -> Result<(), AllocError>
    ensures { OnOk result (db.new ≡ entries_after parts.now db.old) }
{
    for part in parts {
        change_entry(alloc, db, part)?;
    }
    Ok(())
}

fn push_made(
    alloc: Global,
    files: &mut Vec<FileBytes>,
    path: PathRef<'_>,
    text: Vec<u8>,
) -> Result<(), AllocError>
    ensures { OnOk result (map named_bytes files.new.items ≡ map named_bytes files.old.items ++ (path.entry, text.items) ∷ []) }
{
    files.push(FileBytes {
        path: path.to_path(alloc)?,
        bytes: Bytes::new(text),
    })?;
    Ok(())
}

// The five files of a database, and its text, in the order of their paths.
fn made(alloc: Global, db: &Db, text: Vec<u8>) -> Result<Vec<FileBytes>, AllocError>
    requires { text.items ≡ db_text db.now }
    ensures { IfOk result (λ files. map named_bytes files.items ≡ made db.now) }
{
    let mut files = Vec::with_capacity(alloc, 6)?;
    let formats = PathRef::known("texmf-dist/web2c/fmtutil.cnf");
    push_made(alloc, &mut files, formats, fmtutil(alloc, db)?)?;
    let maps = PathRef::known("texmf-dist/web2c/updmap.cfg");
    push_made(alloc, &mut files, maps, updmap(alloc, db)?)?;
    let dat = PathRef::known("texmf-var/tex/generic/config/language.dat");
    push_made(alloc, &mut files, dat, language_dat(alloc, db)?)?;
    let lua = PathRef::known("texmf-var/tex/generic/config/language.dat.lua");
    push_made(alloc, &mut files, lua, language_lua(alloc, db)?)?;
    let def = PathRef::known("texmf-var/tex/generic/config/language.def");
    push_made(alloc, &mut files, def, language_def(alloc, db)?)?;
    let database = PathRef::known("tlpkg/texlive.tlpdb");
    push_made(alloc, &mut files, database, text)?;
    Ok(files)
}

// The text of a database within its limits.
fn limited_text(alloc: Global, db: &Db) -> Result<Vec<u8>, StepError>
    ensures text { IfOk result (λ text. text.items ≡ db_text db.now) }
    ensures read { IfOk result (λ _. IsRead (db_text db.now) db.now) }
    ensures error { IfErr result (IsMadeError db.now) }
{
    if db.len() as u64 > MOST_PACKAGES {
        return Err(StepError::TooLarge {
            what: What::Packages,
            limit: MOST_PACKAGES,
        });
    }
    let text = write_db(alloc, db)?;
    if text.len() as u64 > MOST_BYTES {
        return Err(StepError::TooLarge {
            what: What::Database,
            limit: MOST_BYTES,
        });
    }
    Ok(text)
}

// The files that are made from the entries after a change that speaks of one.
fn made_files(alloc: Global, db: &Db) -> Result<Vec<FileBytes>, StepError>
    ensures files { IfOk result (λ files. map named_bytes files.items ≡ made db.now) }
    ensures read { IfOk result (λ _. IsRead (db_text db.now) db.now) }
    ensures error { IfErr result (IsMadeError db.now) }
{
    let text = limited_text(alloc, db)?;
    Ok(made(alloc, db, text)?)
}

// The entries after a change. The old ones stay as they are.
fn entries_after(alloc: Global, db: &Db, parts: &[Part]) -> Result<Db, AllocError>
    ensures { IfOk result (λ next. next ≡ entries_after parts.now db.now) }
{
    let mut next = db.copy(alloc)?;
    change_entries(alloc, &mut next, parts)?;
    Ok(next)
}

/// What a change takes from the tree and what it makes, before any call of the host.
#[derive(Drop)]
pub struct Plan {
    /// The names that leave, unless they come.
    pub names: Vec<Path>,
    /// The database and the five files made from it, or nothing.
    pub files: Vec<FileBytes>,
    /// The entries after the change, where it speaks of one.
    pub next: Option<Db>,
}

/// The plan of a change. The old entries stay as they are. Where the change speaks of no entry, none is copied and no text is made.
pub fn plan_change(alloc: Global, db: &Db, parts: &[Part]) -> Result<Plan, StepError>
    ensures leaving { IfOk result (λ plan. plan.names.items ≡ leaving db.now parts.now) }
    ensures made { IfOk result (λ plan. map named_bytes plan.files.items ≡ (if has_entries parts.now then made (entries_after parts.now db.now) else [])) }
    ensures next { IfOk result (λ plan. unwrap_or plan.next db.now ≡ entries_after parts.now db.now) }
    ensures read { IfOk result (λ plan. has_entries parts.now ≡ true → IsRead (db_text (entries_after parts.now db.now)) (entries_after parts.now db.now)) }
    ensures error { IfErr result (IsPlanError db.now parts.now) }
{
    let names = leaving(alloc, db, parts)?;
    if !has_entries(parts) {
        return Ok(Plan {
            names,
            files: Vec::new(alloc),
            next: None,
        });
    }
    let next = entries_after(alloc, db, parts)?;
    let files = made_files(alloc, &next)?;
    Ok(Plan {
        names,
        files,
        next: Some(next),
    })
}
