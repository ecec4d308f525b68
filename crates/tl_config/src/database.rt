//! The five files of a database.
ghost use Rattle.std.specs.Prelude.{◌≡◌, ◌++◌, IfOk, OnOk};
ghost use Rattle.std.specs.List.{flat_map};
ghost use Rattle.tl_config.specs.Files as the_files;
ghost use Rattle.tl_config.specs.Databases as the_databases;

use crate::file::{ConfigFile, push_executes};
use crate::say::say;
use std::alloc::{AllocError, Global};
use tl_db::Db;

fn push_entries(
    alloc: Global,
    file: ConfigFile,
    out: &mut Vec<u8>,
    db: &Db,
) -> Result<(), AllocError>
    ensures { OnOk result (out.new.items ≡ out.old.items ++ flat_map (the_files.lines_of file) (the_databases.executes_of db.now)) }
{
    for entry in db.entries() {
        push_executes(alloc, file, out, entry.executes.as_slice())?;
    }
    Ok(())
}

fn file_text(alloc: Global, file: ConfigFile, db: &Db) -> Result<Vec<u8>, AllocError>
    ensures { IfOk result (λ text. text.items ≡ the_files.file_of file (the_databases.executes_of db.now)) }
{
    let mut out = Vec::new(alloc);
    say(&mut out, file.head())?;
    push_entries(alloc, file, &mut out, db)?;
    say(&mut out, file.end())?;
    Ok(out)
}

/// The text of updmap.cfg: the maps of a database. An execute that doesn't read gives nothing, here and in the other files.
pub fn updmap(alloc: Global, db: &Db) -> Result<Vec<u8>, AllocError>
    ensures { IfOk result (λ text. text.items ≡ the_databases.updmap_of db.now) }
{
    file_text(alloc, ConfigFile::Updmap, db)
}

/// The text of fmtutil.cnf: the formats of a database.
pub fn fmtutil(alloc: Global, db: &Db) -> Result<Vec<u8>, AllocError>
    ensures { IfOk result (λ text. text.items ≡ the_databases.fmtutil_of db.now) }
{
    file_text(alloc, ConfigFile::Fmtutil, db)
}

/// The text of language.dat: the hyphenations of a database for LaTeX.
pub fn language_dat(alloc: Global, db: &Db) -> Result<Vec<u8>, AllocError>
    ensures { IfOk result (λ text. text.items ≡ the_databases.langdat_of db.now) }
{
    file_text(alloc, ConfigFile::LanguageDat, db)
}

/// The text of language.def: the hyphenations of a database for plain TeX.
pub fn language_def(alloc: Global, db: &Db) -> Result<Vec<u8>, AllocError>
    ensures { IfOk result (λ text. text.items ≡ the_databases.langdef_of db.now) }
{
    file_text(alloc, ConfigFile::LanguageDef, db)
}

/// The text of language.dat.lua: the hyphenations of a database for LuaTeX, as a table.
pub fn language_lua(alloc: Global, db: &Db) -> Result<Vec<u8>, AllocError>
    ensures { IfOk result (λ text. text.items ≡ the_databases.langlua_of db.now) }
{
    file_text(alloc, ConfigFile::LanguageLua, db)
}
