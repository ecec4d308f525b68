//! The lines of an execute in each of the files.
ghost use Rattle.std.specs.Prelude.{◌≡◌, ◌<◌, ◌^◌, [], ◌++◌, length, IsTrue, OnOk};
ghost use Rattle.std.specs.List.{flat_map};
ghost use Rattle.tl_config.specs.Files as the_files;

use crate::format::push_fmtutil;
use crate::hyphen::{push_dat, push_def};
use crate::lua::push_lua;
use crate::map::push_updmap;
use std::alloc::{AllocError, Global};
use tl_execute::{Execute, ExecuteError};
use tl_text::Text;

/// A file that is made from the executes of a database.
#[derive(Clone, Copy, Debug, PartialEq, Eq)]
pub enum ConfigFile {
    Updmap,
    Fmtutil,
    LanguageDat,
    LanguageDef,
    LanguageLua,
}

impl ConfigFile {
    /// The lines at the head of this file. Takes no memory.
    pub fn head(self) -> &'static str
        ensures { result.now ≡ the_files.head_of self }
    {
        match self {
            ConfigFile::Updmap => "# updmap.cfg, written by tlmgr\n",
            ConfigFile::Fmtutil => "# fmtutil.cnf, written by tlmgr\n",
            ConfigFile::LanguageDat => "% language.dat, written by tlmgr\n",
            ConfigFile::LanguageDef => "% language.def, written by tlmgr\n",
            ConfigFile::LanguageLua => "-- language.dat.lua, written by tlmgr\nreturn {\n",
        }
    }

    /// The lines at the end of this file. Takes no memory.
    pub fn end(self) -> &'static str
        ensures { result.now ≡ the_files.end_of self }
    {
        match self {
            ConfigFile::LanguageLua => "}\n",
            _ => "",
        }
    }

    // Whether the first bytes of an execute's text show that it gives this file nothing.
    fn skips(self, text: &[u8]) -> bool
        ensures { IsTrue result → the_files.lines_of self text.now ≡ [] }
    {
        match self {
            ConfigFile::Updmap => text.starts_with(b"A"),
            ConfigFile::Fmtutil => text.starts_with(b"a") || text.starts_with(b"AddH"),
            _ => text.starts_with(b"a") || text.starts_with(b"AddF"),
        }
    }
}

fn push_execute(
    alloc: Global,
    file: ConfigFile,
    out: &mut Vec<u8>,
    execute: &Execute,
) -> Result<(), AllocError>
    ensures { OnOk result (out.new.items ≡ out.old.items ++ the_files.execute_lines file execute.now) }
{
    match file {
        ConfigFile::Updmap => push_updmap(out, execute),
        ConfigFile::Fmtutil => push_fmtutil(out, execute),
        ConfigFile::LanguageDat => push_dat(out, execute),
        ConfigFile::LanguageDef => push_def(alloc, out, execute),
        ConfigFile::LanguageLua => push_lua(alloc, out, execute),
    }
}

/// Adds the lines that the text of an execute gives to a file. An execute that doesn't read gives nothing.
pub fn push_lines(
    alloc: Global,
    file: ConfigFile,
    out: &mut Vec<u8>,
    execute: &[u8],
) -> Result<(), AllocError>
    requires { length execute.now < 2 ^ 32 }
    ensures { OnOk result (out.new.items ≡ out.old.items ++ the_files.lines_of file execute.now) }
{
    match Execute::parse(alloc, execute) {
        Ok(execute) => push_execute(alloc, file, out, &execute),
        Err(ExecuteError::BadExecute { .. }) => Ok(()),
        Err(ExecuteError::NoMemory) => Err(AllocError),
    }
}

/// Adds the lines that the texts of executes give to a file, in order.
pub fn push_executes(
    alloc: Global,
    file: ConfigFile,
    out: &mut Vec<u8>,
    executes: &[Text],
) -> Result<(), AllocError>
    ensures { OnOk result (out.new.items ≡ out.old.items ++ flat_map (the_files.lines_of file) executes.now) }
{
    for execute in executes {
        let text = execute.bytes();
        if file.skips(text) {
            continue;
        }
        push_lines(alloc, file, out, text)?;
    }
    Ok(())
}
