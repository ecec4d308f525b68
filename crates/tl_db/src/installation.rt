//! The entry `00texlive.installation`, which keeps the options of a tree.
ghost use Rattle.std.specs.Prelude.{◌≡◌, ◌≢◌, ◌<◌, ◌≤◌, ◌^◌, ◌++◌, ◌∷◌, [], List, ℕ, true, Some, Ok, IfOk, IfErr, IfSome, OnOk, OnErr, MatchOption, length, option_copied, unwrap_or};
ghost use Rattle.std.specs.Prelude.{slice_set};
ghost use Rattle.tl_model.specs.Lines.{IsLine};
ghost use Rattle.tl_text.specs.Texts.{is_text};
ghost use Rattle.tl_object.specs.Values.{stripped};
ghost use Rattle.tl_entry.specs.Sections.{no_files, no_doc_files};
ghost use Rattle.tl_db.specs.Entries.{entry_of};
ghost use Rattle.tl_db.specs.Options.{option_prefix, installation, first_after, kept_value, option_value, option_of, with_line, no_options, entry_with, with_option, spelling_of, IsOptionFault, IsUnknown};

use crate::db::Db;
use crate::options::{OptionError, TreeOption, spelled};
use std::alloc::{AllocError, Global};
use std::mem::replace;
use tl_object::{BinList, Container, DocFileList, DocFiles, Facts, Files, Object, Paths, Texts};
use tl_path::{Category, Name, NameError};
use tl_text::{Text, TextError};

const INSTALLATION: &[u8] = b"00texlive.installation";

const NO_CONTAINER: Container = Container {
    size: None,
    digest: None,
};

fn no_files(alloc: Global) -> Files
    ensures { result ≡ no_files }
{
    Files {
        blocks: 0,
        paths: Paths::new(alloc),
    }
}

fn no_doc_files(alloc: Global) -> DocFiles
    ensures { result ≡ no_doc_files }
{
    DocFiles {
        blocks: 0,
        files: DocFileList::new(Vec::new(alloc)),
    }
}

fn installation_name(alloc: Global) -> Result<Name, AllocError>
    ensures { IfOk result (λ name. name ≡ installation) }
{
    match Name::parse(alloc, INSTALLATION) {
        Ok(name) => Ok(name),
        Err(NameError::BadName { .. }) => unreachable!(),
        Err(NameError::NoMemory) => Err(AllocError),
    }
}

fn no_options(alloc: Global) -> Result<Object, AllocError>
    ensures { IfOk result (λ entry. entry ≡ no_options) }
{
    Ok(Object {
        name: installation_name(alloc)?,
        category: Category::TLCore,
        revision: 0,
        catalogue: None,
        shortdesc: None,
        relocated: false,
        longdesc: Texts::new(Vec::new(alloc)),
        depends: Texts::new(Vec::new(alloc)),
        executes: Texts::new(Vec::new(alloc)),
        postactions: Texts::new(Vec::new(alloc)),
        run_box: NO_CONTAINER,
        doc_box: NO_CONTAINER,
        src_box: NO_CONTAINER,
        doc: no_doc_files(alloc),
        src: no_files(alloc),
        run: no_files(alloc),
        bin: BinList::new(Vec::new(alloc)),
        catalogue_facts: Facts::new(Vec::new(alloc)),
    })
}

// What stands behind a text at the front of a line.
fn after<'a>(line: &'a [u8], prefix: &[u8]) -> Option<&'a [u8]>
    ensures after { option_copied result ≡ stripped prefix.now line.now }
    ensures short { IfSome result (λ value. length value.now ≤ length line.now) }
{
    line.strip_prefix(prefix)
}

// What stands behind a text at the front of the first line that begins with it.
fn first_after<'a>(prefix: &[u8], lines: &'a [Text]) -> Option<&'a [u8]>
    ensures after { option_copied result ≡ first_after prefix.now lines.now }
    ensures short { IfSome result (λ value. length value.now ≤ 65536) }
{
    for line in lines {
        if let Some(value) = after(line.bytes(), prefix) {
            return Some(value);
        }
    }
    None
}

// The place of the first line that begins with a text, as far as another line goes in there.
fn place_of_line(prefix: &[u8], lines: &[Text]) -> Option<usize>
    ensures { (line : List ℕ) → MatchOption result (with_line prefix.now line lines.now ≡ lines.now ++ line ∷ [])
        (λ at. (at < length lines.now) × (with_line prefix.now line lines.now ≡ slice_set lines.now at line)) }
{
    for (at, line) in lines.iter().enumerate() {
        if after(line.bytes(), prefix).is_some() {
            return Some(at);
        }
    }
    None
}

fn with_line(lines: Texts, prefix: &[u8], line: Text) -> Result<Texts, AllocError>
    ensures { IfOk result (λ lines'. lines' ≡ with_line prefix.now line lines) }
{
    let mut lines = lines.into_vec();
    match place_of_line(prefix, lines.as_slice()) {
        Some(at) => lines[at] = line,
        None => lines.push(line)?,
    }
    Ok(Texts::new(lines))
}

// The line that keeps a value of an option.
fn line_of(alloc: Global, option: TreeOption, value: &[u8]) -> Result<Text, AllocError>
    requires { is_text (option_prefix option ++ value.now) ≡ true }
    ensures { IfOk result (λ line. line ≡ option_prefix option ++ value.now) }
{
    let mut line = Vec::from_slice(alloc, option.prefix())?;
    line.extend_from_slice(value)?;
    match Text::parse(alloc, line.as_slice()) {
        Ok(line) => Ok(line),
        Err(TextError::NotText) => unreachable!(),
        Err(TextError::NoMemory) => Err(AllocError),
    }
}

fn keeping(
    alloc: Global,
    mut entry: Object,
    option: TreeOption,
    line: Text,
) -> Result<Object, AllocError>
    ensures { IfOk result (λ kept. kept ≡ record entry { depends = with_line (option_prefix option) line entry.depends }) }
{
    let depends = replace(&mut entry.depends, Texts::new(Vec::new(alloc)));
    entry.depends = with_line(depends, option.prefix(), line)?;
    Ok(entry)
}

impl Db {
    // What the first line for an option says.
    fn kept_value(&self, option: TreeOption) -> Option<&[u8]>
        ensures value { option_copied result ≡ kept_value option self.now }
        ensures short { IfSome result (λ value. length value.now ≤ 65536) }
    {
        match self.entry(INSTALLATION) {
            Some(entry) => first_after(option.prefix(), entry.depends.as_slice()),
            None => None,
        }
    }

    fn option_value(&self, alloc: Global, option: TreeOption) -> Result<Vec<u8>, AllocError>
        ensures { IfOk result (λ value. value.items ≡ option_value option self.now) }
    {
        if let Some(kept) = self.kept_value(option) {
            if let Some(value) = spelled(alloc, option, kept)? {
                return Ok(value);
            }
        }
        Vec::from_slice(alloc, option.default_value())
    }

    /// The value of an option in its one spelling: that of the first line for it in the entry `00texlive.installation`, or
    /// the option's default where no line is there or its value isn't in its form. `UnknownOption` where no option has
    /// this name.
    pub fn option(&self, alloc: Global, option: &[u8]) -> Result<Vec<u8>, OptionError>
        ensures value { IfOk result (λ value. option_of option.now self.now ≡ Some value.items) }
        ensures line { IfOk result (λ value. IsLine value.items) }
        ensures fault { IfErr result (IsUnknown option.now) }
    {
        match TreeOption::named(option) {
            Some(option) => Ok(self.option_value(alloc, option)?),
            None => Err(OptionError::UnknownOption),
        }
    }

    // The entry of the options, or one that keeps none.
    fn installation(&self, alloc: Global) -> Result<Object, AllocError>
        ensures { IfOk result (λ entry. entry ≡ unwrap_or (entry_of installation self.now) no_options) }
    {
        match self.entry(INSTALLATION) {
            Some(entry) => entry.copy(alloc),
            None => no_options(alloc),
        }
    }

    /// The entry `00texlive.installation` with a value of an option, in its one spelling: in the place of the first line for
    /// the option, or in a new last one. Where the entry is absent it is a new one, of category TLCore and revision 0.
    /// `UnknownOption` where no option has this name, else `BadValue` where the value isn't in the option's form.
    pub fn option_entry(
        &self,
        alloc: Global,
        option: &[u8],
        value: &[u8],
    ) -> Result<Object, OptionError>
        requires { length value.now < 2 ^ 32 }
        ensures entry { IfOk result (λ entry. entry_with option.now value.now self.now ≡ Ok entry) }
        ensures name { IfOk result (λ entry. entry.name ≡ installation) }
        ensures fault { IfErr result (IsOptionFault (entry_with option.now value.now self.now)) }
    {
        let Some(option) = TreeOption::named(option) else {
            return Err(OptionError::UnknownOption);
        };
        let Some(spelling) = spelled(alloc, option, value)? else {
            return Err(OptionError::BadValue);
        };
        let line = line_of(alloc, option, spelling.as_slice())?;
        let entry = self.installation(alloc)?;
        Ok(keeping(alloc, entry, option, line)?)
    }

    /// Sets an option: puts the entry of `option_entry` among the entries. The option then has the value in its one
    /// spelling, and every other option what it had. `UnknownOption` where no option has this name,
    /// else `BadValue` where the value isn't in the option's form. On an error nothing changes.
    pub fn set_option(
        &mut self,
        alloc: Global,
        option: &[u8],
        value: &[u8],
    ) -> Result<(), OptionError>
        requires { length value.now < 2 ^ 32 }
        ensures set { OnOk result (with_option option.now value.now self.old ≡ Ok self.new) }
        ensures kept { OnOk result (option_of option.now self.new ≡ spelling_of option.now value.now) }
        ensures others { OnOk result ((other : List ℕ) → other ≢ option.now → option_of other self.new ≡ option_of other self.old) }
        ensures fault { IfErr result (IsOptionFault (entry_with option.now value.now self.old)) }
        ensures unchanged { OnErr result (self.new ≡ self.old) }
    {
        let entry = self.option_entry(alloc, option, value)?;
        self.with(entry)?;
        Ok(())
    }
}
