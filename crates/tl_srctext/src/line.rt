//! What one line of a source says.
ghost use Rattle.std.specs.Prelude.{◌≡◌};
ghost use Rattle.tl_srctext.specs.Steps.{FindsPart};
ghost use Rattle.std.specs.Str as the_text;
ghost use Rattle.tl_srctext.specs.Line.{is_reserved_name, category_said, found_category, name_said, said_under, said_for_key, said_with, said_in, said_of};
ghost use Rattle.tl_srctext.specs.Variables.{var_of};
ghost use Rattle.tl_srctext.specs.Patterns.{pattern_of};
ghost use Rattle.tl_srctext.specs.declared.line.Said.TheVariants as saids;

use crate::content::cut_word;
use crate::error::LineFault;
use crate::key::{Key, Section, is_missing, key_of};
use crate::pattern::{SourcePattern, pattern_of};
use crate::variable::{VarName, var_of};
use std::alloc::Global;
use tl_kind::SourceKind;
use tl_path::Category;
use tl_text::{Text, TextError};

/// What a line says.
#[derive(Drop)]
pub enum Said {
    Name,
    Category(Category),
    Catalogue(Text),
    Shortdesc(Text),
    Longdesc(Text),
    Depend(Text),
    Execute(Text),
    Postaction(Text),
    Variable(VarName, Text),
    Pattern(Section, SourcePattern),
}

// Whether a name begins as those of entries that no source makes.
pub(crate) fn is_reserved(name: &[u8]) -> bool
    ensures { result ≡ is_reserved_name name.now }
{
    name.starts_with(b"00texlive")
}

fn name_said(name: &[u8], value: &[u8]) -> Result<Said, LineFault>
    ensures { FindsPart result (name_said name.now value.now) }
{
    if value != name || is_reserved(name) {
        return Err(LineFault::Bad(SourceKind::Name));
    }
    Ok(Said::Name)
}

fn category_said(value: &[u8]) -> Result<Said, LineFault>
    ensures { FindsPart result (category_said (found_category value.now)) }
{
    match Category::read(value) {
        Some(category) => Ok(Said::Category(category)),
        None => Err(LineFault::Bad(SourceKind::Category)),
    }
}

fn variable_said(alloc: Global, value: &[u8]) -> Result<Said, LineFault>
    ensures { FindsPart result (said_of (λ var. saids.Variable var.0 var.1) (var_of value.now)) }
{
    let (name, value) = var_of(alloc, value)?;
    Ok(Said::Variable(name, value))
}

fn pattern_said(
    alloc: Global,
    section: Section,
    number: u32,
    value: &[u8],
) -> Result<Said, LineFault>
    ensures { FindsPart result (said_of (saids.Pattern section) (pattern_of section number value.now)) }
{
    let pattern = pattern_of(alloc, section, number, value)?;
    Ok(Said::Pattern(section, pattern))
}

// What a text says under its key.
fn said_under(
    alloc: Global,
    name: &[u8],
    number: u32,
    key: Key,
    text: Text,
) -> Result<Said, LineFault>
    ensures { FindsPart result (said_under name.now number key text) }
{
    let value = text.bytes();
    match key {
        Key::Name => name_said(name, value),
        Key::Category => category_said(value),
        Key::Catalogue => Ok(Said::Catalogue(text)),
        Key::Shortdesc => Ok(Said::Shortdesc(text)),
        Key::Longdesc => Ok(Said::Longdesc(text)),
        Key::Depend => Ok(Said::Depend(text)),
        Key::Execute => Ok(Said::Execute(text)),
        Key::Postaction => Ok(Said::Postaction(text)),
        Key::Variable => variable_said(alloc, value),
        Key::Pattern(section) => pattern_said(alloc, section, number, value),
    }
}

// What a value says under its key.
#[tactic(auto, using(crate::proofs::LineLemmas::value_missing, crate::proofs::LineLemmas::value_long, crate::proofs::LineLemmas::value_there))]
fn said_for_key(
    alloc: Global,
    name: &[u8],
    number: u32,
    key: Key,
    value: &[u8],
) -> Result<Said, LineFault>
    ensures { FindsPart result (said_for_key name.now number key value.now) }
{
    if is_missing(key, value) {
        return Err(LineFault::Bad(SourceKind::Value));
    }
    match Text::parse(alloc, value) {
        Ok(text) => said_under(alloc, name, number, key, text),
        Err(TextError::NotText) => Err(LineFault::Bad(SourceKind::TooLong)),
        Err(TextError::NoMemory) => Err(LineFault::NoMemory),
    }
}

// What a value says under the key that was found.
fn said_with(
    alloc: Global,
    name: &[u8],
    number: u32,
    key: Option<Key>,
    value: &[u8],
) -> Result<Said, LineFault>
    ensures { FindsPart result (said_with name.now number key value.now) }
{
    match key {
        Some(key) => said_for_key(alloc, name, number, key, value),
        None => Err(LineFault::Bad(SourceKind::Key)),
    }
}

// Whether bytes are UTF-8.
fn is_utf8(bytes: &[u8]) -> bool
    ensures { result ≡ the_text.is_utf8 bytes.now }
{
    match str::from_utf8(bytes) {
        Ok(_) => true,
        Err(_) => false,
    }
}

// What a line with this number says in the source of this name, where it has a byte and no blanks at its ends.
pub(crate) fn said_in(
    alloc: Global,
    name: &[u8],
    number: u32,
    line: &[u8],
) -> Result<Said, LineFault>
    ensures { FindsPart result (said_in name.now number line.now) }
{
    if !is_utf8(line) {
        return Err(LineFault::Bad(SourceKind::Utf8));
    }
    let (word, value) = cut_word(line);
    said_with(alloc, name, number, key_of(word), value)
}
