//! The variables of a source.
ghost use Rattle.std.specs.Prelude.{◌≡◌, ◌||◌, [], nat_eq, codes, IfOk, OnOk};
ghost use Rattle.std.specs.List.{list_all};
ghost use Rattle.std.specs.Str.{bytes_eq};
ghost use Rattle.std.specs.Option.{option_copied};
ghost use Rattle.std.specs.Hash as fed;
ghost use Rattle.std.specs.Cmp.{partial_equiv_from_equiv};
ghost use Rattle.std.specs.Cmp.Rules.{hashing};
ghost use Rattle.std.specs.Cmp.Lexicographic.{pointwise, nat_list_eq_equiv};
ghost use Rattle.std.proofs.Common.{rules};
ghost use Rattle.indexmap.specs.IndexMap.{insert_entry};
ghost use Rattle.tl_srctext.specs.Steps.{FindsPart};
ghost use Rattle.tl_srctext.specs.Variables.{is_var_byte, is_value_byte, is_var_name, is_var_value, name_of, var_value, var_of, value_of};

use crate::content::cut_word;
use crate::error::LineFault;
use indexmap::IndexMap;
use std::alloc::{AllocError, Global};
use std::hash::{Hash, Hasher};
use std::marker::Model;
use tl_kind::SourceKind;
use tl_text::{Text, TextError};

const BAD_VARIABLE: LineFault = LineFault::Bad(SourceKind::Variable);

/// The name of a variable: letters of ASCII, digits and `_`, and neither `PKGNAME` nor `ARCH`.
#[derive(Drop)]
pub struct VarName {
    bytes: Vec<u8>,
}

impl Model for VarName {
    ghost use Rattle.std.specs.Prelude.{List, ℕ};

    ghost Value = { List ℕ };

    ghost view = { λ a. a.bytes.items };
}

impl VarName {
    /// The name of a variable that a word is, if it is one.
    pub fn of(alloc: Global, word: &[u8]) -> Result<Option<VarName>, AllocError>
        ensures { IfOk result (λ name. name_of word.now ≡ name) }
    {
        if !is_var_name(word) {
            return Ok(None);
        }
        let bytes = Vec::from_slice(alloc, word)?;
        Ok(Some(VarName { bytes }))
    }

    /// The name's bytes. Takes no memory.
    pub fn bytes(&self) -> &[u8]
        ensures { result.now ≡ self.now }
    {
        self.bytes.as_slice()
    }
}

impl PartialEq for VarName {
    ghost eq = { pointwise nat_eq };

    ghost laws = { partial_equiv_from_equiv nat_list_eq_equiv };

    fn eq(&self, other: &VarName) -> bool {
        self.bytes.as_slice() == other.bytes.as_slice()
    }
}

impl Eq for VarName {
    ghost laws = { nat_list_eq_equiv };
}

impl Hash for VarName {
    ghost hash_input = { fed.slice fed.u8 };

    ghost respects_eq = { Prim.search (hashing, rules) };

    fn hash<H: Hasher>(&self, state: &mut H) {
        self.bytes.as_slice().hash(state);
    }
}

/// The variables of a source with their values, in the order of their first settings, each name once.
#[derive(Drop)]
pub struct Vars {
    settings: IndexMap<VarName, Text>,
}

impl Model for Vars {
    ghost use Rattle.std.specs.Prelude.{List, ℕ};

    ghost Value = { List (List ℕ × List ℕ) };

    ghost view = { λ a. a.settings.entries };
}

impl Vars {
    /// No variables. Takes no memory.
    pub(crate) fn new(alloc: Global) -> Vars
        ensures { result ≡ [] }
    {
        Vars {
            settings: IndexMap::new(alloc),
        }
    }

    /// The value of the variable with this name, if it is set. Takes no memory.
    pub fn get(&self, name: &VarName) -> Option<&Text>
        ensures { option_copied result ≡ value_of name.now self.now }
    {
        self.settings.get(name)
    }

    // Sets a variable: a new one behind the others, and one that is there in its place.
    pub(crate) fn set(&mut self, name: VarName, value: Text) -> Result<(), AllocError>
        ensures { OnOk result (self.new ≡ insert_entry bytes_eq self.old name value) }
    {
        self.settings.insert(name, value)?;
        Ok(())
    }

    // The variables in their order. Takes no memory.
    pub(crate) fn settings(&self) -> &IndexMap<VarName, Text>
        ensures { result.now.entries ≡ self.now }
    {
        &self.settings
    }
}

fn is_var_byte(byte: u8) -> bool
    ensures { result ≡ is_var_byte byte }
{
    matches!(byte, b'a'..=b'z' | b'A'..=b'Z' | b'0'..=b'9' | b'_')
}

fn is_value_byte(byte: u8) -> bool
    ensures { result ≡ is_value_byte byte }
{
    b'!' <= byte
        && byte <= b'~'
        && !matches!(byte, b'$' | b'{' | b'}' | b'"' | b'\\' | b'#' | b'*' | b'?')
}

fn has_var_bytes(word: &[u8]) -> bool
    ensures { result ≡ list_all is_var_byte word.now }
{
    word.iter().all(|byte| is_var_byte(*byte))
}

// Whether a name stands for something of its own in patterns.
fn is_taken(word: &[u8]) -> bool
    ensures { result ≡ (bytes_eq word.now (codes "PKGNAME") || bytes_eq word.now (codes "ARCH")) }
{
    word == b"PKGNAME".as_slice() || word == b"ARCH".as_slice()
}

fn is_var_name(word: &[u8]) -> bool
    ensures { result ≡ is_var_name word.now }
{
    !word.is_empty() && has_var_bytes(word) && !is_taken(word)
}

fn has_value_bytes(text: &[u8]) -> bool
    ensures { result ≡ list_all is_value_byte text.now }
{
    text.iter().all(|byte| is_value_byte(*byte))
}

fn value_of(alloc: Global, text: &[u8]) -> Result<Text, LineFault>
    ensures { FindsPart result (var_value text.now) }
{
    if text.is_empty() || !has_value_bytes(text) {
        return Err(BAD_VARIABLE);
    }
    match Text::parse(alloc, text) {
        Ok(value) => Ok(value),
        Err(TextError::NotText) => Err(BAD_VARIABLE),
        Err(TextError::NoMemory) => Err(LineFault::NoMemory),
    }
}

// What a value sets: a name, and the text behind it.
pub(crate) fn var_of(alloc: Global, value: &[u8]) -> Result<(VarName, Text), LineFault>
    ensures { FindsPart result (var_of value.now) }
{
    let (word, text) = cut_word(value);
    let Some(name) = VarName::of(alloc, word)? else {
        return Err(BAD_VARIABLE);
    };
    let value = value_of(alloc, text)?;
    Ok((name, value))
}
