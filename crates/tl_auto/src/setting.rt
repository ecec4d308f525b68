//! What variables stand for, and their replacement in a text.
ghost use Rattle.std.specs.Prelude.{◌≡◌, ◌==◌, ℕ, Vec, position, IfOk, option_map, bytes_eq};
ghost use Rattle.std.specs.declared.alloc.Global.{Global};
ghost use Rattle.std.specs.Option.{option_copied};
ghost use Rattle.std.specs.List.{list_any};
ghost use Rattle.tl_auto.specs.Parts.{begins_variable, IsVariableOf, IsPartOf};
ghost use Rattle.tl_auto.specs.Variables.{value_in, replaced};
ghost use Rattle.tl_auto.specs.Wanted.{is_windows, allows};

use std::alloc::{AllocError, Global};
use std::marker::Model;
use tl_path::Platform;
use tl_srctext::{Limit, SourceFields, VarName};

// What variables stand for in the patterns of a section.
#[derive(Drop)]
pub(crate) struct Setting<'s> {
    pub(crate) source: &'s SourceFields,
    // The platform of the binaries.
    pub(crate) platform: Option<&'s [u8]>,
}

impl<'s> Model for Setting<'s> {
    ghost use Rattle.std.specs.Option.{option_copied};
    ghost use Rattle.tl_auto.specs.Variables as seen;

    ghost Value = { seen.Setting };

    ghost view = { λ a. record { source = a.source.now; platform = option_copied a.platform } };
}

// What a text begins with.
pub(crate) enum Part<'t> {
    // Nothing.
    End,
    // A byte that stands for itself.
    Byte(u8, &'t [u8]),
    // `${`, a name and `}`.
    Variable(&'t [u8], &'t [u8]),
    // `${` without a `}` behind it.
    Open,
}

// Where the first `}` stands.
fn closing_place(text: &[u8]) -> Option<usize>
    ensures { result ≡ position (λ b. b == 125) text.now }
{
    text.iter().position(|byte| *byte == b'}')
}

// What stands behind `${`: a name and its `}`.
fn variable_of(text: &[u8]) -> Part<'_>
    ensures { IsVariableOf text.now result }
{
    match closing_place(text) {
        Some(end) => Part::Variable(&text[..end], &text[end + 1..]),
        None => Part::Open,
    }
}

fn begins_variable(text: &[u8]) -> bool
    ensures { result ≡ begins_variable text.now }
{
    match text {
        [first, second, ..] => *first == b'$' && *second == b'{',
        _ => false,
    }
}

fn part_of(text: &[u8]) -> Part<'_>
    ensures { IsPartOf text.now result }
{
    if begins_variable(text) {
        return variable_of(&text[2..]);
    }
    match text {
        [] => Part::End,
        [byte, behind @ ..] => Part::Byte(*byte, behind),
    }
}

impl<'s> Setting<'s> {
    // The value of a variable, if it has one.
    fn value_of(&self, alloc: Global, name: &[u8]) -> Result<Option<&'s [u8]>, AllocError>
        ensures { IfOk result (λ value. option_copied value ≡ value_in self.now name.now) }
    {
        if name == b"PKGNAME".as_slice() {
            return Ok(Some(self.source.name.bytes()));
        }
        if name == b"ARCH".as_slice() {
            return Ok(self.platform);
        }
        let Some(name) = VarName::of(alloc, name)? else {
            return Ok(None);
        };
        match self.source.vars.get(&name) {
            Some(value) => Ok(Some(value.bytes())),
            None => Ok(None),
        }
    }

    // A text with its variables replaced; `None` where a name has no value or doesn't end.
    pub(crate) fn replaced(&self, alloc: Global, text: &[u8]) -> Result<Option<Vec<u8>>, AllocError>
        ensures { IfOk result (λ made. option_map (λ (m : Vec ℕ Global). m.items) made ≡ replaced self.now text.now) }
    {
        let mut made = Vec::new(alloc);
        let mut rest = text;
        loop {
            match part_of(rest) {
                Part::End => return Ok(Some(made)),
                Part::Open => return Ok(None),
                Part::Byte(byte, behind) => {
                    made.push(byte)?;
                    rest = behind;
                }
                Part::Variable(name, behind) => {
                    let Some(value) = self.value_of(alloc, name)? else {
                        return Ok(None);
                    };
                    made.extend_from_slice(value)?;
                    rest = behind;
                }
            }
        }
    }

    // Whether a limit allows the platform; without one it allows everything.
    pub(crate) fn is_within(&self, limit: &Limit) -> bool
        ensures { result ≡ allows limit.now self.now.platform }
    {
        let Some(platform) = self.platform else {
            return true;
        };
        match limit {
            Limit::All => true,
            Limit::Only(names) => has(names.as_slice(), platform),
            Limit::Except(names) => !has(names.as_slice(), platform),
        }
    }

    // Whether the platform is Windows.
    pub(crate) fn is_windows(&self) -> bool
        ensures { result ≡ is_windows self.now.platform }
    {
        match self.platform {
            Some(platform) => platform == b"windows".as_slice(),
            None => false,
        }
    }
}

fn has(names: &[Platform], platform: &[u8]) -> bool
    ensures { result ≡ list_any (λ name. bytes_eq name platform.now) names.now }
{
    names.iter().any(|name| name.bytes() == platform)
}
