//! The globs of a pin.
ghost use Rattle.std.specs.Prelude.{◌≡◌, ◌<◌, ◌==◌, ◌++◌, true, length, map, position, IfOk, OnOk, OnErr};
ghost use Rattle.std.specs.List.{list_all, list_any, slice_split};
ghost use Rattle.std.specs.Str.{bytes_eq};
ghost use Rattle.tl_model.specs.Words.{is_blank};
ghost use Rattle.tl_pin.specs.Form.{is_pin_byte, is_pin_glob, pin_globs, ArePinGlobs, without_first, without_blanks_before, trimmed};

use std::alloc::{AllocError, Global};
use std::marker::Model;
use tl_glob::{Glob, GlobError};

/// The globs of a pin: one at least, each of 1 to 128 bytes from 0x21 to 0x7E without `,` and `:`.
#[derive(Drop)]
pub struct PinGlobs {
    items: Vec<Glob>,
}

impl Model for PinGlobs {
    ghost use Rattle.std.specs.Prelude.{◌≡◌, List, ℕ};
    ghost use Rattle.tl_pin.specs.Form.{ArePinGlobs};

    ghost Value = { List (List ℕ) };

    ghost view = { λ a. a.items.items };

    ghost invariant = { λ a. ArePinGlobs a.items.items };
}

const LONGEST: usize = 128;

impl PinGlobs {
    /// These globs. Takes no memory.
    pub(crate) fn of(items: Vec<Glob>) -> PinGlobs
        requires { ArePinGlobs items.items }
        ensures { result ≡ items.items }
    {
        PinGlobs { items }
    }

    /// The globs that some texts are; `None` where there is no text, or one hasn't the form.
    pub fn parse(alloc: Global, texts: &[Vec<u8>]) -> Result<Option<PinGlobs>, AllocError>
        ensures { IfOk result (λ globs. pin_globs (map (λ text. text.items) texts.now) ≡ globs) }
    {
        let mut items = Vec::new(alloc);
        for text in texts {
            if !is_pin_glob(text) {
                return Ok(None);
            }
            items.push(glob_of(alloc, text)?)?;
        }
        if items.is_empty() {
            return Ok(None);
        }
        Ok(Some(PinGlobs { items }))
    }

    /// Globs that equal those of a slice.
    pub(crate) fn copy_of(alloc: Global, globs: &[Glob]) -> Result<PinGlobs, AllocError>
        requires { ArePinGlobs globs.now }
        ensures { IfOk result (λ copy. copy ≡ globs.now) }
    {
        Ok(PinGlobs {
            items: globs.to_vec(alloc)?,
        })
    }

    /// The globs. Takes no memory.
    pub fn as_slice(&self) -> &[Glob]
        ensures items { result.now ≡ self.now }
        ensures form { ArePinGlobs self.now }
    {
        self.items.as_slice()
    }

    pub(crate) fn has(&self, glob: &Glob) -> bool
        ensures { result ≡ list_any (λ g. bytes_eq g glob.now) self.now }
    {
        self.items.iter().any(|g| g == glob)
    }

    // Adds globs at the end. Where memory runs out nothing changes.
    pub(crate) fn append(&mut self, more: PinGlobs) -> Result<(), AllocError>
        ensures ok { OnOk result (self.new ≡ self.old ++ more) }
        ensures err { OnErr result (self.new ≡ self.old) }
    {
        let mut more = more.items;
        self.items.append(&mut more)
    }

    // Takes away the first of several globs that is the given one.
    pub(crate) fn remove_first(&mut self, glob: &Glob)
        requires { 1 < length self.old }
        ensures { self.new ≡ without_first glob.now self.old }
    {
        if let Some(at) = place_of(self.items.as_slice(), glob) {
            let _ = self.items.remove(at);
        }
    }
}

pub(crate) fn glob_of(alloc: Global, text: &[u8]) -> Result<Glob, AllocError>
    requires { is_pin_glob text.now ≡ true }
    ensures { IfOk result (λ glob. glob ≡ text.now) }
{
    match Glob::parse(alloc, text) {
        Ok(glob) => Ok(glob),
        Err(GlobError::Empty) => unreachable!(),
        Err(GlobError::NoMemory) => Err(AllocError),
    }
}

fn place_of(globs: &[Glob], glob: &Glob) -> Option<usize>
    ensures { result ≡ position (λ g. bytes_eq g glob.now) globs.now }
{
    globs.iter().position(|g| g == glob)
}

fn is_pin_byte(byte: u8) -> bool
    ensures { result ≡ is_pin_byte byte }
{
    matches!(byte, b'!'..=b'~') && byte != b',' && byte != b':'
}

fn has_pin_bytes_alone(text: &[u8]) -> bool
    ensures { result ≡ list_all is_pin_byte text.now }
{
    text.iter().all(|byte| is_pin_byte(*byte))
}

/// Whether a text has the form of a pin's glob: 1 to 128 bytes from 0x21 to 0x7E without `,` and `:`. Takes no memory.
pub fn is_pin_glob(text: &[u8]) -> bool
    ensures { result ≡ is_pin_glob text.now }
{
    !text.is_empty() && text.len() <= LONGEST && has_pin_bytes_alone(text)
}

pub(crate) fn is_blank(byte: u8) -> bool
    ensures { result ≡ is_blank byte }
{
    byte == b' ' || byte == b'\t'
}

fn without_blanks_before(text: &[u8]) -> &[u8]
    ensures { result.now ≡ without_blanks_before text.now }
{
    let mut rest = text;
    while let Some((byte, behind)) = rest.split_first() {
        if !is_blank(*byte) {
            return rest;
        }
        rest = behind;
    }
    rest
}

// A text without the blanks at both ends.
pub(crate) fn trimmed(text: &[u8]) -> &[u8]
    ensures { result.now ≡ trimmed text.now }
{
    let mut rest = without_blanks_before(text);
    while let Some((byte, before)) = rest.split_last() {
        if !is_blank(*byte) {
            return rest;
        }
        rest = before;
    }
    rest
}

pub(crate) fn parts_at_commas(alloc: Global, text: &[u8]) -> Result<Vec<&[u8]>, AllocError>
    ensures { IfOk result (λ parts. map (λ p. p.now) parts.items ≡ slice_split (λ b. b == 44) text.now) }
{
    text.split(|b| *b == b',').collect(alloc)
}
