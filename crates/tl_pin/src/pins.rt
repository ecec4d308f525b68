//! Pins, read and written.
ghost use Rattle.std.specs.Prelude.{◌≡◌, ◌<◌, [], ◌++◌, ◌∷◌, ◌^◌, length, IfOk, OnOk, MatchResult};
ghost use Rattle.std.specs.List.{list_all, join_with_byte};
ghost use Rattle.tl_model.specs.Acks.{IsPlain};
ghost use Rattle.tl_model.specs.Words as the_words;
ghost use Rattle.tl_pin.specs.Reading.{is_passed_over, ReadsPins, IsPinsError, IsPin, pin_text, pins_text};

use crate::globs::is_blank;
use crate::line::{PinLine, read_pin};
use std::alloc::{AllocError, Global};
use std::marker::Model;
use tl_glob::Glob;
use tl_text::lines;

/// Which repository gives which packages: the first pin that has a glob for a name counts, if its repository has the name.
/// Contracts see the list of the pins.
#[derive(Drop)]
pub struct Pins {
    pub(crate) lines: Vec<PinLine>,
}

/// Why a text has no pins.
#[derive(Clone, Copy, Debug, PartialEq, Eq)]
pub enum PinsError {
    /// The first line, counted from 1, that is neither a pin nor passed over.
    BadPins { line: u32 },
    NoMemory,
}

impl From<AllocError> for PinsError {
    ghost use Rattle.std.specs.Prelude.{◌≡◌};
    ghost use Rattle.tl_pin.specs.declared.pins.PinsError.TheVariants.{NoMemory};

    ghost from_gives = { λ _ e. e ≡ NoMemory };

    fn from(_error: AllocError) -> PinsError {
        PinsError::NoMemory
    }
}

impl Model for Pins {
    ghost use Rattle.std.specs.Prelude.{List};
    ghost use Rattle.tl_pin.specs.declared.line.PinLine.{PinLine};

    ghost Value = { List PinLine };

    ghost view = { λ a. a.lines.items };
}

fn has_blanks_alone(line: &[u8]) -> bool
    ensures { result ≡ list_all the_words.is_blank line.now }
{
    line.iter().all(|byte| is_blank(*byte))
}

fn is_passed_over(line: &[u8]) -> bool
    ensures { result ≡ is_passed_over line.now }
{
    match line.first() {
        Some(byte) => *byte == b'#' || has_blanks_alone(line),
        None => true,
    }
}

// Writes globs with a comma between two.
fn append_globs(out: &mut Vec<u8>, globs: &[Glob]) -> Result<(), AllocError>
    ensures { OnOk result (out.new.items ≡ out.old.items ++ join_with_byte 44 globs.now) }
{
    if let Some((first, others)) = globs.split_first() {
        out.extend_from_slice(first.bytes())?;
        for glob in others {
            out.push(b',')?;
            out.extend_from_slice(glob.bytes())?;
        }
    }
    Ok(())
}

fn append_pin(out: &mut Vec<u8>, pin: &PinLine) -> Result<(), AllocError>
    ensures written { OnOk result (out.new.items ≡ out.old.items ++ (pin_text pin.now ++ 10 ∷ [])) }
    ensures form { OnOk result (IsPin pin.now) }
{
    out.extend_from_slice(pin.tag.bytes())?;
    out.push(b':')?;
    append_globs(out, pin.globs.as_slice())?;
    out.push(b'\n')?;
    Ok(())
}

impl Pins {
    /// No pins. Takes no memory.
    pub fn none(alloc: Global) -> Pins
        ensures { result ≡ [] }
    {
        Pins {
            lines: Vec::new(alloc),
        }
    }

    /// The pins of a text: lines of the form `TAG:GLOB,GLOB` with blanks round each part or none. Lines that have blanks alone or
    /// begin with `#` are passed over. `BadPins` comes exactly for a text with another line, at the first one.
    pub fn parse(alloc: Global, text: &[u8]) -> Result<Pins, PinsError>
        requires { length text.now < 2 ^ 32 }
        ensures { MatchResult result (ReadsPins text.now) (IsPinsError text.now) }
    {
        let mut pins = Vec::new(alloc);
        for (before, span) in lines(alloc, text)?.iter().enumerate() {
            let line = span.of(text);
            if is_passed_over(line) {
                continue;
            }
            match read_pin(alloc, line)? {
                Some(pin) => pins.push(pin).map_err(AllocError::from)?,
                None => return Err(PinsError::BadPins {
                    line: before as u32 + 1,
                }),
            }
        }
        Ok(Pins { lines: pins })
    }

    /// The text of the pins: a line `TAG:GLOB,GLOB` for each, without blanks. It reads as the pins again, where it is below 2^32
    /// bytes; none of its lines has the form of a line that acknowledges a step.
    pub fn write(&self, alloc: Global) -> Result<Vec<u8>, AllocError>
        ensures text { IfOk result (λ text. text.items ≡ pins_text self.now) }
        ensures plain { IfOk result (λ text. IsPlain text.items) }
        ensures reads { IfOk result (λ text. ReadsPins text.items self.now) }
    {
        let mut out = Vec::new(alloc);
        for pin in &self.lines {
            append_pin(&mut out, pin)?;
        }
        Ok(out)
    }
}
