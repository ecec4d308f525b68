//! Short texts of one line.
ghost use Rattle.std.specs.Prelude.{◌≡◌, ◌==◌, ◌&&◌, not, nat_le, length, IfOk, IfErr};
ghost use Rattle.std.specs.List.{list_all};
ghost use Rattle.tl_text.specs.Texts.{IsText, IsTextFault};

use memchr::memchr;
use std::alloc::{AllocError, Global};
use std::marker::Model;
use thiserror::Error;

/// UTF-8 without a line end, of 65,536 bytes at most.
#[derive(Debug, Drop)]
pub struct Text {
    text: String,
}

/// Why bytes are no `Text`.
#[derive(Debug, Drop, Error)]
pub enum TextError {
    /// The bytes aren't UTF-8, have a line end, or are more than 65,536.
    #[error("not a text of one line")]
    NotText,
    #[error("out of memory")]
    NoMemory,
}

impl Model for Text {
    ghost use Rattle.std.specs.Prelude.{◌≡◌, ℕ, List, true};
    ghost use Rattle.std.specs.String.{string_bytes};
    ghost use Rattle.tl_text.specs.Texts.{is_text};

    ghost Value = { List ℕ };

    ghost view = { λ t. string_bytes t.text };

    ghost invariant = { λ t. is_text (string_bytes t.text) ≡ true };
}

fn is_one_line(bytes: &[u8]) -> bool
    ensures { result ≡ list_all (λ b. not (b == 10)) bytes.now }
{
    match memchr(b'\n', bytes) {
        Some(_) => false,
        None => true,
    }
}

impl Text {
    /// The text of these bytes. `NotText` where they aren't UTF-8, have a line end, or are more than 65,536.
    pub fn parse(alloc: Global, bytes: &[u8]) -> Result<Self, TextError>
        ensures text { IfOk result (λ text. (text ≡ bytes.now) × IsText bytes.now) }
        ensures fault { IfErr result (λ e. IsTextFault bytes.now e) }
    {
        if bytes.len() > 65_536 || !is_one_line(bytes) {
            return Err(TextError::NotText);
        }
        match str::from_utf8(bytes) {
            Ok(text) => match String::from_str(alloc, text) {
                Ok(text) => Ok(Text { text }),
                Err(_) => Err(TextError::NoMemory),
            },
            Err(_) => Err(TextError::NotText),
        }
    }

    /// The bytes of this text. Takes no memory.
    pub fn bytes(&self) -> &[u8]
        ensures bytes { result.now ≡ self.now }
        ensures is_text { IsText self.now }
    {
        self.text.as_bytes()
    }

    /// This text as a `str`. Takes no memory.
    pub fn text(&self) -> &str
        ensures text { result.now ≡ self.now }
        ensures is_text { IsText self.now }
    {
        self.text.as_str()
    }

    /// The same text once more.
    pub fn try_clone(&self, alloc: Global) -> Result<Self, AllocError>
        ensures same { IfOk result (λ text. text ≡ self.now) }
    {
        let text = String::from_str(alloc, self.text.as_str())?;
        Ok(Text { text })
    }
}
