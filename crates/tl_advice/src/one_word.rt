//! A word as it is told.
use std::fmt;
use tl_real::OneLine;

// A longer word is told by its length.
const LONGEST: usize = 200;

/// A word of the command line, or bytes of a file. It prints as one line: the text, where it is one and not too long.
#[derive(Clone, Copy)]
pub struct OneWord<'a>(pub &'a [u8]);

impl fmt::Display for OneWord<'_> {
    fn fmt<W: fmt::Write>(&self, f: &mut fmt::Formatter<W>) -> fmt::Result {
        if self.0.is_empty() {
            return f.write_str("an empty word");
        }
        if self.0.len() > LONGEST {
            return write!(f, "a word of {} bytes", self.0.len());
        }
        match str::from_utf8(self.0) {
            Ok(text) => write!(f, "{}", OneLine(text)),
            Err(_) => f.write_str("a word that is no UTF-8"),
        }
    }
}
