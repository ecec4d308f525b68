// The words of a session's line.
ghost use Rattle.std.specs.Prelude.{◌≡◌, ◌<◌, ◌^◌, length, map, IfOk, IfErr, OnOk};
ghost use Rattle.tl_model.specs.Words.{quoted_words, IsQuoted};
ghost use Rattle.tl_text.specs.Quotes.{IsQuoteFault};
ghost use Rattle.tl_action.specs.Texts.{texts};
ghost use Rattle.tl_words.specs.Lines.{unquoted};

use std::alloc::{AllocError, Global};
use tl_text::{QuoteError, quoted_words};

/// The words of a line, which blanks part: a blank between two `"` parts none, and each `"` is dropped. `BadQuote`
/// has the place of the one without a partner. The line has fewer than 2^32 bytes.
pub fn split_line(alloc: Global, line: &[u8]) -> Result<Vec<Vec<u8>>, QuoteError>
    requires { length line.now < 2 ^ 32 }
    ensures words { IfOk result (λ words. texts words.items ≡ map unquoted (quoted_words line.now)) }
    ensures quoted { OnOk result (IsQuoted line.now) }
    ensures fault { IfErr result (IsQuoteFault line.now) }
{
    let spans = quoted_words(alloc, line)?;
    let mut words = Vec::new(alloc);
    for span in &spans {
        let word = unquoted(alloc, span.of(line))?;
        words.push(word).map_err(AllocError::from)?;
    }
    Ok(words)
}

// The bytes of a word but for each `"`.
fn unquoted(alloc: Global, word: &[u8]) -> Result<Vec<u8>, AllocError>
    ensures { IfOk result (λ bytes. bytes.items ≡ unquoted word.now) }
{
    let mut bytes = Vec::with_capacity(alloc, word.len())?;
    for byte in word {
        if *byte != b'"' {
            bytes.push(*byte)?;
        }
    }
    Ok(bytes)
}
