//! The lines of a text and the words of a line, as spans.
ghost use Rattle.std.specs.Prelude.{◌≡◌, ◌+◌, ◌<◌, ◌≤◌, ◌^◌, ◌++◌, ◌||◌, ◌==◌, IfOk, IfErr, OnOk, length};
ghost use Rattle.tl_model.specs.Lines as the_lines;
ghost use Rattle.tl_model.specs.Words as the_words;
ghost use Rattle.tl_text.specs.Spans.{stretches, AreRising, line_spans, run_spans};
ghost use Rattle.tl_text.specs.Quotes.{IsQuoteFault};
ghost use Rattle.tl_text.specs.Quotes as the_quotes;

use crate::span::Span;
use std::alloc::{AllocError, Global};
use thiserror::Error;

/// Why a line has no quoted words.
#[derive(Debug, Drop, Error)]
pub enum QuoteError {
    /// The double quote at this place has no partner.
    #[error("the quote at {at} has no partner")]
    BadQuote { at: u32 },
    #[error("out of memory")]
    NoMemory,
}

impl From<AllocError> for QuoteError {
    ghost use Rattle.std.specs.Prelude.{◌≡◌};
    ghost use Rattle.tl_text.specs.declared.words.QuoteError.TheVariants.{NoMemory};

    ghost from_gives = { λ _ e. e ≡ NoMemory };

    fn from(_error: AllocError) -> QuoteError {
        QuoteError::NoMemory
    }
}

fn push_run(spans: &mut Vec<Span>, start: usize, end: usize) -> Result<(), AllocError>
    requires { end < 2 ^ 32 }
    ensures { OnOk result (spans.new.items ≡ spans.old.items ++ run_spans start end) }
{
    if start < end {
        spans.push(Span {
            start: start as u32,
            end: end as u32,
        })?;
    }
    Ok(())
}

fn is_blank(b: u8) -> bool
    ensures { result ≡ the_words.is_blank b }
{
    b == b' ' || b == b'\t'
}

/// The spans of the lines of a text, without their ends.
pub fn lines(alloc: Global, text: &[u8]) -> Result<Vec<Span>, AllocError>
    requires { length text.now < 2 ^ 32 }
    ensures lines { IfOk result (λ spans. stretches text.now spans.items ≡ the_lines.lines text.now) }
    ensures places { IfOk result (λ spans. spans.items ≡ line_spans 0 (the_lines.lines text.now)) }
    ensures rising { IfOk result (λ spans. AreRising (length text.now) spans.items) }
{
    let mut spans = Vec::new(alloc);
    let mut start = 0;
    for (i, b) in text.iter().enumerate() {
        if *b == b'\n' {
            spans.push(Span {
                start: start as u32,
                end: i as u32,
            })?;
            start = i + 1;
        }
    }
    push_run(&mut spans, start, text.len())?;
    Ok(spans)
}

/// The spans of the maximal runs of bytes that aren't blanks. A blank is a space or a tab.
pub fn fields(alloc: Global, line: &[u8]) -> Result<Vec<Span>, AllocError>
    requires { length line.now < 2 ^ 32 }
    ensures fields { IfOk result (λ spans. stretches line.now spans.items ≡ the_words.fields line.now) }
    ensures rising { IfOk result (λ spans. AreRising (length line.now) spans.items) }
{
    let mut spans = Vec::new(alloc);
    let mut start = 0;
    for (i, b) in line.iter().enumerate() {
        if is_blank(*b) {
            push_run(&mut spans, start, i)?;
            start = i + 1;
        }
    }
    push_run(&mut spans, start, line.len())?;
    Ok(spans)
}

fn quote_after(quote: Option<u32>, b: u8, at: u32) -> Option<u32>
    ensures { result ≡ the_quotes.quote_after quote b at }
{
    match quote {
        Some(_) if b == b'"' => None,
        None if b == b'"' => Some(at),
        _ => quote,
    }
}

/// The spans of the maximal runs of bytes that aren't blanks, where blanks in a quoted stretch don't count.
/// A double quote begins a stretch up to the next one. `BadQuote` where the double quote at that place has no partner.
pub fn quoted_words(alloc: Global, line: &[u8]) -> Result<Vec<Span>, QuoteError>
    requires { length line.now < 2 ^ 32 }
    ensures words { IfOk result (λ spans. stretches line.now spans.items ≡ the_words.quoted_words line.now) }
    ensures quoted { OnOk result (the_words.IsQuoted line.now) }
    ensures rising { IfOk result (λ spans. AreRising (length line.now) spans.items) }
    ensures fault { IfErr result (λ e. IsQuoteFault line.now e) }
{
    let mut spans = Vec::new(alloc);
    let mut start = 0;
    let mut quote = None;
    for (i, b) in line.iter().enumerate() {
        if quote.is_none() && is_blank(*b) {
            push_run(&mut spans, start, i)?;
            start = i + 1;
        }
        quote = quote_after(quote, *b, i as u32);
    }
    if let Some(at) = quote {
        return Err(QuoteError::BadQuote { at });
    }
    push_run(&mut spans, start, line.len())?;
    Ok(spans)
}
