//! Reading an execute.
ghost use Rattle.std.specs.Prelude.{◌≡◌, ◌<◌, ◌^◌, map, length, OnOk, IfOk, IfErr};
ghost use Rattle.tl_model.specs.Words as the_words;
ghost use Rattle.tl_execute.specs.Executes as the_executes;
ghost use Rattle.tl_execute.specs.Executes.{Gives, IsUnquoted};

use crate::execute::{Execute, ExecuteError, ExecuteKind, MapKind};
use crate::format::read_format;
use crate::hyphen::read_hyphen;
use crate::map::read_map;
use std::alloc::Global;
use tl_text::{QuoteError, quoted_words};

fn words_of<'t>(alloc: Global, text: &'t [u8]) -> Result<Vec<&'t [u8]>, ExecuteError>
    requires { length text.now < 2 ^ 32 }
    ensures words { IfOk result (λ words. map (λ w. w.now) words.items ≡ the_words.quoted_words text.now) }
    ensures quoted { OnOk result (the_words.IsQuoted text.now) }
    ensures fault { IfErr result (IsUnquoted text.now) }
{
    let spans = match quoted_words(alloc, text) {
        Ok(spans) => spans,
        Err(QuoteError::BadQuote { .. }) => {
            return Err(ExecuteError::BadExecute {
                kind: ExecuteKind::Quote,
            });
        }
        Err(QuoteError::NoMemory) => return Err(ExecuteError::NoMemory),
    };
    let mut words = Vec::new(alloc);
    for span in &spans {
        words.push(span.of(text))?;
    }
    Ok(words)
}

fn read_first(alloc: Global, first: &[u8], words: &[&[u8]]) -> Result<Execute, ExecuteError>
    ensures { Gives (the_executes.read_first first.now (map (λ w. w.now) words.now)) result }
{
    if first == b"addMap".as_slice() {
        read_map(alloc, MapKind::Plain, words)
    } else if first == b"addMixedMap".as_slice() {
        read_map(alloc, MapKind::Mixed, words)
    } else if first == b"addKanjiMap".as_slice() {
        read_map(alloc, MapKind::Kanji, words)
    } else if first == b"AddFormat".as_slice() {
        read_format(alloc, words)
    } else if first == b"AddHyphen".as_slice() {
        read_hyphen(alloc, words)
    } else {
        Err(ExecuteError::BadExecute {
            kind: ExecuteKind::Word,
        })
    }
}

fn read_words(alloc: Global, words: &[&[u8]]) -> Result<Execute, ExecuteError>
    ensures { Gives (the_executes.read_words (map (λ w. w.now) words.now)) result }
{
    match words {
        [first, words @ ..] => read_first(alloc, first, words),
        [] => Err(ExecuteError::BadExecute {
            kind: ExecuteKind::Word,
        }),
    }
}

impl Execute {
    /// What an execute says. `BadExecute` with the first kind of its faults, in the order of `ExecuteKind`.
    pub fn parse(alloc: Global, text: &[u8]) -> Result<Self, ExecuteError>
        requires { length text.now < 2 ^ 32 }
        ensures { Gives (the_executes.read_execute text.now) result }
    {
        let words = words_of(alloc, text)?;
        read_words(alloc, &words)
    }
}
