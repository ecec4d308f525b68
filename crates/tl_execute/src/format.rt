//! Executes of formats.
ghost use Rattle.std.specs.Prelude.{◌≡◌, map};
ghost use Rattle.std.specs.List.{list_all};
ghost use Rattle.tl_execute.specs.Executes as the_executes;
ghost use Rattle.tl_execute.specs.Executes.{Gives};

use crate::execute::{Execute, ExecuteError, ExecuteKind};
use crate::list::read_list;
use crate::part::{read_full, read_mode, read_option};
use crate::value::{Unquoted, has_key, is_repeated, value_of};
use std::alloc::Global;

fn is_format_word(word: &[u8]) -> bool
    ensures { result ≡ the_executes.is_format_word word.now }
{
    has_key(word, "name=")
        || has_key(word, "engine=")
        || has_key(word, "options=")
        || has_key(word, "patterns=")
        || has_key(word, "mode=")
        || has_key(word, "fmttriggers=")
}

fn are_format_words(words: &[&[u8]]) -> bool
    ensures { result ≡ list_all the_executes.is_format_word (map (λ w. w.now) words.now) }
{
    for word in words {
        if !is_format_word(word) {
            return false;
        }
    }
    true
}

fn is_format_repeated(words: &[&[u8]]) -> bool
    ensures { result ≡ the_executes.is_format_repeated (map (λ w. w.now) words.now) }
{
    is_repeated(words, "name=")
        || is_repeated(words, "engine=")
        || is_repeated(words, "options=")
        || is_repeated(words, "patterns=")
        || is_repeated(words, "mode=")
        || is_repeated(words, "fmttriggers=")
}

fn format_from(
    alloc: Global,
    name: &Unquoted,
    engine: &Unquoted,
    words: &[&[u8]],
) -> Result<Execute, ExecuteError>
    ensures { Gives (the_executes.format_from name.now engine.now (map (λ w. w.now) words.now)) result }
{
    let name = read_full(alloc, name)?;
    let engine = read_full(alloc, engine)?;
    let options = read_option(alloc, value_of(alloc, words, "options=")?)?;
    let patterns = read_option(alloc, value_of(alloc, words, "patterns=")?)?;
    let disabled = read_mode(&value_of(alloc, words, "mode=")?)?;
    let triggers = read_list(alloc, &value_of(alloc, words, "fmttriggers=")?)?;
    Ok(Execute::Format {
        name,
        engine,
        options,
        patterns,
        disabled,
        triggers,
    })
}

/// The format that the words behind the first one say.
pub fn read_format(alloc: Global, words: &[&[u8]]) -> Result<Execute, ExecuteError>
    ensures { Gives (the_executes.read_format (map (λ w. w.now) words.now)) result }
{
    if !are_format_words(words) {
        return Err(ExecuteError::BadExecute {
            kind: ExecuteKind::Key,
        });
    }
    if is_format_repeated(words) {
        return Err(ExecuteError::BadExecute {
            kind: ExecuteKind::Repeated,
        });
    }
    let name = value_of(alloc, words, "name=")?;
    let engine = value_of(alloc, words, "engine=")?;
    match (name, engine) {
        (Some(name), Some(engine)) => format_from(alloc, &name, &engine, words),
        _ => Err(ExecuteError::BadExecute {
            kind: ExecuteKind::Missing,
        }),
    }
}
