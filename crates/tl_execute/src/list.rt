//! The values of an execute that are lists, and its numbers.
ghost use Rattle.std.specs.Prelude.{◌≡◌, ◌==◌, ◌||◌, map, IfOk, codes};
ghost use Rattle.std.specs.List.{slice_split, list_any};
ghost use Rattle.std.specs.Str.{bytes_eq};
ghost use Rattle.tl_execute.specs.Values as the_values;
ghost use Rattle.tl_execute.specs.Executes as the_executes;
ghost use Rattle.tl_execute.specs.Executes.{Gives};

use crate::execute::{ExecuteError, ExecuteKind, Texts};
use crate::part::{is_full, read_text};
use crate::value::Unquoted;
use std::alloc::{AllocError, Global};
use tl_text::decimal_u32;

fn split_at_commas<'t>(alloc: Global, value: &'t [u8]) -> Result<Vec<&'t [u8]>, AllocError>
    ensures { IfOk result (λ parts. map (λ p. p.now) parts.items ≡ slice_split (λ b. b == 44) value.now) }
{
    value.split(|b| *b == b',').collect(alloc)
}

fn read_texts(alloc: Global, value: &[u8]) -> Result<Texts, ExecuteError>
    ensures { Gives (the_executes.read_texts (the_values.parts value.now)) result }
{
    let parts = split_at_commas(alloc, value)?;
    let mut texts = Vec::new(alloc);
    for part in &parts {
        if is_full(part) {
            texts.push(read_text(alloc, part)?)?;
        }
    }
    Ok(Texts::new(texts))
}

/// The parts of a list between commas that have a byte. An absent list has none.
pub fn read_list(alloc: Global, value: &Option<Unquoted>) -> Result<Texts, ExecuteError>
    ensures { Gives (the_executes.read_list value.now) result }
{
    match value {
        Some(value) => read_texts(alloc, value.bytes()),
        None => Ok(Texts::new(Vec::new(alloc))),
    }
}

fn is_database(word: &[u8], name: &str) -> bool
    ensures { result ≡ (bytes_eq word.now name.now || bytes_eq word.now (codes "all")) }
{
    word == name.as_bytes() || word == b"all".as_slice()
}

fn has_database(databases: &[u8], name: &str) -> bool
    ensures { result ≡ list_any (λ word. bytes_eq word name.now || bytes_eq word (codes "all")) (slice_split (λ b. b == 44) databases.now) }
{
    databases
        .split(|b| *b == b',')
        .any(|word| is_database(word, name))
}

/// Whether a list of databases has this one or `all`; without a list the default. Takes no memory.
pub fn is_listed(databases: &Option<Unquoted>, name: &str, default: bool) -> bool
    ensures { result ≡ the_executes.is_listed name.now default databases.now }
{
    match databases {
        Some(databases) => has_database(databases.bytes(), name),
        None => default,
    }
}

/// A least number of letters; an absent or empty one is the default. Takes no memory.
pub fn read_least(value: &Option<Unquoted>, default: u32) -> Result<u32, ExecuteError>
    ensures { Gives (the_executes.read_least default value.now) result }
{
    match value {
        Some(value) if is_full(value.bytes()) => match decimal_u32(value.bytes()) {
            Ok(least) => Ok(least),
            Err(_) => Err(ExecuteError::BadExecute {
                kind: ExecuteKind::Number,
            }),
        },
        _ => Ok(default),
    }
}
