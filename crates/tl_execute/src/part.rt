//! The parts of an execute, each by its value.
ghost use Rattle.std.specs.Prelude.{◌≡◌, map, unwrap_or, OnErr, IfOk};
ghost use Rattle.tl_model.specs.Words as the_words;
ghost use Rattle.tl_execute.specs.Values as the_values;
ghost use Rattle.tl_execute.specs.Executes as the_executes;
ghost use Rattle.tl_execute.specs.Executes.{Gives};

use crate::execute::{ExecuteError, ExecuteKind, Texts};
use crate::value::Unquoted;
use std::alloc::Global;
use tl_text::{Text, TextError};

/// Whether a value has a byte. Takes no memory.
pub fn is_full(value: &[u8]) -> bool
    ensures { result ≡ the_words.is_full value.now }
{
    match value {
        [] => false,
        _ => true,
    }
}

/// The text of a value.
pub fn read_text(alloc: Global, value: &[u8]) -> Result<Text, ExecuteError>
    ensures { Gives (the_executes.read_text value.now) result }
{
    match Text::parse(alloc, value) {
        Ok(text) => Ok(text),
        Err(TextError::NotText) => Err(ExecuteError::BadExecute {
            kind: ExecuteKind::Value,
        }),
        Err(TextError::NoMemory) => Err(ExecuteError::NoMemory),
    }
}

/// The text of a value that must have a byte.
pub fn read_full(alloc: Global, value: &Unquoted) -> Result<Text, ExecuteError>
    ensures { Gives (the_executes.read_full value.now) result }
{
    if !is_full(value.bytes()) {
        return Err(ExecuteError::BadExecute {
            kind: ExecuteKind::Value,
        });
    }
    read_text(alloc, value.bytes())
}

/// The text of a value that may be absent.
pub fn read_option(alloc: Global, value: Option<Unquoted>) -> Result<Option<Text>, ExecuteError>
    ensures { Gives (the_executes.read_option value) result }
{
    match value {
        Some(value) => Ok(Some(read_text(alloc, value.bytes())?)),
        None => Ok(None),
    }
}

/// A value, where it has a byte. Takes no memory.
pub fn some_full(value: Option<Unquoted>) -> Option<Unquoted>
    ensures { result ≡ the_executes.some_full value }
{
    match value {
        Some(value) if is_full(value.bytes()) => Some(value),
        _ => None,
    }
}

/// Whether a format is disabled. Takes no memory.
pub fn read_mode(mode: &Option<Unquoted>) -> Result<bool, ExecuteError>
    ensures { Gives (the_executes.read_mode mode.now) result }
{
    match mode {
        None => Ok(false),
        Some(mode) => {
            let mode = mode.bytes();
            if mode == b"disabled".as_slice() {
                Ok(true)
            } else if mode == b"enabled".as_slice() {
                Ok(false)
            } else {
                Err(ExecuteError::BadExecute {
                    kind: ExecuteKind::Value,
                })
            }
        }
    }
}
