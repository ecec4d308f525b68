//! Executes of map files.
ghost use Rattle.std.specs.Prelude.{map};
ghost use Rattle.tl_execute.specs.Executes as the_executes;
ghost use Rattle.tl_execute.specs.Executes.{Gives};

use crate::execute::{Execute, ExecuteError, ExecuteKind, MapKind};
use crate::part::read_full;
use crate::value::Unquoted;
use std::alloc::Global;

/// The map whose file is the one word.
pub fn read_map(alloc: Global, kind: MapKind, words: &[&[u8]]) -> Result<Execute, ExecuteError>
    ensures { Gives (the_executes.read_map kind (map (λ w. w.now) words.now)) result }
{
    match words {
        [] => Err(ExecuteError::BadExecute {
            kind: ExecuteKind::Missing,
        }),
        [word] => {
            let value = Unquoted::new(alloc, word)?;
            let file = read_full(alloc, &value)?;
            Ok(Execute::Map { kind, file })
        }
        _ => Err(ExecuteError::BadExecute {
            kind: ExecuteKind::Value,
        }),
    }
}
