// What an entry of the record says.
ghost use Rattle.std.specs.Prelude.{◌≡◌, ◌<◌, ◌++◌, ◌∷◌, [], ℕ, List, length};
ghost use Rattle.std.specs.Vec.{vec_len, vec_capacity};
ghost use Rattle.tl_memhost.specs.Record.{unsaid};

use crate::record::{Did, Entry};

// Adds an entry where there is room.
pub(crate) fn enter(record: &mut Vec<Entry>, call: u64, rest: u64, did: Did)
    requires { vec_len record.old < vec_capacity record.old }
    ensures { record.new.items ≡ record.old.items ++ record { call = call; rest = rest; did = did } ∷ [] }
{
    match record.push(Entry { call, rest, did }) {
        Ok(()) => (),
        Err(_) => unreachable!(),
    }
}

// How many bytes were said before a call, by how many are said after it.
pub(crate) fn unsaid(did: &Did, said: usize) -> usize
    ensures { (bytes : List ℕ) → said ≡ length bytes → result ≡ length (unsaid did.now bytes) }
{
    match did {
        Did::Said(length) => said.min(*length),
        _ => said,
    }
}
