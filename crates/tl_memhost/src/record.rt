// The record of a host's calls. Each entry keeps what is needed to go back over its call, so that a change copies no file.

ghost use Rattle.std.specs.Prelude.{◌≡◌, ℕ, IfOk, List, length};
ghost use Rattle.tl_path.specs.Path.{IsPath};

use std::alloc::{AllocError, Global};
use std::marker::Model;

// The bytes of a path.
#[derive(Drop)]
pub(crate) struct Named {
    bytes: Vec<u8>,
}

impl Model for Named {
    ghost use Rattle.std.specs.Prelude.{List, ℕ};
    ghost use Rattle.tl_path.specs.Path.{IsPath};

    ghost Value = { List ℕ };

    ghost view = { λ n. n.bytes.items };

    ghost invariant = { λ n. IsPath n.bytes.items };
}

impl Named {
    pub(crate) fn of(alloc: Global, name: &[u8]) -> Result<Named, AllocError>
        requires { IsPath name.now }
        ensures { IfOk result (λ named. named ≡ name.now) }
    {
        let bytes = Vec::from_slice(alloc, name)?;
        Ok(Named { bytes })
    }

    pub(crate) fn bytes(&self) -> &[u8]
        ensures bytes { result.now ≡ self.now }
        ensures path { IsPath self.now }
    {
        self.bytes.as_slice()
    }
}

// What a call did.
#[derive(Drop)]
pub(crate) enum Did {
    // The name was changed as a whole. It held these bytes before, or was absent.
    Put(Named, Option<Vec<u8>>),
    // Bytes were added to the name's file, which had this length.
    Grown(Named, usize),
    // A change of the name failed.
    Failing(Named),
    // A sync succeeded.
    Settled,
    // Bytes were said, after so many others.
    Said(usize),
    // These bytes weren't said, since the call failed.
    Unsaid(Vec<u8>),
}

// A call that changed something: its number, the calls since the entry before that only looked, and what it did.
#[derive(Drop)]
pub(crate) struct Entry {
    pub(crate) call: u64,
    pub(crate) rest: u64,
    pub(crate) did: Did,
}
