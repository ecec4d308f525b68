//! Standard input as a source.
ghost use Rattle.std.specs.Prelude.{◌≡◌, ◌≤◌, ◌<◌, ◌↔◌, false, length, IsSome, IfOk};
ghost use Rattle.tl_model.specs.Causes.{HasCause};
ghost use Rattle.tl_real.specs.Untold.{untold_source};

use std::io;
use std::io::{ErrorKind, Input, Read};
use std::marker::Model;
use tl_host::{Failed, Source};

/// Standard input. It tells nothing but its count of faults; contracts see it as that. It reads no byte ahead, and takes no memory.
#[derive(Drop)]
pub struct StdSource<'a, R: Input> {
    rt: &'a R,
    faults: u64,
    failure: Option<io::Error>,
}

impl<'a, R: Input> Model for StdSource<'a, R> {
    ghost use Rattle.std.specs.Prelude.{ℕ, ◌<◌, ◌↔◌, IsSome};

    ghost Value = { ℕ };

    ghost view = { λ s. s.faults };

    ghost invariant = { λ s. IsSome s.failure ↔ (0 < s.faults) };
}

impl<'a, R: Input> StdSource<'a, R> {
    /// Standard input, with no fault. It touches nothing.
    pub fn new(rt: &'a R) -> StdSource<'a, R>
        ensures { result ≡ 0 }
    {
        StdSource {
            rt,
            faults: 0,
            failure: None,
        }
    }

    /// Why the last call that failed did so, in the system's own words; `None` exactly where none has.
    pub fn failure(&self) -> Option<&io::Error>
        ensures { IsSome result ↔ (0 < self.now) }
    {
        self.failure.as_ref()
    }
}

// Reads what has come, or waits for it. A call that a signal interrupts is made again.
fn take<R: Input>(rt: &R, into: &mut [u8]) -> io::Result<usize>
    ensures { IfOk result (λ count. count ≤ length into.new) }
{
    for _ in 0..u64::MAX {
        match rt.reader().read(into) {
            Err(error) if error.kind() == ErrorKind::Interrupted => {}
            answered => return answered,
        }
    }
    Err(io::Error::from(ErrorKind::Interrupted))
}

impl<'a, R: Input> Source for StdSource<'a, R> {
    ghost tells = { false };

    ghost seen = { untold_source };

    fn read(&mut self, into: &mut [u8]) -> Result<usize, Failed> {
        match take(self.rt, into) {
            Ok(count) => Ok(count),
            Err(cause) => {
                self.faults = self.faults.saturating_add(1);
                self.failure = Some(cause);
                Err(Failed)
            }
        }
    }
}
