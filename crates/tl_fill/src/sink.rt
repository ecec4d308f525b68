//! An open step of a tree as what takes the files of containers.
ghost use Rattle.std.specs.Prelude.{◌≡◌, Some, None};
ghost use Rattle.tl_fill.specs.StepSinks.{IsHeld, StepSince, sink_seen};

use tl_fetch::FileSink;
use tl_host::{Failed, Host};
use tl_path::Path;
use tl_tree::Step;

/// An open step, or the host that a failed call of it left.
#[derive(Drop)]
pub(crate) enum Held<'a, H: Host> {
    Open(Step<'a, H>),
    Lost(H),
}

/// An open step that takes the files that it awaits. Between two calls something is held; `later` counts the calls behind a failure.
#[derive(Drop)]
pub(crate) struct StepSink<'a, H: Host> {
    held: Option<Held<'a, H>>,
    later: u64,
}

impl<'a, H: Host> StepSink<'a, H> {
    /// The step.
    pub(crate) fn new(step: Step<'a, H>) -> StepSink<'a, H>
        ensures { (result.held ≡ Some (Held.Open step.entry)) × (result.later ≡ 0) }
    {
        StepSink {
            held: Some(Held::Open(step)),
            later: 0,
        }
    }

    /// What is held.
    pub(crate) fn into_held(self) -> Held<'a, H>
        requires { IsHeld self.held }
        ensures { self.entry.held ≡ Some result }
    {
        match self.held {
            Some(held) => held,
            None => unreachable!(),
        }
    }

    // Holds a step or a host, where nothing is held.
    fn keep(&mut self, held: Held<'a, H>)
        requires { self.old.held ≡ None }
        ensures { (self.new.held ≡ Some held.entry) × (self.new.later ≡ self.old.later) }
    {
        match self.held.replace(held) {
            None => {}
            Some(_other) => unreachable!(),
        }
    }
}

impl<'a, H: Host> FileSink for StepSink<'a, H> {
    ghost tells = { H.tells };

    ghost since = { λ a b. StepSince H.tells H.seen a.held a.later b.held b.later };

    ghost seen = { λ s. sink_seen H.seen s.held s.later };

    fn file(&mut self, path: &Path, len: u64) -> Result<(), Failed> {
        match self.held.take() {
            Some(Held::Open(step)) => match step.file(path, len) {
                Ok(step) => {
                    self.keep(Held::Open(step));
                    Ok(())
                }
                Err(lost) => {
                    self.keep(Held::Lost(lost.host));
                    Err(Failed)
                }
            },
            Some(Held::Lost(host)) => {
                self.keep(Held::Lost(host));
                self.later = self.later.saturating_add(1);
                Err(Failed)
            }
            None => {
                self.later = self.later.saturating_add(1);
                Err(Failed)
            }
        }
    }

    fn piece(&mut self, bytes: &[u8]) -> Result<(), Failed> {
        match self.held.take() {
            Some(Held::Open(step)) => match step.piece(bytes) {
                Ok(step) => {
                    self.keep(Held::Open(step));
                    Ok(())
                }
                Err(lost) => {
                    self.keep(Held::Lost(lost.host));
                    Err(Failed)
                }
            },
            Some(Held::Lost(host)) => {
                self.keep(Held::Lost(host));
                self.later = self.later.saturating_add(1);
                Err(Failed)
            }
            None => {
                self.later = self.later.saturating_add(1);
                Err(Failed)
            }
        }
    }
}
