//! A frame that comes in pieces.
ghost use Rattle.std.specs.Prelude.{◌≡◌, ◌<◌, ◌++◌, ℕ, List, [], length, true, false, IfOk, OnOk, OnErr};
ghost use Rattle.tl_frame.specs.Scan.{AtFault, ending_of};
ghost use Rattle.tl_frame.specs.States.{IsFed, IsWhole, Takes, Tells, is_spent, IsInForm};
ghost use Rattle.tl_frame.specs.Answers.{feed_answer, finish_answer, reader_fault};

use crate::error::FrameError;
use crate::event::FrameEvent;
use crate::stage::{Stage, Waiting};
use crate::step::{gather, pass};
use std::alloc::{AllocError, Global};
use std::marker::Model;

/// Reads a frame that comes in pieces. It keeps the bytes of the field that has begun, but for those of a file, and
/// the path that came last. Contracts say which bytes have come to it.
#[derive(Drop)]
pub struct FrameReader {
    waiting: Waiting,
    kept: Vec<u8>,
    last: Vec<u8>,
}

impl Model for FrameReader {
    ghost use Rattle.tl_frame.specs.States.{ReaderState, reader_of, IsInForm};

    ghost Value = { ReaderState };

    ghost view = { λ r. reader_of r.waiting r.kept.items r.last.items };

    ghost invariant = { λ r. IsInForm r.waiting r.kept.items r.last.items };
}

impl FrameReader {
    /// A reader to which nothing has come. Takes no memory.
    pub fn new(alloc: Global) -> FrameReader
        ensures fed { IsFed result [] }
        ensures live { is_spent result ≡ false }
    {
        FrameReader {
            waiting: Waiting {
                stage: Stage::Magic,
                place: 0,
                files: 0,
                size: 0,
            },
            kept: Vec::new(alloc),
            last: Vec::new(alloc),
        }
    }

    /// Takes the next piece, and adds what it tells. `BadFrame` comes where a field that has come whole is wrong, and then
    /// at each call; after `NoMemory` each call answers it.
    pub fn feed(&mut self, piece: &[u8], out: &mut Vec<FrameEvent>) -> Result<(), FrameError>
        ensures fed { (fed : List ℕ) → IsFed self.old fed → IsFed self.new (fed ++ piece.now) }
        ensures answer { (fed : List ℕ) → IsFed self.old fed →
            result ≡ feed_answer (is_spent self.new) (fed ++ piece.now) }
        ensures tells { (fed : List ℕ) → IsFed self.old fed →
            Tells fed piece.now out.old.items out.new.items (is_spent self.new) }
        // A field that is wrong stays the first one.
        ensures again { (fed : List ℕ) (place : ℕ) → IsFed self.old fed → is_spent self.old ≡ false
            → ending_of fed ≡ AtFault place → ending_of (fed ++ piece.now) ≡ AtFault place }
        ensures spent { is_spent self.old ≡ true → is_spent self.new ≡ true }
    {
        if self.is_spent() {
            return Err(FrameError::NoMemory);
        }
        let mut rest = piece;
        while !rest.is_empty() {
            match self.step(rest, out) {
                Ok(more) => rest = more,
                Err(_) => {
                    self.spend();
                    return Err(FrameError::NoMemory);
                }
            }
        }
        self.fault()
    }

    /// Whether what has come is a whole frame. `BadFrame` comes where it isn't, also where it is only cut. Takes no memory.
    pub fn finish(&self) -> Result<(), FrameError>
        ensures answer { (fed : List ℕ) → IsFed self.now fed →
            result ≡ finish_answer (is_spent self.now) fed }
        ensures whole { OnOk result ((fed : List ℕ) → IsFed self.now fed → IsWhole fed) }
    {
        self.waiting.ending()
    }

    fn fault(&self) -> Result<(), FrameError>
        ensures { result ≡ reader_fault self.now }
    {
        self.waiting.fault()
    }

    fn is_spent(&self) -> bool
        ensures spent { result ≡ is_spent self.now }
        ensures form { IsInForm self.now.waiting self.now.kept self.now.last }
    {
        self.waiting.stage.is_spent()
    }

    fn spend(&mut self)
        ensures { is_spent self.new ≡ true }
    {
        self.waiting = self.waiting.at(Stage::Spent);
        self.kept.clear();
    }

    fn step<'p>(
        &mut self,
        piece: &'p [u8],
        out: &mut Vec<FrameEvent>,
    ) -> Result<&'p [u8], AllocError>
        requires some { 0 < length piece.now }
        requires live { is_spent self.old ≡ false }
        ensures takes { IfOk result (λ rest.
            Takes self.old self.new piece.now rest.now out.old.items out.new.items) }
        ensures less { IfOk result (λ rest. length rest.now < length piece.now) }
        ensures same { OnErr result (out.new.items ≡ out.old.items) }
    {
        match self.waiting.stage.wanted() {
            Some(wanted) => {
                let (kept, last) = (&mut self.kept, &mut self.last);
                let (waiting, rest) = gather(self.waiting, kept, last, wanted, piece, out)?;
                self.waiting = waiting;
                Ok(rest)
            }
            None => {
                let (waiting, rest) = pass(self.waiting, piece, out)?;
                self.waiting = waiting;
                Ok(rest)
            }
        }
    }
}
