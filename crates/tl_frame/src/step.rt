//! How a reader of a frame takes the bytes of a piece.
ghost use Rattle.std.specs.Prelude.{◌≡◌, ◌<◌, ℕ, List, [], length, false, None, Some, IfOk, OnErr};
ghost use Rattle.tl_frame.specs.States.{IsInForm, IsAtStage, Moves, Takes, ReaderState, reader_of, is_spent_stage, wanted_by};

use crate::event::FrameEvent;
use crate::fields::judge;
use crate::stage::{Stage, Waiting};
use std::alloc::AllocError;
use tl_file::Bytes;

/// Takes bytes of a field that is kept until it is whole, and gives the rest of the piece.
pub fn gather<'p>(
    waiting: Waiting,
    kept: &mut Vec<u8>,
    last: &mut Vec<u8>,
    wanted: usize,
    piece: &'p [u8],
    out: &mut Vec<FrameEvent>,
) -> Result<(Waiting, &'p [u8]), AllocError>
    requires wanted { wanted_by waiting.stage ≡ Some wanted }
    requires form { IsInForm waiting kept.old.items last.old.items }
    requires some { 0 < length piece.now }
    ensures takes { IfOk result (λ on. Takes (reader_of waiting kept.old.items last.old.items)
        (reader_of on.0 kept.new.items last.new.items) piece.now on.1.now out.old.items out.new.items) }
    ensures less { IfOk result (λ on. length on.1.now < length piece.now) }
    ensures form { OnErr result (IsInForm waiting kept.new.items last.new.items) }
    ensures same { OnErr result (out.new.items ≡ out.old.items) }
{
    let missing = wanted - kept.len();
    if piece.len() < missing {
        kept.extend_from_slice(piece)?;
        return Ok((waiting, &[]));
    }
    let (front, rest) = piece.split_at(missing);
    if kept.is_empty() {
        return Ok((judge(waiting, last, front, out)?, rest));
    }
    kept.extend_from_slice(front)?;
    let next = judge(waiting, last, kept.as_slice(), out);
    kept.clear();
    Ok((next?, rest))
}

/// Takes bytes that aren't kept, and gives the rest of the piece.
pub fn pass<'p>(
    waiting: Waiting,
    piece: &'p [u8],
    out: &mut Vec<FrameEvent>,
) -> Result<(Waiting, &'p [u8]), AllocError>
    requires wanted { wanted_by waiting.stage ≡ None }
    requires live { is_spent_stage waiting.stage ≡ false }
    requires stage { IsAtStage waiting.stage [] }
    requires some { 0 < length piece.now }
    ensures takes { IfOk result (λ on. (last : List ℕ) → Takes (reader_of waiting [] last)
        (reader_of on.0 [] last) piece.now on.1.now out.old.items out.new.items) }
    ensures less { IfOk result (λ on. length on.1.now < length piece.now) }
    ensures same { OnErr result (out.new.items ≡ out.old.items) }
{
    match waiting.stage {
        Stage::Content(left) => content(waiting, left, piece, out),
        Stage::Ended => Ok((waiting.at(Stage::Faulty), &[])),
        _ => Ok((waiting, &[])),
    }
}

// Hands on the bytes of a file, of which so many are still to come.
fn content<'p>(
    waiting: Waiting,
    left: u64,
    piece: &'p [u8],
    out: &mut Vec<FrameEvent>,
) -> Result<(Waiting, &'p [u8]), AllocError>
    requires stage { waiting.stage ≡ Stage.Content left }
    requires left { 0 < left }
    requires some { 0 < length piece.now }
    ensures takes { IfOk result (λ on. (last : List ℕ) → Takes (reader_of waiting [] last)
        (reader_of on.0 [] last) piece.now on.1.now out.old.items out.new.items) }
    ensures less { IfOk result (λ on. length on.1.now < length piece.now) }
    ensures same { OnErr result (out.new.items ≡ out.old.items) }
{
    let size = left.min(piece.len() as u64);
    let (front, rest) = piece.split_at(size as usize);
    let bytes = Vec::from_slice(*out.allocator(), front)?;
    out.push(FrameEvent::Bytes(Bytes::new(bytes)))?;
    let next = if size == left {
        waiting.before_files(waiting.size, waiting.files)
    } else {
        waiting.at(Stage::Content(left - size))
    };
    Ok((next, rest))
}
