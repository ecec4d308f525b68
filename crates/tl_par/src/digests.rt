//! The digests of many frames.
ghost use Rattle.std.specs.Prelude.{◌≡◌, ◌≤◌, ◌<◌, IfOk, map, length, vec_len, slice_index_or};
ghost use Rattle.sha2.specs.Sha512.{sha512};

use crate::gate::Gate;
use crate::parts::{in_one, in_pieces};
use sha2::{Digest, Sha512};
use std::alloc::{AllocError, Global};
use std::thread;
use std::thread::Threads;

fn digests_of(alloc: Global, frames: &[Vec<u8>]) -> Result<Vec<[u8; 64]>, AllocError>
    ensures { IfOk result (λ digests. digests.items ≡ map (λ frame. sha512 frame.items) frames.now) }
{
    let mut digests = Vec::with_capacity(alloc, frames.len())?;
    for frame in frames {
        digests.push(Sha512::digest(frame.as_slice()))?;
    }
    Ok(digests)
}

fn sizes(alloc: Global, frames: &[Vec<u8>]) -> Result<Vec<u64>, AllocError>
    ensures { IfOk result (λ sizes. vec_len sizes ≡ length frames.now) }
{
    let mut sizes = Vec::with_capacity(alloc, frames.len())?;
    for frame in frames {
        sizes.push(frame.len() as u64)?;
    }
    Ok(sizes)
}

// What the worker of a piece does.
fn digests_in<G: Gate>(
    alloc: Global,
    pieces: &[&[Vec<u8>]],
    piece: usize,
    gate: &G,
) -> Result<Vec<[u8; 64]>, AllocError>
    requires piece { piece < length pieces.now }
    requires count { length pieces.now ≤ 64 }
    ensures { IfOk result (λ digests. (d : _)
        → digests.items ≡ map (λ frame. sha512 frame.items) (slice_index_or pieces.now piece d).now) }
{
    gate.pass(piece as u32);
    digests_of(alloc, pieces[piece])
}

/// The SHA-512 of each frame, in order, by 1 to 64 workers. Each worker passes the gate with the number of its piece before its first
/// frame. Where a thread can't be started its work is done in another one.
pub fn digest_all<R: Threads + Sync, G: Gate>(
    rt: &R,
    alloc: Global,
    frames: &[Vec<u8>],
    workers: u32,
    gate: &G,
) -> Result<Vec<[u8; 64]>, AllocError>
    requires least { 1 ≤ workers }
    requires most { workers ≤ 64 }
    ensures { IfOk result (λ digests. digests.items ≡ map (λ frame. sha512 frame.items) frames.now) }
{
    let sizes = sizes(alloc, frames)?;
    let pieces = in_pieces(alloc, frames, sizes.as_slice(), workers)?;
    let pieces = pieces.as_slice();
    let parts = thread::map_indices(
        rt,
        alloc,
        pieces.len(),
        &|piece: usize| -> Result<Vec<[u8; 64]>, AllocError>
            requires { (piece < length pieces.now) × (length pieces.now ≤ 64) }
            ensures { IfOk result (λ digests. (d : _)
                → digests.items ≡ map (λ frame. sha512 frame.items) (slice_index_or pieces.entry.now piece d).now) }
        { digests_in(alloc, pieces, piece, gate) },
    )?;
    in_one(alloc, parts)
}
