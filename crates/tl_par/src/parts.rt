//! Pieces of about the same work, and what they gave, in one list.
ghost use Rattle.std.specs.Prelude.{◌≡◌, ◌<◌, ◌≤◌, true, IfOk, OnOk, is_ok, length, vec_len};
ghost use Rattle.std.specs.List.{flat_map, list_all};
ghost use Rattle.tl_par.specs.Parts.{held};

use std::alloc::{AllocError, Global};

// The sum of some amounts of work; at the greatest number it stands still.
fn total(works: &[u64]) -> u64 {
    let mut sum: u64 = 0;
    for work in works {
        sum = sum.saturating_add(*work);
    }
    sum
}

// How many of these amounts of work come before the one that has its middle at a bound or behind it.
fn count_before(works: &[u64], bound: u64) -> usize
    ensures { result ≤ length works.now }
{
    let mut done: u64 = 0;
    for (count, work) in works.iter().enumerate() {
        if done.saturating_add(*work / 2) >= bound {
            return count;
        }
        done = done.saturating_add(*work);
    }
    works.len()
}

/// A list as at most as many pieces, one behind the other, as there are workers, each with about the same work; `works` says how much
/// work each element is.
pub(crate) fn in_pieces<'a, T>(
    alloc: Global,
    items: &'a [T],
    works: &[u64],
    workers: u32,
) -> Result<Vec<&'a [T]>, AllocError>
    requires works { length works.now ≡ length items.now }
    requires workers { 0 < workers }
    ensures all { IfOk result (λ pieces. flat_map (λ piece. piece.now) pieces.items ≡ items.now) }
    ensures count { IfOk result (λ pieces. vec_len pieces ≤ workers) }
{
    let count = (workers as usize).min(works.len()).max(1);
    let share = total(works).div_ceil(count as u64);
    let mut pieces = Vec::new(alloc);
    let mut rest = items;
    let mut rest_works = works;
    for _ in 1..count {
        let size = count_before(rest_works, share);
        let (piece, behind) = rest.split_at(size);
        let (_, works_behind) = rest_works.split_at(size);
        pieces.push(piece)?;
        rest = behind;
        rest_works = works_behind;
    }
    pieces.push(rest)?;
    Ok(pieces)
}

/// What the workers gave, one piece behind the other. Where one of them found no memory there is none.
pub(crate) fn in_one<X: Drop>(
    alloc: Global,
    parts: Vec<Result<Vec<X>, AllocError>>,
) -> Result<Vec<X>, AllocError>
    ensures all { IfOk result (λ all. all.items ≡ flat_map (held (λ part. part.items)) parts.items) }
    ensures ok { OnOk result (list_all is_ok parts.items ≡ true) }
{
    let mut all = Vec::new(alloc);
    for part in parts {
        let mut part = part?;
        all.append(&mut part)?;
    }
    Ok(all)
}
