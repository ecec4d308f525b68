//! The digest that is stated beside a repository's database.
ghost use Rattle.std.specs.Prelude.{◌≡◌, IfErr};
ghost use Rattle.tl_model.specs.Causes.{HasCauseOf, Rose};
ghost use Rattle.tl_model.specs.Devices.{SameShelf, in_repository};
ghost use Rattle.tl_model.specs.Seen.{Told};
ghost use Rattle.tl_repo.specs.Faults.{Gives, IsAbsent};
ghost use Rattle.tl_repo.specs.Files.{digest_in, digest_name, digest_stated, is_ended};
ghost use Rattle.tl_repo.specs.declared.error.RepoError.TheVariants.{ShelfFault as Fault};

use crate::error::RepoError;
use std::alloc::Global;
use tl_host::Shelf;
use tl_path::PathRef;

const DIGITS: usize = 128;

// A digest's digits and the byte behind them.
const FRONT: usize = 129;

// Whether the digits end here.
fn is_ended(text: &[u8]) -> bool
    ensures { result ≡ is_ended text.now }
{
    match text.first() {
        Some(byte) => matches!(*byte, b' ' | b'\t' | b'\n'),
        None => true,
    }
}

// The digest that a text states: 128 hexadecimal digits, with a blank, a line end or nothing behind them.
fn digest_in(text: &[u8]) -> Option<[u8; 64]>
    ensures { result ≡ digest_in text.now }
{
    let Some((digits, rest)) = text.split_at_checked(DIGITS) else {
        return None;
    };
    if !is_ended(rest) {
        return None;
    }
    let mut digest = [0; 64];
    match hex::decode_to_slice(digits, &mut digest) {
        Ok(()) => Some(digest),
        Err(_) => None,
    }
}

// The digest that the file beside a repository's database states.
pub(crate) fn read_digest<S: Shelf>(
    alloc: Global,
    shelf: &mut S,
    number: u32,
) -> Result<[u8; 64], RepoError>
    ensures digest { Told S.tells (Gives (λ d. d) result
        (digest_stated (in_repository (S.seen shelf.old) number digest_name))) }
    ensures same { SameShelf (S.seen shelf.old) (S.seen shelf.new) }
    ensures cause { HasCauseOf (λ error. error ≡ Fault) (S.seen shelf.old).faults (S.seen shelf.new).faults result }
    ensures absent { IfErr result (λ error. IsAbsent error → Rose (S.seen shelf.old).absences (S.seen shelf.new).absences) }
{
    let name = PathRef::known("tlpkg/texlive.tlpdb.sha512").to_path(alloc)?;
    if shelf.size(number, &name)?.is_none() {
        return Err(RepoError::Absent { name });
    }
    let mut front = [0u8; FRONT];
    let count = shelf.read(number, &name, 0, &mut front)?;
    digest_in(&front[..count]).ok_or(RepoError::BadDigestLine)
}
