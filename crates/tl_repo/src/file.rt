//! Files of a repository, read whole.
ghost use Rattle.std.specs.Prelude.{◌≡◌, ◌≤◌, None, length, vec_len, IfOk, IfErr};
ghost use Rattle.tl_model.specs.Causes.{HasCauseOf, Rose};
ghost use Rattle.tl_model.specs.Devices.{SameShelf, in_repository};
ghost use Rattle.tl_model.specs.Seen.{Told};
ghost use Rattle.tl_kind.specs.Quantities.{limit_of};
ghost use Rattle.tl_repo.specs.Faults.{fault_of, Gives, IsAbsent};
ghost use Rattle.tl_repo.specs.Files.{bytes_within, held_by};
ghost use Rattle.tl_repo.specs.declared.error.RepoError.TheVariants.{ShelfFault as Fault};

use crate::error::RepoError;
use std::alloc::Global;
use tl_host::Shelf;
use tl_kind::What;
use tl_path::Path;

const PIECE: usize = 65536;

// The bytes of a file of a repository that has no more of them than the quantity may have, read in pieces of 65,536 bytes; a file that
// grows past that while it is read is refused too.
pub(crate) fn read_file<S: Shelf>(
    alloc: Global,
    shelf: &mut S,
    number: u32,
    name: Path,
    what: What,
) -> Result<Vec<u8>, RepoError>
    ensures bytes { Told S.tells (Gives (λ v. v.items) result
        (bytes_within what name (in_repository (S.seen shelf.old) number name))) }
    ensures within { IfOk result (λ bytes. vec_len bytes ≤ limit_of what) }
    ensures same { SameShelf (S.seen shelf.old) (S.seen shelf.new) }
    ensures cause { HasCauseOf (λ error. error ≡ Fault) (S.seen shelf.old).faults (S.seen shelf.new).faults result }
    ensures absent { IfErr result (λ error. IsAbsent error → Rose (S.seen shelf.old).absences (S.seen shelf.new).absences) }
{
    let limit = what.limit();
    let Some(size) = shelf.size(number, &name)? else {
        return Err(RepoError::Absent { name });
    };
    if size > limit {
        return Err(RepoError::TooLarge { what, limit });
    }
    let bytes = read_bytes(alloc, shelf, number, &name, size)?;
    if bytes.len() as u64 > limit {
        return Err(RepoError::TooLarge { what, limit });
    }
    Ok(bytes)
}

// The first bytes of a file, so many as this.
fn read_bytes<S: Shelf>(
    alloc: Global,
    shelf: &mut S,
    number: u32,
    name: &Path,
    size: u64,
) -> Result<Vec<u8>, RepoError>
    requires { Told S.tells (size ≡ length (held_by (S.seen shelf.old) number name.now)) }
    ensures bytes { Told S.tells (IfOk result (λ bytes. bytes.items ≡ held_by (S.seen shelf.old) number name.now)) }
    ensures device { IfErr result (λ error. fault_of error ≡ None) }
    ensures same { SameShelf (S.seen shelf.old) (S.seen shelf.new) }
    ensures cause { HasCauseOf (λ error. error ≡ Fault) (S.seen shelf.old).faults (S.seen shelf.new).faults result }
{
    let mut bytes = Vec::new(alloc);
    let mut piece = [0u8; PIECE];
    while (bytes.len() as u64) < size {
        let count = shelf.read(number, name, bytes.len() as u64, &mut piece)?;
        if count == 0 {
            break;
        }
        bytes.extend_from_slice(&piece[..count])?;
    }
    Ok(bytes)
}
