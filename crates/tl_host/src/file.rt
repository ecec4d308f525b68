ghost use Rattle.std.specs.Prelude.{◌≡◌, ℕ, ◌<◌, ◌≤◌, length, IfOk, IsErrOf};
ghost use Rattle.std.specs.Option.{option_map};
ghost use Rattle.tl_model.specs.Volume.{at};
ghost use Rattle.tl_model.specs.Seen.{Told, Quiet};
ghost use Rattle.tl_model.specs.Causes.{Rose};
ghost use Rattle.tl_host.specs.Reading.{held_at};
ghost use Rattle.tl_host.specs.declared.file.FileError.TheVariants.{TooLarge, HostFault};

use crate::host::{Failed, Host};
use std::alloc::{AllocError, Global};
use tl_path::PathRef;

const PIECE: usize = 65536;

/// Why a whole file wasn't read.
#[derive(Clone, Copy, Debug, PartialEq, Eq)]
pub enum FileError {
    /// The file has more bytes than the limit.
    TooLarge,
    /// A call of the host failed.
    HostFault,
    /// Memory ran out.
    NoMemory,
}

impl From<Failed> for FileError {
    ghost use Rattle.std.specs.Prelude.{◌≡◌};
    ghost use Rattle.tl_host.specs.declared.file.FileError.TheVariants.{HostFault};

    ghost from_gives = { λ _ e. e ≡ HostFault };

    fn from(_failed: Failed) -> FileError {
        FileError::HostFault
    }
}

impl From<AllocError> for FileError {
    ghost use Rattle.std.specs.Prelude.{◌≡◌};
    ghost use Rattle.tl_host.specs.declared.file.FileError.TheVariants.{NoMemory};

    ghost from_gives = { λ _ e. e ≡ NoMemory };

    fn from(_error: AllocError) -> FileError {
        FileError::NoMemory
    }
}

/// Reads a whole file, in pieces of 65,536 bytes; `None` where the name is absent. `TooLarge` exactly where it has more
/// than `limit` bytes. A read that gives no bytes before the file's length ends the file there. Changes nothing.
pub fn read_file<H: Host>(
    alloc: Global,
    host: &mut H,
    name: PathRef<'_>,
    limit: u64,
) -> Result<Option<Vec<u8>>, FileError>
    ensures bytes { Told H.tells (IfOk result (λ found.
        option_map (λ v. v.items) found ≡ at (H.seen host.old).present.held name.entry)) }
    ensures within { Told H.tells (IfOk result (λ found.
        length (held_at (H.seen host.old) name.entry) ≤ limit)) }
    ensures large { Told H.tells (IsErrOf result TooLarge →
        limit < length (held_at (H.seen host.old) name.entry)) }
    ensures same { Told H.tells (Quiet (H.seen host.old) (H.seen host.new)) }
    ensures later { (H.seen host.old).faults ≤ (H.seen host.new).faults }
    ensures cause { IsErrOf result HostFault → Rose (H.seen host.old).faults (H.seen host.new).faults }
{
    match host.size(name.again())? {
        None => Ok(None),
        Some(size) if size > limit => Err(FileError::TooLarge),
        Some(size) => Ok(Some(read_bytes(alloc, host, name, size)?)),
    }
}

// The first bytes of a file, so many as this.
fn read_bytes<H: Host>(
    alloc: Global,
    host: &mut H,
    name: PathRef<'_>,
    size: u64,
) -> Result<Vec<u8>, FileError>
    requires { Told H.tells (size ≡ length (held_at (H.seen host.old) name)) }
    ensures bytes { Told H.tells (IfOk result (λ bytes. bytes.items ≡ held_at (H.seen host.old) name.entry)) }
    ensures large { IsErrOf result TooLarge → ⊥ }
    ensures same { Told H.tells (Quiet (H.seen host.old) (H.seen host.new)) }
    ensures later { (H.seen host.old).faults ≤ (H.seen host.new).faults }
    ensures cause { IsErrOf result HostFault → Rose (H.seen host.old).faults (H.seen host.new).faults }
{
    let mut bytes = Vec::new(alloc);
    let mut piece = [0u8; PIECE];
    while (bytes.len() as u64) < size {
        let count = host.read(name.again(), bytes.len() as u64, &mut piece)?;
        if count == 0 {
            break;
        }
        bytes.extend_from_slice(&piece[..count])?;
    }
    Ok(bytes)
}
