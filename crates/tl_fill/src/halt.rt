//! Where a command halts that fetches.
ghost use Rattle.std.specs.Prelude.{◌≡◌, IfOk, IfErr};
ghost use Rattle.tl_fill.specs.Halts.{HaltsBy, IsHaltOf, RefusesBy};
ghost use Rattle.tl_fill.specs.Wanted.{wanted_of};
ghost use Rattle.tl_fill.specs.declared.halt.Halt.TheVariants.{Memory};

use crate::fetch::Fetch;
use std::alloc::{AllocError, Global};
use tl_command::Refusal;
use tl_fetch::{FetchError, container_name};

/// Why a command halts that fetches.
#[derive(Drop)]
pub(crate) enum Halt {
    /// It is refused.
    Refused(Refusal),
    /// A call of the repositories failed.
    Shelf,
    /// A call of the sink failed.
    Sink,
    /// Memory ran out.
    Memory,
}

impl From<AllocError> for Halt {
    ghost from_gives = { λ _ halt. halt ≡ Memory };

    fn from(_error: AllocError) -> Halt {
        Halt::Memory
    }
}

// The refusal that the error of a fetch is said as.
fn refusal_of(alloc: Global, fetch: &Fetch<'_>, error: FetchError) -> Result<Refusal, Halt>
    ensures refuses { IfOk result (RefusesBy (wanted_of fetch.now) error) }
    ensures halts { IfErr result (IsHaltOf error) }
{
    let tag = &fetch.repo.tag;
    match error {
        FetchError::ContainerFormat { format } => Ok(Refusal::ContainerFormat {
            repo: tag.clone()?,
            format,
        }),
        FetchError::Relocated { name } => Ok(Refusal::Relocated { name }),
        FetchError::NoContainer { name } => Ok(Refusal::NoContainer { name }),
        FetchError::TooLarge { what, limit } => Ok(Refusal::TooLarge { what, limit }),
        FetchError::Absent { name } => Ok(Refusal::Absent {
            repo: tag.clone()?,
            name,
        }),
        FetchError::SizeDiffers { name, want, got } => Ok(Refusal::SizeDiffers {
            repo: tag.clone()?,
            name,
            want,
            got,
        }),
        FetchError::DigestDiffers { name, want, got } => Ok(Refusal::DigestDiffers {
            repo: tag.clone()?,
            name,
            want,
            got,
        }),
        FetchError::BadFrame { at } => Ok(Refusal::BadFrame {
            name: container_name(alloc, &fetch.repo.db, fetch.entry, fetch.part)?,
            at,
        }),
        FetchError::FrameEntry { name } => Ok(Refusal::FrameEntry { name }),
        FetchError::ShelfFault => Err(Halt::Shelf),
        FetchError::SinkFault => Err(Halt::Sink),
        FetchError::NoMemory => Err(Halt::Memory),
    }
}

/// Where a command halts at the error of a fetch.
pub(crate) fn halt_of(alloc: Global, fetch: &Fetch<'_>, error: FetchError) -> Halt
    ensures { HaltsBy (wanted_of fetch.now) error result }
{
    match refusal_of(alloc, fetch, error) {
        Ok(refusal) => Halt::Refused(refusal),
        Err(halt) => halt,
    }
}
