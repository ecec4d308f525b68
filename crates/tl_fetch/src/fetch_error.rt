//! Why a container isn't fetched.
ghost use Rattle.std.specs.Prelude.{◌≡◌};
ghost use Rattle.tl_fetch.specs.declared.fetch_error.FetchError.TheVariants.{NoMemory, ShelfFault};

use std::alloc::AllocError;
use tl_host::Failed;
use tl_kind::What;
use tl_path::{Name, Path};
use tl_text::Text;

/// Why a container isn't fetched, in the order in which it is looked for.
#[derive(Debug, Drop)]
pub enum FetchError {
    /// The repository's containers have another format; an empty one where it names none.
    ContainerFormat {
        format: Text,
    },
    /// The package is to be placed elsewhere.
    Relocated {
        name: Name,
    },
    /// The package has no size or no digest of the part's container.
    NoContainer {
        name: Name,
    },
    /// The container passes this limit.
    TooLarge {
        what: What,
        limit: u64,
    },
    /// The repository has no such container.
    Absent {
        name: Path,
    },
    /// The container has another size than its entry states.
    SizeDiffers {
        name: Path,
        want: u64,
        got: u64,
    },
    /// The container has another SHA-512 than its entry states.
    DigestDiffers {
        name: Path,
        want: [u8; 64],
        got: [u8; 64],
    },
    /// The container is no frame, from this byte on.
    BadFrame {
        at: u64,
    },
    /// The frame holds another entry than the package's, or other files than the part's.
    FrameEntry {
        name: Name,
    },
    /// A call of the repositories failed.
    ShelfFault,
    /// A call of the sink failed.
    SinkFault,
    /// Memory ran out.
    NoMemory,
}

impl From<Failed> for FetchError {
    ghost from_gives = { λ _ e. e ≡ ShelfFault };

    fn from(_failed: Failed) -> FetchError {
        FetchError::ShelfFault
    }
}

impl From<AllocError> for FetchError {
    ghost from_gives = { λ _ e. e ≡ NoMemory };

    fn from(_error: AllocError) -> FetchError {
        FetchError::NoMemory
    }
}
