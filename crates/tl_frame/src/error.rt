//! Why bytes are no frame, or not those that were stated.
use std::alloc::{AllocError, AllocFailed};
use thiserror::Error;

/// Bytes that aren't read as a frame.
#[derive(Clone, Copy, Debug, PartialEq, Eq, Error)]
pub enum FrameError {
    /// They are no frame.
    #[error("no frame, from byte {at} on")]
    BadFrame {
        /// The place of the first byte of the first field that is cut or wrong.
        at: u64,
    },
    /// No memory for what they hold.
    #[error("no memory")]
    NoMemory,
}

impl From<AllocError> for FrameError {
    ghost use Rattle.std.specs.Prelude.{◌≡◌};
    ghost use Rattle.tl_frame.specs.declared.error.FrameError.TheVariants.{NoMemory};

    ghost from_gives = { λ _ e. e ≡ NoMemory };

    fn from(_error: AllocError) -> FrameError {
        FrameError::NoMemory
    }
}

/// Bytes that aren't those that were stated.
#[derive(Clone, Copy, Debug, PartialEq, Eq, Error)]
pub enum CheckError {
    /// They are another number of bytes.
    #[error("{got} bytes in place of {want}")]
    SizeDiffers {
        /// The number that was stated.
        want: u64,
        /// Their number.
        got: u64,
    },
    /// They have another digest.
    #[error("another digest")]
    DigestDiffers {
        /// The digest that was stated.
        want: [u8; 64],
        /// Their SHA-512.
        got: [u8; 64],
    },
}
