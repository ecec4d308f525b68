// What a text that is read may fail by.
use crate::fault::PathKind;
use std::alloc::AllocError;
use thiserror::Error;

/// A text isn't a path.
#[derive(Clone, Copy, Debug, PartialEq, Eq, Error)]
pub enum PathError {
    /// The text's first fault: the byte it stands at, from 0, and its kind.
    #[error("no path: {kind:?} at byte {at}")]
    BadPath {
        /// The place, in bytes from the text's start.
        at: u32,
        /// What fails there.
        kind: PathKind,
    },
    /// No memory for the path.
    #[error("no memory")]
    NoMemory,
}

/// A text isn't a name.
#[derive(Clone, Copy, Debug, PartialEq, Eq, Error)]
pub enum NameError {
    /// The text is no name.
    #[error("no name, from byte {at} on")]
    BadName {
        /// The length of the longest front of the text that some name begins with.
        at: u32,
    },
    /// No memory for the name.
    #[error("no memory")]
    NoMemory,
}

/// A text isn't a tag.
#[derive(Clone, Copy, Debug, PartialEq, Eq, Error)]
pub enum TagError {
    /// The text is no tag.
    #[error("no tag")]
    NotTag,
    /// No memory for the tag.
    #[error("no memory")]
    NoMemory,
}

/// A text lists no platforms.
#[derive(Clone, Copy, Debug, PartialEq, Eq, Error)]
pub enum PlatformsError {
    /// The text's first word that is no platform, repeats one before it or is the 33rd.
    #[error("no platforms: the word at byte {at}")]
    BadPlatforms {
        /// The place of the word's first byte, in bytes from the text's start.
        at: u32,
    },
    /// No memory for the platforms.
    #[error("no memory")]
    NoMemory,
}

impl From<AllocError> for PlatformsError {
    ghost use Rattle.std.specs.Prelude.{◌≡◌};
    ghost use Rattle.tl_path.specs.declared.error.PlatformsError.TheVariants.{NoMemory};

    ghost from_gives = { λ _ e. e ≡ NoMemory };

    fn from(_error: AllocError) -> PlatformsError {
        PlatformsError::NoMemory
    }
}
