//! What an index says of a path.
ghost use Rattle.std.specs.Prelude.{◌≡◌};

use std::alloc::AllocError;
use tl_entry::Keyed;
use tl_path::Path;

/// What is known of a path: its size, the mark of its last change, and whether it is there or gone.
#[derive(Clone, Copy, Debug, PartialEq, Eq)]
pub struct Leaf {
    pub size: u64,
    pub mark: u32,
    pub lives: bool,
}

/// A path with its leaf.
#[derive(Drop)]
pub struct Hit {
    pub path: Path,
    pub leaf: Leaf,
}

impl Keyed for Hit {
    ghost key = { λ h. h.path };

    fn key(&self) -> &[u8] {
        self.path.bytes()
    }
}

impl Clone for Hit {
    ghost is_clone = { λ s t. t ≡ s };

    fn clone(&self) -> Result<Hit, AllocError> {
        Ok(Hit {
            path: self.path.clone()?,
            leaf: self.leaf,
        })
    }
}
