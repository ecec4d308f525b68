//! A claim, and two of one path.
use tl_path::{Name, Path};

/// A path that a section of an entry has, the number of that entry among all, and its name. The order is by path, then by number.
#[derive(Clone, PartialEq, Eq, PartialOrd, Ord, Drop)]
pub struct Claim {
    pub path: Path,
    pub number: usize,
    pub by: Name,
}

/// A path that two sections have, and the names of the entries of the first two of these.
#[derive(Drop)]
pub struct Clash {
    pub path: Path,
    pub first: Name,
    pub second: Name,
}
