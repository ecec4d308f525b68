//! A folder behind its name.
ghost use Rattle.std.specs.Prelude.{◌≡◌, ◌++◌, ◌∷◌, refl, nat_eq, Some, IfOk};
ghost use Rattle.std.specs.Ordering.{nat_cmp};
ghost use Rattle.std.specs.Cmp.{partial_equiv_from_equiv};
ghost use Rattle.std.specs.Cmp.Lexicographic.{pointwise, slice_cmp, nat_list_eq_equiv, nat_list_cmp_total, texts_ties, texts_po};

use std::alloc::{AllocError, Global};
use std::cmp::Ordering;
use std::marker::Model;

// A name, a '/' and a folder's path. The order is that of the bytes.
#[derive(Drop)]
pub(crate) struct FolderKey {
    text: Vec<u8>,
}

impl Model for FolderKey {
    ghost use Rattle.std.specs.Prelude.{List, ℕ};

    ghost Value = { List ℕ };

    ghost view = { λ a. a.text.items };
}

impl FolderKey {
    pub(crate) fn new(alloc: Global, name: &[u8], folder: &[u8]) -> Result<FolderKey, AllocError>
        ensures { IfOk result (λ key. key ≡ name.now ++ 47 ∷ folder.now) }
    {
        let mut text = Vec::from_slice(alloc, name)?;
        text.push(b'/')?;
        text.extend_from_slice(folder)?;
        Ok(FolderKey { text })
    }

    pub(crate) fn bytes(&self) -> &[u8]
        ensures { result.now ≡ self.now }
    {
        self.text.as_slice()
    }
}

impl PartialEq for FolderKey {
    ghost eq = { pointwise nat_eq };

    ghost laws = { partial_equiv_from_equiv nat_list_eq_equiv };

    fn eq(&self, other: &FolderKey) -> bool {
        self.bytes() == other.bytes()
    }
}

impl Eq for FolderKey {
    ghost laws = { nat_list_eq_equiv };
}

impl PartialOrd for FolderKey {
    ghost partial_cmp = { λ x y. Some (slice_cmp nat_cmp x y) };

    ghost laws = { texts_po };

    fn partial_cmp(&self, other: &FolderKey) -> Option<Ordering> {
        Some(self.cmp(other))
    }
}

impl Ord for FolderKey {
    ghost cmp = { slice_cmp nat_cmp };

    ghost total = { nat_list_cmp_total };

    ghost matches_partial_cmp = { λ x y. refl };

    ghost matches_eq = { texts_ties };

    fn cmp(&self, other: &FolderKey) -> Ordering {
        self.bytes().cmp(other.bytes())
    }
}
