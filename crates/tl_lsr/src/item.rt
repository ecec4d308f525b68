//! A name that stands directly in a directory.
ghost use Rattle.std.specs.Prelude.{◌≡◌, refl, nat_eq, Some, IfOk, OnOk, ◌==◌};
ghost use Rattle.std.specs.Ordering.{nat_cmp};
ghost use Rattle.std.specs.Cmp.{partial_equiv_from_equiv};
ghost use Rattle.std.specs.Cmp.Lexicographic.{pointwise, slice_cmp, nat_list_eq_equiv, nat_list_cmp_total, texts_ties, texts_po};
ghost use Rattle.tl_lsr.specs.Items.{dir_of, name_of, item};

use crate::cut::cut_line;
use std::alloc::{AllocError, Global};
use std::cmp::Ordering;
use std::marker::Model;

// A directory, a line end, and a name in it. The order is that of the bytes: of the directories' paths, then of the names.
#[derive(Drop)]
pub(crate) struct Item {
    text: Vec<u8>,
}

impl Model for Item {
    ghost use Rattle.std.specs.Prelude.{List, ℕ};

    ghost Value = { List ℕ };

    ghost view = { λ a. a.text.items };
}

impl Item {
    pub(crate) fn new(alloc: Global, dir: &[u8], name: &[u8]) -> Result<Item, AllocError>
        ensures { IfOk result (λ made. made ≡ item dir.now name.now) }
    {
        let mut text = Vec::from_slice(alloc, dir)?;
        text.push(b'\n')?;
        text.extend_from_slice(name)?;
        Ok(Item { text })
    }

    // The directory and the name.
    pub(crate) fn parts(&self) -> (&[u8], &[u8])
        ensures dir { result.0.now ≡ dir_of self.now }
        ensures name { result.1.now ≡ name_of self.now }
    {
        cut_line(self.text.as_slice())
    }
}

impl PartialEq for Item {
    ghost eq = { pointwise nat_eq };

    ghost laws = { partial_equiv_from_equiv nat_list_eq_equiv };

    fn eq(&self, other: &Item) -> bool {
        self.text.as_slice() == other.text.as_slice()
    }
}

impl Eq for Item {
    ghost laws = { nat_list_eq_equiv };
}

impl PartialOrd for Item {
    ghost partial_cmp = { λ x y. Some (slice_cmp nat_cmp x y) };

    ghost laws = { texts_po };

    fn partial_cmp(&self, other: &Item) -> Option<Ordering> {
        Some(self.cmp(other))
    }
}

impl Ord for Item {
    ghost cmp = { slice_cmp nat_cmp };

    ghost total = { nat_list_cmp_total };

    ghost matches_partial_cmp = { λ x y. refl };

    ghost matches_eq = { texts_ties };

    fn cmp(&self, other: &Item) -> Ordering {
        self.text.as_slice().cmp(other.text.as_slice())
    }
}
