//! Places in lists that rise by a key.
ghost use Rattle.std.specs.Prelude.{◌≡◌, ℕ, List, MatchOption, true, ◌<◌, ◌≤◌};
ghost use Rattle.tl_entry.specs.Rising.{is_rising, has_key, IsPlace};

use std::cmp::Ordering;

/// What has a text as its key.
pub trait Keyed {
    ghost key: { Self → List ℕ };

    fn key(&self) -> &[u8]
        ensures { result.now ≡ key self.now };
}

// The last element comes first, since most lists come in order.
pub(crate) fn next_try(low: usize, high: usize, len: usize) -> usize
    requires { low < high }
    ensures { (low ≤ result) × (result < high) }
{
    if high == len {
        high - 1
    } else {
        low + (high - low) / 2
    }
}

/// Where an element with this key goes in among elements that rise by their keys; `None` where one has this key.
pub fn place_for<T: Keyed>(items: &[T], wanted: &[u8]) -> Option<usize>
    requires { is_rising T.key items.now ≡ true }
    ensures { MatchOption result (has_key T.key wanted.now items.now ≡ true) (λ at. IsPlace T.key wanted.now items.now at) }
{
    let mut low = 0;
    let mut high = items.len();
    while low < high {
        let middle = next_try(low, high, items.len());
        match items[middle].key().cmp(wanted) {
            Ordering::Less => low = middle + 1,
            Ordering::Equal => return None,
            Ordering::Greater => high = middle,
        }
    }
    Some(low)
}
