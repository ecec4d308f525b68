//! Where the paths that begin with a text stand among entries.
ghost use Rattle.std.specs.Prelude.{◌≡◌, ◌≤◌, ◌<◌, true, false, length};
ghost use Rattle.tl_entry.specs.Rising.{is_rising, comes_before};
ghost use Rattle.tl_index.specs.Entries.{path_of};
ghost use Rattle.tl_index.specs.Fronts.{begins, plain_front, IsStretch, IsFirstFrom, IsFrontPart};

use crate::hit::Hit;

pub(crate) fn begins(text: &[u8], front: &[u8]) -> bool
    ensures { result ≡ begins front.now text.now }
{
    text.starts_with(front)
}

pub(crate) fn comes_before(a: &[u8], b: &[u8]) -> bool
    ensures { result ≡ comes_before a.now b.now }
{
    a.cmp(b).is_lt()
}

// How many paths come before a text.
pub(crate) fn first_from(hits: &[Hit], text: &[u8]) -> usize
    requires { is_rising path_of hits.now ≡ true }
    ensures { IsFirstFrom text.now hits.now result }
{
    hits.partition_point(|hit| comes_before(hit.path.bytes(), text))
}

// How many paths from the first one on begin with a text, none of which comes before it.
fn count_in_front(hits: &[Hit], front: &[u8]) -> usize
    requires rising { is_rising path_of hits.now ≡ true }
    requires from { IsFirstFrom front.now hits.now 0 }
    ensures { IsFrontPart front.now hits.now result }
{
    hits.partition_point(|hit| begins(hit.path.bytes(), front))
}

// The first place of a path that begins with a text, and the first behind them.
pub(crate) fn stretch(hits: &[Hit], front: &[u8]) -> (usize, usize)
    requires { is_rising path_of hits.now ≡ true }
    ensures { IsStretch front.now hits.now result.0 result.1 }
{
    let low = first_from(hits, front);
    let (_, behind) = hits.split_at(low);
    (low, low + count_in_front(behind, front))
}

// What stands in a glob before its first byte that stands for others.
pub(crate) fn plain_front(glob: &[u8]) -> &[u8]
    ensures { result.now ≡ plain_front glob.now }
{
    for (at, byte) in glob.iter().enumerate() {
        if *byte == b'*' || *byte == b'?' {
            return &glob[..at];
        }
    }
    glob
}
