//! Whether a glob stands for a text.
ghost use Rattle.std.specs.Prelude.{◌≡◌, ◌==◌};
ghost use Rattle.std.specs.List.{list_all, list_any};
ghost use Rattle.tl_glob.specs.Matches.{takes, ends, is_match};

// Whether a byte of a glob that is no `*` stands for a byte.
fn takes(part: u8, byte: u8) -> bool
    ensures { result ≡ takes part byte }
{
    part == b'?' || part == byte
}

fn has_stars_alone(glob: &[u8]) -> bool
    ensures { result ≡ list_all (λ b. b == 42) glob.now }
{
    glob.iter().all(|b| *b == b'*')
}

// Whether what stands behind a `*` stands for some end of a text. Where it fails behind a later `*`, what is behind that one is
// tried from the next byte on; what is before it is never tried again.
fn matches_an_end(glob: &[u8], text: &[u8]) -> bool
    ensures { result ≡ list_any (is_match glob.now) (ends text.now) }
{
    let mut first = glob;
    let mut from = text;
    let mut parts = glob;
    let mut left = text;
    while let Some((byte, rest)) = left.split_first() {
        match parts.split_first() {
            Some((part, behind)) if *part == b'*' => {
                first = behind;
                from = left;
                parts = behind;
            }
            Some((part, behind)) if takes(*part, *byte) => {
                parts = behind;
                left = rest;
            }
            _ => {
                from = &from[1..];
                left = from;
                parts = first;
            }
        }
    }
    has_stars_alone(parts)
}

// Whether a glob stands for a text.
pub(crate) fn matches(glob: &[u8], text: &[u8]) -> bool
    ensures { result ≡ is_match glob.now text.now }
{
    let mut parts = glob;
    let mut left = text;
    while let Some((part, behind)) = parts.split_first() {
        if *part == b'*' {
            return matches_an_end(behind, left);
        }
        match left.split_first() {
            Some((byte, rest)) if takes(*part, *byte) => {
                parts = behind;
                left = rest;
            }
            _ => return false,
        }
    }
    left.is_empty()
}
