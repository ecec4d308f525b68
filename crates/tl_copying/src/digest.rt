//! The digest that is stated beside a database.
ghost use Rattle.std.specs.Prelude.{◌≡◌};
ghost use Rattle.tl_repo.specs.Files.{digest_in, is_ended};

const DIGITS: usize = 128;

// Whether the digits end here.
fn is_ended(text: &[u8]) -> bool
    ensures { result ≡ is_ended text.now }
{
    match text.first() {
        Some(byte) => matches!(*byte, b' ' | b'\t' | b'\n'),
        None => true,
    }
}

/// The digest that a text states: 128 hexadecimal digits, with a blank, a line end or nothing behind them.
pub(crate) fn digest_in(text: &[u8]) -> Option<[u8; 64]>
    ensures { result ≡ digest_in text.now }
{
    let Some((digits, rest)) = text.split_at_checked(DIGITS) else {
        return None;
    };
    if !is_ended(rest) {
        return None;
    }
    let mut digest = [0; 64];
    match hex::decode_to_slice(digits, &mut digest) {
        Ok(()) => Some(digest),
        Err(_) => None,
    }
}
