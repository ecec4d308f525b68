// What is known of containers.
ghost use Rattle.std.specs.Prelude.{◌≡◌, ◌&&◌, ◌++◌, ◌∷◌, [], fold, true, IfSome};
ghost use Rattle.tl_object.specs.Plain.{is_key};
ghost use Rattle.tl_object.specs.Formed.{IsFormedSize, IsFormedDigest, IsFormedBox};
ghost use Rattle.tl_object.specs.Writing.{size_line, digest_line, container_lines};
ghost use Rattle.tl_written.specs.Stands.{Stands};
ghost use Rattle.tl_written.specs.Found.{Finds, is_apart};
ghost use Rattle.tl_written.specs.Pieces.{is_lower_digit, is_digest_text};

use crate::lines::{keyed, number_of};

fn size_behind<'a>(text: &'a [u8], key: &[u8]) -> Option<&'a [u8]>
    requires { is_key key.now ≡ true }
    ensures stands { IfSome result (λ rest. Stands (size_line key.now) IsFormedSize text.now rest.now) }
    ensures finds { Finds (size_line key.now) IsFormedSize ((key.now ++ 32 ∷ []) ∷ []) text.now result }
{
    let Some((digits, rest)) = keyed(text, key) else {
        return Some(text);
    };
    let _size = number_of(digits)?;
    Some(rest)
}

fn is_lower_digit(byte: u8) -> bool
    ensures { result ≡ is_lower_digit byte }
{
    matches!(byte, b'0'..=b'9' | b'a'..=b'f')
}

// This form, with no early exit, takes several bytes at a time.
fn has_lower_digits(bytes: &[u8]) -> bool
    ensures { result ≡ fold (λ all byte. all && is_lower_digit byte) true bytes.now }
{
    bytes
        .iter()
        .fold(true, |all, byte| all & is_lower_digit(*byte))
}

fn is_digest_text(bytes: &[u8]) -> bool
    ensures { result ≡ is_digest_text bytes.now }
{
    bytes.len() == 128 && has_lower_digits(bytes)
}

fn digest_behind<'a>(text: &'a [u8], key: &[u8]) -> Option<&'a [u8]>
    requires { is_key key.now ≡ true }
    ensures stands { IfSome result (λ rest. Stands (digest_line key.now) IsFormedDigest text.now rest.now) }
    ensures finds { Finds (digest_line key.now) IsFormedDigest ((key.now ++ 32 ∷ []) ∷ []) text.now result }
{
    let Some((digits, rest)) = keyed(text, key) else {
        return Some(text);
    };
    if is_digest_text(digits) {
        Some(rest)
    } else {
        None
    }
}

/// What stands behind the size and the SHA-512 of a container, each of which may be absent.
pub(crate) fn box_behind<'a>(text: &'a [u8], size_key: &[u8], digest_key: &[u8]) -> Option<&'a [u8]>
    requires size { is_key size_key.now ≡ true }
    requires digest { is_key digest_key.now ≡ true }
    requires apart { is_apart digest_key.now size_key.now ≡ true }
    ensures stands { IfSome result (λ rest. Stands (container_lines size_key.now digest_key.now) IsFormedBox text.now rest.now) }
    ensures finds { Finds (container_lines size_key.now digest_key.now) IsFormedBox ((size_key.now ++ 32 ∷ []) ∷ (digest_key.now ++ 32 ∷ []) ∷ []) text.now result }
{
    let rest = size_behind(text, size_key)?;
    digest_behind(rest, digest_key)
}
