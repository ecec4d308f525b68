//! A text cut at its first line end.
ghost use Rattle.std.specs.Prelude.{◌≡◌, ◌∷◌, ◌<◌, length};
ghost use Rattle.tl_model.specs.Lines.{lines};
ghost use Rattle.tl_lsr.specs.Items.{dir_of, name_of};

use memchr::memchr;

// What stands before the first line end, and what stands behind it; the whole text and nothing where it has none.
pub(crate) fn cut_line(text: &[u8]) -> (&[u8], &[u8])
    ensures front { result.0.now ≡ dir_of text.now }
    ensures behind { result.1.now ≡ name_of text.now }
    ensures lines { 0 < length text.now → lines text.now ≡ result.0.now ∷ lines result.1.now }
    ensures shorter { 0 < length text.now → length result.1.now < length text.now }
{
    match memchr(b'\n', text) {
        Some(end) => (&text[..end], &text[end + 1..]),
        None => (text, &[]),
    }
}
