//! The front of a text up to its first line end.
ghost use Rattle.std.specs.Prelude.{◌≡◌, ◌∷◌, ◌++◌, ◌≤◌, true, false, length};
ghost use Rattle.tl_model.specs.Lines.{IsLine};
ghost use Rattle.tl_shell.specs.Feeds.{IsCutAt};

use memchr::memchr;

// What stands before the first line end, and whether there is one.
pub(crate) fn front(text: &[u8]) -> (&[u8], bool)
    ensures { IsCutAt text.now result.0.now result.1 }
{
    match memchr(b'\n', text) {
        Some(end) => (&text[..end], true),
        None => (text, false),
    }
}
