//! Words that one space parts.
ghost use Rattle.std.specs.Prelude.{◌≡◌, ◌≤◌, length, option_copied};
ghost use Rattle.tl_marks.specs.Form.{front_len, before_space, behind_space, is_spaced};

fn front_len(text: &[u8]) -> usize
    ensures front { result ≡ front_len text.now }
    ensures within { result ≤ length text.now }
{
    text.iter().take_while(|byte| **byte != b' ').count()
}

/// What stands before the first space of a text.
pub(crate) fn before_space(text: &[u8]) -> &[u8]
    ensures { result.now ≡ before_space text.now }
{
    &text[..front_len(text)]
}

/// What stands behind the first space of a text; `None` where it has none.
pub(crate) fn behind_space(text: &[u8]) -> Option<&[u8]>
    ensures { option_copied result ≡ behind_space text.now }
{
    let at = front_len(text);
    if at < text.len() {
        Some(&text[at + 1..])
    } else {
        None
    }
}

/// Whether a text has words that one space parts, and no tab.
pub(crate) fn is_spaced(text: &[u8]) -> bool
    ensures { result ≡ is_spaced text.now }
{
    let mut opens = true;
    for b in text {
        if *b == b'\t' || opens && *b == b' ' {
            return false;
        }
        opens = *b == b' ';
    }
    !opens
}
