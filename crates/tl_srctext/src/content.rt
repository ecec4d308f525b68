//! What of a line counts, and the parts before and behind its first blanks.
ghost use Rattle.std.specs.Prelude.{◌≡◌, ◌≤◌, true, not, length};
ghost use Rattle.std.specs.List.{prefix_len, suffix_len};
ghost use Rattle.tl_model.specs.Words as the_words;
ghost use Rattle.tl_srctext.specs.Content.{less_comment, less_blanks_before, less_blanks_behind, line_content, word_len, before_blank, behind_blank};

// Whether a byte is a space or a tab.
pub(crate) fn is_blank(byte: u8) -> bool
    ensures { result ≡ the_words.is_blank byte }
{
    byte == b' ' || byte == b'\t'
}

// What stands before a line's comment, which begins at a `#` at the front or behind a blank.
fn less_comment(line: &[u8]) -> &[u8]
    ensures { result.now ≡ less_comment true line.now }
{
    let mut opens = true;
    for (i, byte) in line.iter().enumerate() {
        if opens && *byte == b'#' {
            return &line[..i];
        }
        opens = is_blank(*byte);
    }
    line
}

// How many blanks stand at the front.
fn blanks_before(text: &[u8]) -> usize
    ensures count { result ≡ prefix_len the_words.is_blank text.now }
    ensures within { result ≤ length text.now }
{
    text.iter().take_while(|byte| is_blank(**byte)).count()
}

// How many blanks stand at the end.
fn blanks_behind(text: &[u8]) -> usize
    ensures count { result ≡ suffix_len the_words.is_blank text.now }
    ensures within { result ≤ length text.now }
{
    text.iter()
        .rev()
        .take_while(|byte| is_blank(**byte))
        .count()
}

// A text without the blanks at its front.
fn less_blanks_before(text: &[u8]) -> &[u8]
    ensures { result.now ≡ less_blanks_before text.now }
{
    &text[blanks_before(text)..]
}

// A text without the blanks at its end.
fn less_blanks_behind(text: &[u8]) -> &[u8]
    ensures { result.now ≡ less_blanks_behind text.now }
{
    &text[..text.len() - blanks_behind(text)]
}

// What of a line counts.
pub(crate) fn content(line: &[u8]) -> &[u8]
    ensures { result.now ≡ line_content line.now }
{
    less_blanks_behind(less_blanks_before(less_comment(line)))
}

// How many bytes stand before the first blank.
fn word_len(text: &[u8]) -> usize
    ensures count { result ≡ word_len text.now }
    ensures within { result ≤ length text.now }
{
    text.iter().take_while(|byte| !is_blank(**byte)).count()
}

// What stands before the first blank, and what stands behind the first blanks.
pub(crate) fn cut_word(text: &[u8]) -> (&[u8], &[u8])
    ensures before { result.0.now ≡ before_blank text.now }
    ensures behind { result.1.now ≡ behind_blank text.now }
{
    let len = word_len(text);
    (&text[..len], less_blanks_before(&text[len..]))
}
