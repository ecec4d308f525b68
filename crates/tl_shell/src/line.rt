//! What a line of a session asks for.
ghost use Rattle.std.specs.Prelude.{◌≡◌, ◌<◌, ◌^◌, length, IfOk, IfErr, OnOk};
ghost use Rattle.tl_model.specs.Words.{IsQuoted};
ghost use Rattle.tl_action.specs.Texts.{texts};
ghost use Rattle.tl_shell.specs.Asked.{Asks, IsUnread, is_leaving, line_words};

use crate::error::SessionError;
use std::alloc::Global;
use tl_action::ActionName;
use tl_words::{Command, read_shell_words, split_line};

/// What a line of a session asks for.
#[derive(Drop)]
pub enum ShellLine {
    /// To carry a command out.
    Run(Command),
    /// Nothing: it has no word.
    Nothing,
    /// To leave the session.
    Leave,
}

// Whether words ask to leave the session: their only one is such a word.
fn is_leaving(words: &[Vec<u8>]) -> bool
    ensures { result ≡ is_leaving (texts words.now) }
{
    match words {
        [word] => matches!(word.as_slice(), b"quit" | b"end" | b"bye" | b"byebye"),
        _ => false,
    }
}

/// What a line asks for where some actions are on: `Nothing` exactly where it has no word, `Leave` exactly where its only word is `quit`,
/// `end`, `bye` or `byebye`, else the command that its words ask for. `BadQuote` where the double quote at that place has no partner;
/// `BadWords` with the words' first fault. The line has fewer than 2^32 bytes.
pub fn session_line(
    alloc: Global,
    on: &[ActionName],
    line: &[u8],
) -> Result<ShellLine, SessionError>
    requires { length line.now < 2 ^ 32 }
    ensures quoted { OnOk result (IsQuoted line.now) }
    ensures asks { IfOk result (Asks on.now (line_words line.now)) }
    ensures fault { IfErr result (IsUnread on.now line.now) }
{
    let words = split_line(alloc, line)?;
    if words.is_empty() {
        return Ok(ShellLine::Nothing);
    }
    if is_leaving(&words) {
        return Ok(ShellLine::Leave);
    }
    let command = read_shell_words(alloc, on, &words)?;
    Ok(ShellLine::Run(command))
}
