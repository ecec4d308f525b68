//! The options that are the program's own.
use crate::{DONE, print, want_of_memory};
use tl_action::ActionName;
use tl_tool::actions::BUILT;
use tl_words::usage;

const VERSION: &[u8] = b"texlive 0.1.0\n";

/// Answers the words that ask how the program, or one of its actions, is called, or for its version, and gives the status; `None` for
/// all others.
pub fn answer<R: Print + Eprint + AllocGlobal>(rt: &R, words: &[Vec<u8>]) -> Option<u8> {
    let first = words.first()?;
    match words.len() {
        1 if asks_for_help(first) => Some(help(rt, &BUILT)),
        1 if asks_for_version(first) => Some(print(rt, VERSION, DONE)),
        2 if asks_for_help(first) => help_of(rt, words),
        _ => None,
    }
}

// Explains the action of the second word.
fn help_of<R: Print + Eprint + AllocGlobal>(rt: &R, words: &[Vec<u8>]) -> Option<u8> {
    let word = words.get(1)?;
    let action = ActionName::named(&BUILT, word.as_slice())?;
    Some(help(rt, &[action]))
}

fn asks_for_help(word: &[u8]) -> bool {
    word == b"--help".as_slice() || word == b"-help".as_slice() || word == b"-h".as_slice()
}

fn asks_for_version(word: &[u8]) -> bool {
    word == b"--version".as_slice() || word == b"-version".as_slice()
}

// Prints how these actions are called.
fn help<R: Print + Eprint + AllocGlobal>(rt: &R, actions: &[ActionName]) -> u8 {
    match usage(rt.alloc(), actions) {
        Ok(text) => print(rt, text.as_bytes(), DONE),
        Err(_) => want_of_memory(rt),
    }
}
