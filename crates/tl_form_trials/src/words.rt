//! The words of a command line and of a session's line.
use std::alloc::{AllocError, Global};
use std::test::Fail;
use tl_action::ActionName;
use tl_text::QuoteError;
use tl_words::{Action, Command, Repository, read_shell_words, read_words, split_line, usage};

const ON: [ActionName; 2] = [ActionName::DumpTlpdb, ActionName::Setting];

fn is(repository: &Repository, tag: &str, folder: &[u8]) -> bool {
    repository.tag.text() == tag && repository.folder.as_slice() == folder
}

fn is_dump(command: &Command) -> bool {
    let Action::DumpTlpdb { local: true } = &command.action else {
        return false;
    };
    let [tug, main] = command.repositories.as_slice() else {
        return false;
    };
    command.root.as_slice() == b"T".as_slice()
        && command.workers == 64
        && is(tug, "tug", b"a/b")
        && is(main, "main", b"c")
}

fn is_setting(command: &Command) -> bool {
    let Action::Setting {
        option: Some(option),
        values,
    } = &command.action
    else {
        return false;
    };
    let [number, empty] = values.as_slice() else {
        return false;
    };
    option.text() == "autobackup" && number.as_slice() == b"-1".as_slice() && empty.is_empty()
}

// Whether the words of a line are read as the command that is wanted of them.
fn is_read(alloc: Global, line: &str, in_session: bool) -> Result<bool, AllocError> {
    if line.len() > 100 {
        return Err(AllocError);
    }
    let Ok(words) = split_line(alloc, line.as_bytes()) else {
        return Err(AllocError);
    };
    let read = if in_session {
        read_shell_words(alloc, &ON, &words)
    } else {
        read_words(alloc, &ON, &words)
    };
    match read {
        Ok(command) => Ok(if in_session {
            is_setting(&command)
        } else {
            is_dump(&command)
        }),
        Err(_) => Err(AllocError),
    }
}

#[test]
fn lines_are_read_as_their_commands(rt: HostRuntime) -> Result<(), Fail> {
    let alloc = rt.alloc();
    let words = "T -workers 064 -repository tug=a/b \"dump-tlpdb\" --local --repository=c";
    assert!(rt; is_read(alloc, words, false)?);
    let line = " option\t\"auto\"backup -1  \"\"";
    assert!(rt; is_read(alloc, line, true)?);
    Ok(())
}

#[test]
fn a_quote_without_its_partner_has_a_place(rt: HostRuntime) {
    let fault = split_line(rt.alloc(), b"info \"a").err();
    assert!(rt; matches!(fault, Some(QuoteError::BadQuote { at: 5 })));
}

#[test]
fn the_usage_has_the_words_of_each_action(rt: HostRuntime) -> Result<(), Fail> {
    let text = usage(rt.alloc(), &ON)?;
    for word in ["dump-tlpdb", "-local", "option"] {
        assert!(rt; text.as_str().contains(word), "{word}");
    }
    Ok(())
}
