//! What the reader, the writer and the call for canonical texts make of a text, beside its definition.
use crate::good::{canonical_lines, good_lines};
use crate::lines::any_lines;
use crate::slow::{Answer, definition};
use std::alloc::{AllocError, Global};
use std::process::Abort;
use std::test::Fail;
use tl_db::{DbError, canonical_text, read_db, write_db};
use tl_object::LineKind;
use tl_written::{Written, written_entry};

fn fault(rt: &impl Abort, error: DbError) -> Answer {
    match error {
        DbError::BadDatabase { line, kind } => Answer::Bad(line, kind),
        _ => panic!(rt; "too large, or out of memory"),
    }
}

// What the reader and the writer make of a text.
fn rewritten(rt: &impl Abort, alloc: Global, text: &[u8]) -> Result<Answer, Fail> {
    match read_db(alloc, text) {
        Ok(db) => Ok(Answer::Text(write_db(alloc, &db)?)),
        Err(error) => Ok(fault(rt, error)),
    }
}

// What the call makes of a text that brings it into canonical form.
fn canonical(rt: &impl Abort, alloc: Global, text: &[u8]) -> Result<Answer, Fail> {
    match canonical_text(alloc, Vec::from_slice(alloc, text)?) {
        Ok(canonical) => Ok(Answer::Text(canonical)),
        Err(error) => Ok(fault(rt, error)),
    }
}

// The reader, the call that brings a text into canonical form, and the definition answer the same.
pub(crate) fn agree(rt: &impl Abort, alloc: Global, text: &[u8]) -> Result<Answer, Fail> {
    let wanted = definition(alloc, text)?;
    assert_eq!(rt; rewritten(rt, alloc, text)?, wanted);
    assert_eq!(rt; canonical(rt, alloc, text)?, wanted);
    Ok(wanted)
}

fn put_line(text: &mut Vec<u8>, line: &[u8]) -> Result<(), AllocError> {
    text.extend_from_slice(line)?;
    text.push(b'\n')?;
    Ok(())
}

// A text of these lines, with a line put in place of the one at this place, or before it.
pub(crate) fn with_line(
    alloc: Global,
    lines: &[&[u8]],
    at: usize,
    line: &[u8],
    stays: bool,
) -> Result<Vec<u8>, AllocError> {
    let mut text = Vec::new(alloc);
    for (place, good) in lines.iter().enumerate() {
        if place == at {
            put_line(&mut text, line)?;
        }
        if place != at || stays {
            put_line(&mut text, good)?;
        }
    }
    Ok(text)
}

fn whole(alloc: Global, lines: &[&[u8]]) -> Result<Vec<u8>, AllocError> {
    with_line(alloc, lines, lines.len(), b"", true)
}

// The good text, and that in canonical form.
fn good_texts() -> [&'static [&'static [u8]]; 2] {
    [good_lines(), canonical_lines()]
}

fn at_each_place(
    rt: &impl Abort,
    alloc: Global,
    lines: &[&[u8]],
    line: &[u8],
    stays: bool,
) -> Result<(), Fail> {
    for at in 0..lines.len() {
        let text = with_line(alloc, lines, at, line, stays)?;
        agree(rt, alloc, text.as_slice())?;
    }
    Ok(())
}

fn each_at_each_place(
    rt: &impl Abort,
    alloc: Global,
    lines: &[&[u8]],
    stays: bool,
) -> Result<(), Fail> {
    for line in any_lines() {
        at_each_place(rt, alloc, lines, line, stays)?;
    }
    Ok(())
}

#[test]
fn a_line_in_place_of_each_is_read_by_the_definition(rt: HostRuntime) -> Result<(), Fail> {
    for lines in good_texts() {
        each_at_each_place(&rt, rt.alloc(), lines, false)?;
    }
    Ok(())
}

#[test]
fn a_line_before_each_is_read_by_the_definition(rt: HostRuntime) -> Result<(), Fail> {
    for lines in good_texts() {
        each_at_each_place(&rt, rt.alloc(), lines, true)?;
    }
    Ok(())
}

#[test]
fn a_last_line_without_its_end_is_read_by_the_definition(rt: HostRuntime) -> Result<(), Fail> {
    let alloc = rt.alloc();
    let good = good_lines();
    let last = good.len().saturating_sub(1);
    for line in any_lines() {
        for at in [last, good.len()] {
            let mut text = with_line(alloc, good, at, line, false)?;
            if at == good.len() {
                put_line(&mut text, line)?;
            }
            let _ = text.pop();
            agree(&rt, alloc, text.as_slice())?;
        }
    }
    Ok(())
}

// Two lines behind a section and a file of it.
fn two_lines(rt: &impl Abort, alloc: Global, first: &[u8], second: &[u8]) -> Result<(), Fail> {
    let mut text = Vec::from_slice(alloc, b"name c\ndocfiles size=0\n x\n")?;
    put_line(&mut text, first)?;
    put_line(&mut text, second)?;
    agree(rt, alloc, text.as_slice())?;
    Ok(())
}

#[test]
fn any_two_lines_are_read_by_the_definition(rt: HostRuntime) -> Result<(), Fail> {
    for first in any_lines() {
        for second in any_lines() {
            two_lines(&rt, rt.alloc(), first, second)?;
        }
    }
    Ok(())
}

fn each_front(rt: &impl Abort, alloc: Global, lines: &[&[u8]]) -> Result<(), Fail> {
    let mut text = whole(alloc, lines)?;
    for _ in 0..text.len() {
        agree(rt, alloc, text.as_slice())?;
        let _ = text.pop();
    }
    agree(rt, alloc, text.as_slice())?;
    Ok(())
}

#[test]
fn each_front_of_a_good_text_is_read_by_the_definition(rt: HostRuntime) -> Result<(), Fail> {
    for lines in good_texts() {
        each_front(&rt, rt.alloc(), lines)?;
    }
    Ok(())
}

// The lines' text with a byte put in place of the one at this place.
fn with_byte(alloc: Global, lines: &[&[u8]], at: usize, byte: u8) -> Result<Vec<u8>, AllocError> {
    let mut text = whole(alloc, lines)?;
    if let Some(place) = text.get_mut(at) {
        *place = byte;
    }
    Ok(text)
}

fn each_byte(rt: &impl Abort, alloc: Global, lines: &[&[u8]]) -> Result<(), Fail> {
    for at in 0..whole(alloc, lines)?.len() {
        for byte in [0u8, b'\n', b' '] {
            agree(rt, alloc, with_byte(alloc, lines, at, byte)?.as_slice())?;
        }
    }
    Ok(())
}

#[test]
fn a_byte_in_place_of_each_is_read_by_the_definition(rt: HostRuntime) -> Result<(), Fail> {
    for lines in good_texts() {
        each_byte(&rt, rt.alloc(), lines)?;
    }
    Ok(())
}

const EMPTY: [&[u8]; 8] = [
    b"",
    b"\n",
    b"\n\n\n",
    b"#",
    b"#\n",
    b"\n# a\n\n#\n#\xff\n\n",
    b"#\n\n#name a",
    b"\n\n#\0",
];

#[test]
fn texts_of_empty_lines_and_comments_are_empty_databases(rt: HostRuntime) -> Result<(), Fail> {
    let alloc = rt.alloc();
    for text in &EMPTY {
        assert_eq!(rt; agree(&rt, alloc, text)?, Answer::Text(Vec::new(alloc)));
    }
    Ok(())
}

#[test]
fn ends_of_lines_with_a_carriage_return_are_read_by_the_definition(
    rt: HostRuntime,
) -> Result<(), Fail> {
    let alloc = rt.alloc();
    let mut all = Vec::new(alloc);
    let good = good_lines();
    for (at, line) in good.iter().enumerate() {
        let mut ended = Vec::from_slice(alloc, line)?;
        ended.push(b'\r')?;
        agree(
            &rt,
            alloc,
            with_line(alloc, good, at, ended.as_slice(), false)?.as_slice(),
        )?;
        put_line(&mut all, ended.as_slice())?;
    }
    assert_eq!(rt;
        agree(&rt, alloc, all.as_slice())?,
        Answer::Bad(1, LineKind::Missing)
    );
    Ok(())
}

#[test]
fn the_canonical_text_is_written_of_the_good_one(rt: HostRuntime) -> Result<(), Fail> {
    let alloc = rt.alloc();
    let wanted = whole(alloc, canonical_lines())?;
    for lines in good_texts() {
        let text = whole(alloc, lines)?;
        let answer = agree(&rt, alloc, text.as_slice())?;
        assert_eq!(rt; answer, Answer::Text(wanted.clone()?));
    }
    Ok(())
}

// What stands behind the entry with this name and its empty line.
fn behind_entry<'t>(rt: &impl Abort, text: &'t [u8], wanted: &[u8]) -> &'t [u8] {
    let Some(Written { name, rest }) = written_entry(text) else {
        panic!(rt; "no entry");
    };
    assert_eq!(rt; name, wanted);
    rest.strip_prefix(b"\n").unwrap_or(text)
}

#[test]
fn entries_in_canonical_form_are_told_by_their_texts(rt: HostRuntime) -> Result<(), Fail> {
    let text = whole(rt.alloc(), canonical_lines())?;
    let second = behind_entry(&rt, text.as_slice(), b"bar");
    assert_eq!(rt; behind_entry(&rt, second, b"foo.b"), b"".as_slice());
    Ok(())
}
