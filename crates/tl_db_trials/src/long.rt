//! Lines at the limits of their length, among good ones.
use crate::good::good_lines;
use crate::tests::{agree, with_line};
use std::alloc::{AllocError, Global};
use std::process::Abort;
use std::test::Fail;

// Long lines: what stands before a run of one byte, that byte, how often it stands there, and what stands behind.
const LONG: [(&[u8], u8, usize, &[u8]); 19] = [
    (b"shortdesc ", b'x', 65_536, b""),
    (b"shortdesc ", b'x', 65_537, b""),
    (b"longdesc ", b' ', 65_537, b""),
    (b"depend ", b'x', 65_537, b"\xff"),
    (b"colour ", b'x', 65_536, b""),
    (b"colour ", b'x', 65_537, b""),
    (b"colour", b'x', 65_537, b""),
    (b"name ", b'a', 128, b""),
    (b"name ", b'a', 129, b""),
    (b"name ", b'a', 65_537, b""),
    (b"revision ", b'0', 65_536, b""),
    (b"revision ", b'0', 65_537, b""),
    (b"catalogue-", b'a', 65_536, b" x"),
    (b"catalogue-", b'a', 65_537, b" x"),
    (b" ", b'a', 1_024, b""),
    (b" ", b'a', 1_025, b""),
    (b" a details=\"", b'x', 65_536, b"\""),
    (b" a details=\"", b'x', 65_537, b"\""),
    (b" a language=\"", b' ', 65_537, b"\""),
];

// The name's line, a file's line in docfiles, a line behind others and the last.
const PLACES: [usize; 4] = [4, 17, 33, 49];

fn at_some_places(rt: &impl Abort, alloc: Global, line: &[u8]) -> Result<(), Fail> {
    for at in PLACES {
        for stays in [false, true] {
            let text = with_line(alloc, good_lines(), at, line, stays)?;
            agree(rt, alloc, text.as_slice())?;
        }
    }
    Ok(())
}

#[test]
fn long_lines_are_read_by_the_definition(rt: HostRuntime) -> Result<(), Fail> {
    let alloc = rt.alloc();
    for (before, byte, count, behind) in &LONG {
        let mut line = Vec::from_slice(alloc, before)?;
        let run = vec![in alloc; *byte; *count]?;
        line.extend_from_slice(run.as_slice())?;
        line.extend_from_slice(behind)?;
        at_some_places(&rt, alloc, line.as_slice())?;
    }
    Ok(())
}
