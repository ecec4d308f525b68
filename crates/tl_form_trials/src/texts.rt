//! Lines, fields, quoted words, numbers and short texts.
use std::alloc::{AllocError, Global};
use std::process::Abort;
use std::test::Fail;
use tl_text::{Span, Text, decimal_u32, decimal_u64, fields, lines, quoted_words};

// The stretches of a text, each with a bar behind it.
fn barred(alloc: Global, text: &[u8], spans: &[Span]) -> Result<Vec<u8>, AllocError> {
    let mut all = Vec::new(alloc);
    for span in spans {
        let stretch = text.get(span.start as usize..span.end as usize);
        all.extend_from_slice(stretch.unwrap_or(b"?"))?;
        all.push(b'|')?;
    }
    Ok(all)
}

// A text, its lines, its fields and its quoted words.
static SPANS: [[&[u8]; 4]; 5] = [
    [b"", b"", b"", b""],
    [b"\n", b"|", b"\n|", b"\n|"],
    [
        b"name a\nb\n\n",
        b"name a|b||",
        b"name|a\nb\n\n|",
        b"name|a\nb\n\n|",
    ],
    [
        b"1 linux\twindows ",
        b"1 linux\twindows |",
        b"1|linux|windows|",
        b"1|linux|windows|",
    ],
    [
        b" F o=\"-etex *foo.ini\"\"\" a\r",
        b" F o=\"-etex *foo.ini\"\"\" a\r|",
        b"F|o=\"-etex|*foo.ini\"\"\"|a\r|",
        b"F|o=\"-etex *foo.ini\"\"\"|a\r|",
    ],
];

fn has(
    rt: &impl Abort,
    alloc: Global,
    text: &[u8],
    spans: &[Span],
    wanted: &[u8],
) -> Result<(), AllocError> {
    let found = barred(alloc, text, spans)?;
    assert!(rt; found.as_slice() == wanted, "{text:?}");
    Ok(())
}

#[test]
fn lines_and_words_are_stretches_of_their_text(rt: HostRuntime) -> Result<(), Fail> {
    let alloc = rt.alloc();
    for [text, its_lines, its_fields, its_words] in &SPANS {
        assert!(rt; text.len() < 100);
        has(&rt, alloc, text, &lines(alloc, text)?, its_lines)?;
        has(&rt, alloc, text, &fields(alloc, text)?, its_fields)?;
        has(&rt, alloc, text, &quoted_words(alloc, text)?, its_words)?;
    }
    Ok(())
}

// Texts and the numbers that they are within 64 and within 32 bits.
static NUMBERS: [(&[u8], Option<u64>, Option<u32>); 10] = [
    (b"", None, None),
    (b"-1", None, None),
    (b"1 ", None, None),
    (b"007", Some(7), Some(7)),
    (b"4294967295", Some(4_294_967_295), Some(4_294_967_295)),
    (b"4294967296", Some(4_294_967_296), None),
    (
        b"18446744073709551615",
        Some(18_446_744_073_709_551_615),
        None,
    ),
    (b"18446744073709551616", None, None),
    (b"00000000000000000001", Some(1), Some(1)),
    (b"99999999999999999999", None, None),
];

#[test]
fn numbers_of_up_to_twenty_digits_are_read(rt: HostRuntime) {
    for (text, wide, narrow) in &NUMBERS {
        let is_read = decimal_u64(text).ok() == *wide && decimal_u32(text).ok() == *narrow;
        assert!(rt; is_read, "{text:?}");
    }
}

// Bytes, and whether they are a text.
static TEXTS: [(&[u8], bool); 6] = [
    (b"", true),
    (b"An example \xc3\xa9\r", true),
    (b"a\nb", false),
    (b"a\xc3", false),
    (b"\xed\xa0\x80", false),
    (b"\xff", false),
];

#[test]
fn a_text_is_one_line_of_65536_bytes_at_most(rt: HostRuntime) -> Result<(), Fail> {
    let alloc = rt.alloc();
    for (bytes, is_text) in &TEXTS {
        assert!(rt; Text::parse(alloc, bytes).is_ok() == *is_text, "{bytes:?}");
    }
    let mut long = vec![in alloc; b'a'; 65_536]?;
    let text = Text::parse(alloc, long.as_slice())?.try_clone(alloc)?;
    assert!(rt; text.bytes() == long.as_slice());
    long.push(b'a')?;
    assert!(rt; Text::parse(alloc, long.as_slice()).is_err());
    Ok(())
}
