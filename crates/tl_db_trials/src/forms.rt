//! The forms of what an entry's lines hold, each as its rule says.

fn is_low(byte: u8) -> bool {
    byte.is_ascii_lowercase() || byte.is_ascii_digit()
}

pub(crate) fn is_name(bytes: &[u8]) -> bool {
    bytes.len() <= 128
        && bytes
            .first()
            .is_some_and(|first| first.is_ascii_alphanumeric())
        && bytes.iter().all(|byte| byte.is_ascii_alphanumeric() || b"._-+".contains(byte))
}

pub(crate) fn is_platform(bytes: &[u8]) -> bool {
    bytes.len() <= 32
        && bytes.first().is_some_and(|first| is_low(*first))
        && bytes
            .iter()
            .all(|byte| is_low(*byte) || b"_-".contains(byte))
}

// What stands behind `catalogue-`.
pub(crate) fn is_fact_key(bytes: &[u8]) -> bool {
    !bytes.is_empty()
        && bytes.len() <= 65_536
        && bytes.iter().all(|byte| is_low(*byte) || *byte == b'-')
}

// Of bytes that are UTF-8.
pub(crate) fn is_path(bytes: &[u8]) -> bool {
    let is_plain = bytes.iter().all(|byte| *byte > 0x20
        && *byte != 0x7f
        && *byte != b'"'
        && *byte != b'\\');
    let is_whole = bytes.split(|byte| *byte == b'/').all(|part| !part.is_empty()
        && part != b".".as_slice()
        && part != b"..".as_slice());
    let parts = bytes.split(|byte| *byte == b'/').count();
    bytes.len() <= 1_024 && is_plain && is_whole && parts <= 64
}

pub(crate) fn is_digest(bytes: &[u8]) -> bool {
    bytes.len() == 128 && bytes.iter().all(|byte| byte.is_ascii_hexdigit())
}

pub(crate) fn is_category(bytes: &[u8]) -> bool {
    let words = [
        b"Package".as_slice(),
        b"TLCore",
        b"ConTeXt",
        b"Collection",
        b"Scheme",
    ];
    words.iter().any(|word| *word == bytes)
}

// A number below 2^64.
pub(crate) fn number(bytes: &[u8]) -> Option<u64> {
    if bytes.is_empty() {
        return None;
    }
    let mut number = 0u64;
    for byte in bytes {
        let digit = byte.checked_sub(b'0')?;
        if digit > 9 {
            return None;
        }
        number = number.checked_mul(10)?.checked_add(digit as u64)?;
    }
    Some(number)
}

pub(crate) fn is_revision(bytes: &[u8]) -> bool {
    number(bytes).is_some_and(|number| number < 4_294_967_296)
}

// The number that `size=N` says.
pub(crate) fn size(bytes: &[u8]) -> Option<u64> {
    number(bytes.strip_prefix(b"size=")?)
}

// What a `binfiles` line says.
#[derive(Clone, Copy)]
pub(crate) struct Bin<'t> {
    pub(crate) platform: &'t [u8],
    pub(crate) blocks: u64,
}

fn platform_and_size<'t>(arch: &'t [u8], blocks: &'t [u8]) -> Option<Bin<'t>> {
    let platform = arch.strip_prefix(b"arch=")?;
    if !is_platform(platform) {
        return None;
    }
    Some(Bin {
        platform,
        blocks: size(blocks)?,
    })
}

pub(crate) fn bin_said(bytes: &[u8]) -> Option<Bin<'_>> {
    let mut parts = bytes.splitn(2, |byte| *byte == b' ');
    let first = parts.next()?;
    let second = parts.next()?;
    match platform_and_size(first, second) {
        Some(bin) => Some(bin),
        None => platform_and_size(second, first),
    }
}

// A file's line, or a part of it.
#[derive(Clone, Copy, PartialEq, Eq, PartialOrd, Ord)]
pub(crate) struct FileLine<'t> {
    pub(crate) path: &'t [u8],
    pub(crate) details: Option<&'t [u8]>,
    pub(crate) language: Option<&'t [u8]>,
}

// The text in quotes at the front of what is left of a line, and what stands behind it. Without it nothing is taken.
fn quoted<'t>(left: &'t [u8], opening: &[u8]) -> (Option<&'t [u8]>, &'t [u8]) {
    let Some(begun) = left.strip_prefix(opening) else {
        return (None, left);
    };
    let mut parts = begun.splitn(2, |byte| *byte == b'"');
    match (parts.next(), parts.next()) {
        (Some(text), Some(behind)) if text.len() <= 65_536 => (Some(text), behind),
        _ => (None, left),
    }
}

fn marked<'t>(path: &'t [u8], marks: &'t [u8]) -> Option<FileLine<'t>> {
    let (before, left) = quoted(marks, b" details=\"");
    let (language, left) = quoted(left, b" language=\"");
    let (details, left) = match before {
        Some(_) => (before, left),
        None => quoted(left, b" details=\""),
    };
    if left.is_empty() {
        Some(FileLine {
            path,
            details,
            language,
        })
    } else {
        None
    }
}

// What a line that begins with a space says.
pub(crate) fn file(line: &[u8]) -> Option<FileLine<'_>> {
    let rest = line.strip_prefix(b" ")?;
    let path = rest.split(|byte| *byte == b' ').next()?;
    if is_path(path) {
        marked(path, rest.get(path.len()..)?)
    } else {
        None
    }
}
