//! The text that is written of the database of lines of which none is bad, made slowly.
use crate::forms::{Bin, FileLine, bin_said, file, size};
use crate::slow::{Form, ROWS, Said, is_head, is_of, words};
use std::alloc::{AllocError, Global};

fn put(out: &mut Vec<u8>, key: &[u8], value: &[u8]) -> Result<(), AllocError> {
    out.extend_from_slice(key)?;
    out.push(b' ')?;
    out.extend_from_slice(value)?;
    out.push(b'\n')?;
    Ok(())
}

// A number without leading zeros.
fn plain(number: &[u8]) -> &[u8] {
    let first = number.iter().position(|byte| *byte != b'0');
    match first {
        Some(first) => number.get(first..).unwrap_or(b"0"),
        None => b"0",
    }
}

fn put_low(out: &mut Vec<u8>, key: &[u8], digest: &[u8]) -> Result<(), AllocError> {
    out.extend_from_slice(key)?;
    out.push(b' ')?;
    for byte in digest {
        out.push(byte.to_ascii_lowercase())?;
    }
    out.push(b'\n')?;
    Ok(())
}

fn put_mark(out: &mut Vec<u8>, opening: &[u8], mark: Option<&[u8]>) -> Result<(), AllocError> {
    if let Some(mark) = mark {
        out.extend_from_slice(opening)?;
        out.extend_from_slice(mark)?;
        out.push(b'"')?;
    }
    Ok(())
}

// The lines of a section's files, by their paths.
fn put_files(out: &mut Vec<u8>, alloc: Global, behind: &[&[u8]]) -> Result<(), AllocError> {
    let mut files: Vec<FileLine<'_>> = Vec::new(alloc);
    for line in behind.iter().take_while(|line| !is_head(line)) {
        if let Some(file) = file(line) {
            files.push(file)?;
        }
    }
    files.sort()?;
    for file in files.as_slice() {
        out.push(b' ')?;
        out.extend_from_slice(file.path)?;
        put_mark(out, b" details=\"", file.details)?;
        put_mark(out, b" language=\"", file.language)?;
        out.push(b'\n')?;
    }
    Ok(())
}

fn put_section(
    out: &mut Vec<u8>,
    alloc: Global,
    key: &[u8],
    value: &[u8],
    behind: &[&[u8]],
) -> Result<(), AllocError> {
    let mut files = Vec::new(alloc);
    put_files(&mut files, alloc, behind)?;
    let blocks = size(value).unwrap_or(0);
    if blocks == 0 && files.is_empty() {
        return Ok(());
    }
    let said = format!(in alloc; "size={blocks}")?;
    put(out, key, said.as_bytes())?;
    out.extend_from_slice(files.as_slice())
}

fn put_bin(
    out: &mut Vec<u8>,
    alloc: Global,
    bin: Bin<'_>,
    behind: &[&[u8]],
) -> Result<(), AllocError> {
    out.extend_from_slice(b"binfiles arch=")?;
    out.extend_from_slice(bin.platform)?;
    let said = format!(in alloc; " size={}\n", bin.blocks)?;
    out.extend_from_slice(said.as_bytes())?;
    put_files(out, alloc, behind)
}

// The platforms of an entry, in their order.
fn platforms<'t>(alloc: Global, entry: &[&'t [u8]]) -> Result<Vec<&'t [u8]>, AllocError> {
    let mut platforms = Vec::new(alloc);
    for line in entry {
        let Said { key, value } = words(line);
        if let Some(bin) = bin_said(value)
            && key == b"binfiles".as_slice()
        {
            platforms.push(bin.platform)?;
        }
    }
    platforms.sort()?;
    Ok(platforms)
}

// The element of one platform.
fn put_platform(
    out: &mut Vec<u8>,
    alloc: Global,
    entry: &[&[u8]],
    platform: &[u8],
) -> Result<(), AllocError> {
    for (at, line) in entry.iter().enumerate() {
        let Said { key, value } = words(line);
        if let Some(bin) = bin_said(value)
            && key == b"binfiles".as_slice()
            && bin.platform == platform
            && let Some(behind) = entry.get(at.saturating_add(1)..)
        {
            put_bin(out, alloc, bin, behind)?;
        }
    }
    Ok(())
}

fn put_bins(out: &mut Vec<u8>, alloc: Global, entry: &[&[u8]]) -> Result<(), AllocError> {
    for platform in platforms(alloc, entry)?.as_slice() {
        put_platform(out, alloc, entry, platform)?;
    }
    Ok(())
}

// A line of an entry, with the lines behind it.
fn put_line(
    out: &mut Vec<u8>,
    alloc: Global,
    form: Form,
    line: &[u8],
    behind: &[&[u8]],
) -> Result<(), AllocError> {
    let Said { key, value } = words(line);
    match form {
        Form::Name | Form::Category | Form::Text | Form::Fact => put(out, key, value),
        Form::Revision | Form::Size => put(out, key, plain(value)),
        Form::Flag if value == b"0".as_slice() => Ok(()),
        Form::Flag => put(out, key, value),
        Form::Digest => put_low(out, key, value),
        Form::Files => put_section(out, alloc, key, value, behind),
        Form::Bin => Ok(()),
    }
}

// The lines of one row of the table.
fn put_row(
    out: &mut Vec<u8>,
    alloc: Global,
    entry: &[&[u8]],
    row: &[u8],
    form: Form,
) -> Result<(), AllocError> {
    let before = out.len();
    for (at, line) in entry.iter().enumerate() {
        if is_of(row, form, words(line).key)
            && let Some(behind) = entry.get(at.saturating_add(1)..)
        {
            put_line(out, alloc, form, line, behind)?;
        }
    }
    match form {
        Form::Category if out.len() == before => put(out, row, b"Package"),
        Form::Revision if out.len() == before => put(out, row, b"0"),
        Form::Bin => put_bins(out, alloc, entry),
        _ => Ok(()),
    }
}

fn put_entry(out: &mut Vec<u8>, alloc: Global, entry: &[&[u8]]) -> Result<(), AllocError> {
    for (row, form, _) in &ROWS {
        put_row(out, alloc, entry, row, *form)?;
    }
    out.push(b'\n')?;
    Ok(())
}

// The name that a stretch of lines without an empty one gives; `None` where it is no entry.
fn name_of<'t>(stretch: &[&'t [u8]]) -> Option<&'t [u8]> {
    let first = stretch.iter().find(|line| is_head(line))?;
    Some(words(first).value)
}

fn names<'t>(alloc: Global, lines: &[&'t [u8]]) -> Result<Vec<&'t [u8]>, AllocError> {
    let mut names = Vec::new(alloc);
    for stretch in lines.split(|line| line.is_empty()) {
        if let Some(name) = name_of(stretch) {
            names.push(name)?;
        }
    }
    names.sort()?;
    Ok(names)
}

fn put_named(
    out: &mut Vec<u8>,
    alloc: Global,
    lines: &[&[u8]],
    name: &[u8],
) -> Result<(), AllocError> {
    for stretch in lines.split(|line| line.is_empty()) {
        if name_of(stretch) == Some(name) {
            put_entry(out, alloc, stretch)?;
        }
    }
    Ok(())
}

pub(crate) fn written(alloc: Global, lines: &[&[u8]]) -> Result<Vec<u8>, AllocError> {
    let mut out = Vec::new(alloc);
    for name in names(alloc, lines)?.as_slice() {
        put_named(&mut out, alloc, lines, name)?;
    }
    Ok(out)
}
