//! The first bad line of a database's text, found slowly: each line is looked at with all the lines before it.
use crate::forms::{
    bin_said, file, is_category, is_digest, is_fact_key, is_name, is_revision, number, size,
};
use crate::written::written;
use std::alloc::{AllocError, Global};
use tl_object::LineKind;

// What a text is: the text that is written of its database, or the number of its first bad line and what is wrong there.
#[derive(Debug, Drop, PartialEq, Eq)]
pub(crate) enum Answer {
    Text(Vec<u8>),
    Bad(u32, LineKind),
}

// What a key's value is to be.
#[derive(Clone, Copy)]
pub(crate) enum Form {
    Name,
    Category,
    Revision,
    Text,
    Flag,
    Size,
    Digest,
    Files,
    Bin,
    Fact,
}

// How often an entry may have a key.
#[derive(Clone, Copy)]
pub(crate) enum Times {
    First,
    Once,
    OncePerPlatform,
    Any,
}

// The keys in the order in which the writer gives them; of facts the beginning of their keys.
pub(crate) const ROWS: [(&[u8], Form, Times); 21] = [
    (b"name", Form::Name, Times::First),
    (b"category", Form::Category, Times::Once),
    (b"revision", Form::Revision, Times::Once),
    (b"catalogue", Form::Text, Times::Once),
    (b"shortdesc", Form::Text, Times::Once),
    (b"relocated", Form::Flag, Times::Once),
    (b"longdesc", Form::Text, Times::Any),
    (b"depend", Form::Text, Times::Any),
    (b"execute", Form::Text, Times::Any),
    (b"postaction", Form::Text, Times::Any),
    (b"containersize", Form::Size, Times::Once),
    (b"containerchecksum", Form::Digest, Times::Once),
    (b"doccontainersize", Form::Size, Times::Once),
    (b"doccontainerchecksum", Form::Digest, Times::Once),
    (b"docfiles", Form::Files, Times::Once),
    (b"srccontainersize", Form::Size, Times::Once),
    (b"srccontainerchecksum", Form::Digest, Times::Once),
    (b"srcfiles", Form::Files, Times::Once),
    (b"runfiles", Form::Files, Times::Once),
    (b"binfiles", Form::Bin, Times::OncePerPlatform),
    (b"catalogue-", Form::Fact, Times::Any),
];

// Whether a line's key is that of a row.
pub(crate) fn is_of(row: &[u8], form: Form, key: &[u8]) -> bool {
    match form {
        Form::Fact => key.strip_prefix(row).is_some_and(|rest| is_fact_key(rest)),
        _ => row == key,
    }
}

fn row(key: &[u8]) -> Option<(Form, Times)> {
    for (row, form, times) in &ROWS {
        if is_of(row, *form, key) {
            return Some((*form, *times));
        }
    }
    None
}

// A key and its value.
#[derive(Clone, Copy)]
pub(crate) struct Said<'t> {
    pub(crate) key: &'t [u8],
    pub(crate) value: &'t [u8],
}

pub(crate) fn words(line: &[u8]) -> Said<'_> {
    let mut parts = line.splitn(2, |byte| *byte == b' ');
    Said {
        key: parts.next().unwrap_or(b""),
        value: parts.next().unwrap_or(b""),
    }
}

// Whether a line isn't passed over and ends no entry.
pub(crate) fn counts(line: &[u8]) -> bool {
    match line.first() {
        None | Some(b'#') => false,
        Some(_) => true,
    }
}

pub(crate) fn is_file(line: &[u8]) -> bool {
    line.first() == Some(&b' ')
}

// Whether a line has a key.
pub(crate) fn is_head(line: &[u8]) -> bool {
    counts(line) && !is_file(line)
}

fn fits(form: Form, value: &[u8]) -> bool {
    match form {
        Form::Name => is_name(value),
        Form::Category => is_category(value),
        Form::Revision => is_revision(value),
        Form::Text | Form::Fact => true,
        Form::Flag => matches!(value, b"0" | b"1"),
        Form::Size => number(value).is_some(),
        Form::Digest => is_digest(value),
        Form::Files => size(value).is_some(),
        Form::Bin => bin_said(value).is_some(),
    }
}

fn has_key(lines: &[&[u8]], key: &[u8]) -> bool {
    lines.iter().any(|line| words(line).key == key)
}

fn has_name(lines: &[&[u8]], name: &[u8]) -> bool {
    lines.iter().map(|line| words(line)).any(|other| other.key == b"name".as_slice()
        && other.value == name)
}

fn platform_of(value: &[u8]) -> Option<&[u8]> {
    Some(bin_said(value)?.platform)
}

fn has_platform(lines: &[&[u8]], value: &[u8]) -> bool {
    lines.iter().map(|line| words(line)).any(|other| other.key == b"binfiles".as_slice()
        && platform_of(other.value) == platform_of(value))
}

fn head_fault(before: &[&[u8]], entry: &[&[u8]], line: &[u8]) -> Option<LineKind> {
    let Said { key, value } = words(line);
    if value.len() > 65_536 {
        return Some(LineKind::TooLong);
    }
    let Some((form, times)) = row(key) else {
        return Some(LineKind::Key);
    };
    if !fits(form, value) {
        return Some(LineKind::Value);
    }
    let is_repeated = match times {
        Times::First => has_key(entry, key) || has_name(before, value),
        Times::Once => has_key(entry, key),
        Times::OncePerPlatform => has_platform(entry, value),
        Times::Any => false,
    };
    is_repeated.then_some(LineKind::Repeated)
}

// The last line with a key and the lines behind it.
fn section<'l>(entry: &'l [&'l [u8]]) -> Option<&'l [&'l [u8]]> {
    entry.get(entry.iter().rposition(|line| is_head(line))?..)
}

fn file_fault(entry: &[&[u8]], line: &[u8]) -> Option<LineKind> {
    let Some([head, files @ ..]) = section(entry) else {
        return Some(LineKind::File);
    };
    let Some(this) = file(line) else {
        return Some(LineKind::File);
    };
    let is_marked = this.details.is_some() || this.language.is_some();
    let is_bad = match row(words(head).key) {
        Some((Form::Files, _)) => is_marked && words(head).key != b"docfiles".as_slice(),
        Some((Form::Bin, _)) => is_marked,
        _ => true,
    };
    if is_bad {
        return Some(LineKind::File);
    }
    let is_repeated = files.iter().any(|other| file(other).is_some_and(|other| other.path
        == this.path));
    is_repeated.then_some(LineKind::Repeated)
}

// The lines behind the last empty one.
fn entry_of<'l>(before: &'l [&'l [u8]]) -> &'l [&'l [u8]] {
    before.split(|line| line.is_empty()).last().unwrap_or(&[])
}

// What is wrong with a line, which has these lines before it.
fn fault(before: &[&[u8]], line: &[u8]) -> Option<LineKind> {
    if !counts(line) {
        return None;
    }
    let entry = entry_of(before);
    if !entry.iter().any(|other| counts(other)) && words(line).key != b"name".as_slice() {
        Some(LineKind::Missing)
    } else if std::str::from_utf8(line).is_err() {
        Some(LineKind::Utf8)
    } else if is_file(line) {
        file_fault(entry, line)
    } else {
        head_fault(before, entry, line)
    }
}

// What a text is by the definition.
pub(crate) fn definition(alloc: Global, text: &[u8]) -> Result<Answer, AllocError> {
    let mut before = Vec::new(alloc);
    let mut count = 0u32;
    for line in text.split(|byte| *byte == b'\n') {
        count = count.saturating_add(1);
        if let Some(kind) = fault(before.as_slice(), line) {
            return Ok(Answer::Bad(count, kind));
        }
        before.push(line)?;
    }
    Ok(Answer::Text(written(alloc, before.as_slice())?))
}
