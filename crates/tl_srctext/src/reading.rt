//! The reading of a source.
ghost use Rattle.std.specs.Prelude.{◌≡◌, ◌≤◌, true, length, codes, Ok, IfOk, IfErr, OnOk, MatchResult};
ghost use Rattle.std.specs.List.{list_any};
ghost use Rattle.std.specs.Str.{bytes_eq};
ghost use Rattle.tl_srctext.specs.Content as the_content;
ghost use Rattle.tl_srctext.specs.Joined.{joined_lines};
ghost use Rattle.tl_srctext.specs.Reading.{is_name_line, nameless, fields_read, source_of};
ghost use Rattle.tl_srctext.specs.Errors.{IsSourceError};
ghost use Rattle.tl_srctext.specs.Formed.{IsSource};
ghost use Rattle.tl_path.specs.Names.{is_name};
ghost use Rattle.tl_srctext.specs.Steps.{FailsAtLine, line_taken_in};

use crate::content::{content, cut_word};
use crate::error::SourceError;
use crate::fields::SourceFields;
use crate::joined::take_joined;
use crate::line::{is_reserved, said_in};
use crate::source::SourceText;
use std::alloc::{AllocError, Global};
use tl_kind::{SourceKind, What};
use tl_path::Name;

// Whether the key of a line is `name`.
fn is_name_line(line: &[u8]) -> bool
    ensures { result ≡ bytes_eq (the_content.before_blank (the_content.line_content line.now)) (codes "name") }
{
    let (word, _) = cut_word(content(line));
    word == b"name".as_slice()
}

// Whether a text has a line whose key is `name`.
fn has_name_line(alloc: Global, text: &[u8]) -> Result<bool, AllocError>
    requires { length text.now ≤ 1048576 }
    ensures { IfOk result (λ has. has ≡ list_any is_name_line (joined_lines text.now)) }
{
    let mut line = Vec::new(alloc);
    let mut number = 1;
    let mut rest = text;
    loop {
        let behind = take_joined(&mut line, number, rest)?;
        if is_name_line(&line) {
            return Ok(true);
        }
        number = behind.number;
        match behind.text {
            Some(text) => rest = text,
            None => return Ok(false),
        }
    }
}

// How the first line of a text is bad that wants a line whose key is `name` and has none.
fn nameless(alloc: Global, name: &[u8], text: &[u8]) -> SourceError
    requires { length text.now ≤ 1048576 }
    ensures { FailsAtLine (nameless name.now (joined_lines text.now)) result }
{
    let mut line = Vec::new(alloc);
    if take_joined(&mut line, 1, text).is_err() {
        return SourceError::NoMemory;
    }
    let content = content(&line);
    if !content.is_empty() {
        if let Err(fault) = said_in(alloc, name, 1, content) {
            return fault.at(1);
        }
    }
    SourceError::BadSource {
        line: 1,
        kind: SourceKind::Name,
    }
}

// Takes what a line says, where it isn't empty.
fn take_line(
    alloc: Global,
    name: &[u8],
    fields: &mut SourceFields,
    number: u32,
    line: &[u8],
) -> Result<(), SourceError>
    ensures taken { OnOk result (line_taken_in name.now number line.now fields.old ≡ Ok fields.new) }
    ensures fault { IfErr result (FailsAtLine (line_taken_in name.now number line.now fields.old)) }
{
    let content = content(line);
    if content.is_empty() {
        return Ok(());
    }
    match said_in(alloc, name, number, content) {
        Ok(said) => {
            fields.take(said)?;
            Ok(())
        }
        Err(fault) => Err(fault.at(number)),
    }
}

// Reads the lines of a text.
fn read_fields(alloc: Global, name: &Name, text: &[u8]) -> Result<SourceFields, SourceError>
    requires { length text.now ≤ 1048576 }
    ensures { MatchResult result (λ fields. fields_read name.now (joined_lines text.now) ≡ Ok fields)
        (FailsAtLine (fields_read name.now (joined_lines text.now))) }
{
    let mut fields = SourceFields::new(alloc, name)?;
    let mut line = Vec::new(alloc);
    let mut number = 1;
    let mut rest = text;
    loop {
        let behind = take_joined(&mut line, number, rest)?;
        match take_line(alloc, name.bytes(), &mut fields, number, &line) {
            Ok(()) => {}
            Err(error) => return Err(error),
        }
        number = behind.number;
        match behind.text {
            Some(text) => rest = text,
            None => return Ok(fields),
        }
    }
}

// Reads a text within its limit.
fn read_source(alloc: Global, name: &Name, text: &[u8]) -> Result<SourceText, SourceError>
    requires { length text.now ≤ 1048576 }
    ensures read { MatchResult result (λ source. source_of name.now text.now ≡ Ok source)
        (FailsAtLine (source_of name.now text.now)) }
    ensures name { is_name name.now ≡ true }
{
    if is_reserved(name.bytes()) && !has_name_line(alloc, text)? {
        return Err(nameless(alloc, name.bytes(), text));
    }
    let fields = read_fields(alloc, name, text)?;
    Ok(SourceText::of(fields))
}

/// Reads the source that a text is for this name, in one pass. `TooLarge` of `Source` where the text passes 1,048,576 bytes; else
/// `BadSource` at the first bad line, with the first kind of fault that it has. A name that begins with `00texlive` is bad at its line,
/// and at line 1 where there is none.
pub fn read(alloc: Global, name: &Name, text: &[u8]) -> Result<SourceText, SourceError>
    ensures source { IfOk result (λ source. (length text.now ≤ 1048576) × (source_of name.now text.now ≡ Ok source)) }
    ensures formed { IfOk result IsSource }
    ensures fault { IfErr result (IsSourceError name.now text.now) }
{
    if text.len() as u64 > What::Source.limit() {
        return Err(SourceError::TooLarge {
            what: What::Source,
            limit: What::Source.limit(),
        });
    }
    read_source(alloc, name, text)
}
