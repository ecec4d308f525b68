//! The lines of files.
ghost use Rattle.std.specs.Prelude.{◌≡◌, List, Ok, IfOk, IfSome, MatchOption, MatchResult, Some, None, true};
ghost use Rattle.tl_entry.specs.Forms.{has_no_quote, is_unquoted};
ghost use Rattle.tl_object.specs.Values.{Gives, Fails};
ghost use Rattle.tl_object.specs.Grammar.{quoted, mark_value, second_mark, marked_file, file_value, line_value};
ghost use Rattle.tl_object.specs.Steps.{is_file_line};
ghost use Rattle.tl_object.specs.Line as lines;

use crate::fault::{LineFault, LineKind};
use crate::source::cut_at;
use crate::value::{after_word, path_of};
use std::alloc::Global;
use std::marker::Model;
use tl_path::PathRef;
use tl_text::{Text, TextError};

const BAD_FILE: LineFault = LineFault::Bad(LineKind::File);

const DETAILS: &[u8] = b"details=\"";

const LANGUAGE: &[u8] = b"language=\"";

/// What a file's line says; its path stands in the line.
#[derive(Drop)]
pub struct FileLine<'a> {
    pub path: PathRef<'a>,
    pub details: Option<Text>,
    pub language: Option<Text>,
}

impl<'a> Model for FileLine<'a> {
    ghost use Rattle.std.specs.Prelude.{◌≡◌, true};
    ghost use Rattle.tl_entry.specs.Forms.{is_unquoted};
    ghost use Rattle.tl_entry.specs.Parts.{FileEntry};

    ghost Value = { FileEntry };

    ghost view = { λ a. record { path = a.path; details = a.details; language = a.language } };

    ghost invariant = { λ a. (is_unquoted a.details ≡ true) × (is_unquoted a.language ≡ true) };
}

fn quoted<'a>(text: &'a [u8], word: &[u8]) -> Option<(&'a [u8], &'a [u8])>
    ensures found { MatchOption result (quoted word.now text.now ≡ None) (λ parts. quoted word.now text.now ≡ Some (parts.0.now, parts.1.now)) }
    ensures plain { IfSome result (λ parts. has_no_quote parts.0.now ≡ true) }
{
    match after_word(text, word) {
        Some(rest) => cut_at(rest, b'"'),
        None => None,
    }
}

fn mark_of(alloc: Global, text: &[u8]) -> Result<Text, LineFault>
    ensures mark { Gives result (mark_value text.now) }
    ensures same { IfOk result (λ mark. mark ≡ text.now) }
{
    match Text::parse(alloc, text) {
        Ok(mark) => Ok(mark),
        Err(TextError::NotText) => Err(BAD_FILE),
        Err(TextError::NoMemory) => Err(LineFault::NoMemory),
    }
}

fn second_mark(alloc: Global, word: &[u8], text: &[u8]) -> Result<Option<Text>, LineFault>
    ensures mark { Gives result (second_mark word.now text.now) }
    ensures plain { IfOk result (λ mark. is_unquoted mark ≡ true) }
{
    match text {
        [] => Ok(None),
        [b' ', rest @ ..] => match quoted(rest, word) {
            Some((mark, [])) => Ok(Some(mark_of(alloc, mark)?)),
            _ => Err(BAD_FILE),
        },
        [_, ..] => Err(BAD_FILE),
    }
}

fn marked_file<'a>(
    alloc: Global,
    path: PathRef<'a>,
    marks: &[u8],
) -> Result<FileLine<'a>, LineFault>
    ensures { Gives result (marked_file path.entry marks.now) }
{
    if let Some((details, rest)) = quoted(marks, DETAILS) {
        let details = Some(mark_of(alloc, details)?);
        let language = second_mark(alloc, LANGUAGE, rest)?;
        return Ok(FileLine {
            path,
            details,
            language,
        });
    }
    let Some((language, rest)) = quoted(marks, LANGUAGE) else {
        return Err(BAD_FILE);
    };
    let language = Some(mark_of(alloc, language)?);
    let details = second_mark(alloc, DETAILS, rest)?;
    Ok(FileLine {
        path,
        details,
        language,
    })
}

/// The file of a line, without the space at its front.
fn file_of(alloc: Global, text: &[u8]) -> Result<FileLine<'_>, LineFault>
    ensures { Gives result (file_value text.now) }
{
    match cut_at(text, b' ') {
        None => {
            let path = path_of(text)?;
            Ok(FileLine {
                path,
                details: None,
                language: None,
            })
        }
        Some((path, marks)) => {
            let path = path_of(path)?;
            marked_file(alloc, path, marks)
        }
    }
}

/// Whether a line begins as a file's does.
pub(crate) fn starts_file(line: &[u8]) -> bool
    ensures { result ≡ is_file_line line.now }
{
    match line {
        [b' ', ..] => true,
        _ => false,
    }
}

/// The file of a line that begins with a space. Most lines are a path alone, which is looked at first.
pub(crate) fn file_of_line(alloc: Global, line: &[u8]) -> Result<FileLine<'_>, LineFault>
    requires { is_file_line line.now ≡ true }
    ensures { MatchResult result (λ file. line_value line.now ≡ Ok (lines.File file)) (λ e. Fails e (line_value line.now)) }
{
    let [b' ', text @ ..] = line else {
        unreachable!()
    };
    if let Ok(path) = PathRef::check(text) {
        return Ok(FileLine {
            path,
            details: None,
            language: None,
        });
    }
    match str::from_utf8(line) {
        Ok(_) => file_of(alloc, text),
        Err(_) => Err(LineFault::Bad(LineKind::Utf8)),
    }
}
