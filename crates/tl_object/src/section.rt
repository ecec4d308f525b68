//! The files of a section, as its lines are read.
ghost use Rattle.std.specs.Prelude.{◌≡◌, ◌+◌, ◌<◌, ◌^◌, [], length, map, Ok, IfOk, IfErr, MatchResult, true};
ghost use Rattle.tl_object.specs.Content.{content, entry_lines};
ghost use Rattle.tl_object.specs.Values.{Fails};
ghost use Rattle.tl_object.specs.Reading.{placed, Plain, Marked};
ghost use Rattle.tl_object.specs.Steps.{bare, is_file_line, file_step, AreRead, FilesFail};

use crate::fault::{LineFault, LineKind, ObjectError};
use crate::file::{FileLine, file_of_line, starts_file};
use crate::source::next_entry_line;
use std::alloc::Global;
use tl_entry::{DocFile, DocFileList, Gathered, GatheredPaths, Paths};

/// What gathers the files of a section.
pub(crate) trait SectionFiles {
    ghost use Rattle.std.specs.Prelude.{List};
    ghost use Rattle.tl_entry.specs.Parts.{FileEntry};
    ghost use Rattle.tl_object.specs.Reading.{Place};

    ghost place: { Place };

    ghost entries: { Self → List FileEntry };

    /// Takes the file of a line, where the section may have it.
    fn put(&mut self, alloc: Global, file: FileLine<'_>) -> Result<(), LineFault>
        ensures { MatchResult result (λ _. placed place (entries self.old) file.entry ≡ Ok (entries self.new)) (λ e. Fails e (placed place (entries self.old) file.entry)) };
}

impl SectionFiles for Gathered<DocFile> {
    ghost place = { Marked };

    ghost entries = { λ files. files };

    fn put(&mut self, alloc: Global, file: FileLine<'_>) -> Result<(), LineFault> {
        let FileLine {
            path,
            details,
            language,
        } = file;
        let path = path.to_path(alloc)?;
        let file = DocFile {
            path,
            details,
            language,
        };
        if self.add(alloc, file)? {
            Ok(())
        } else {
            Err(LineFault::Bad(LineKind::Repeated))
        }
    }
}

impl SectionFiles for GatheredPaths {
    ghost place = { Plain };

    ghost entries = { λ paths. map bare paths };

    fn put(&mut self, alloc: Global, file: FileLine<'_>) -> Result<(), LineFault> {
        let FileLine {
            path,
            details,
            language,
        } = file;
        if details.is_some() || language.is_some() {
            return Err(LineFault::Bad(LineKind::File));
        }
        if self.add(alloc, path)? {
            Ok(())
        } else {
            Err(LineFault::Bad(LineKind::Repeated))
        }
    }
}

/// Where the lines go on: how many stand before, and the text.
#[derive(Drop)]
pub(crate) struct After<'a> {
    pub number: u32,
    pub rest: &'a [u8],
}

/// The files of the lines that follow a line, and what stands behind them.
#[derive(Drop)]
pub(crate) struct Section<'a, S> {
    pub files: S,
    pub after: After<'a>,
}

fn read_file<S: SectionFiles>(alloc: Global, files: &mut S, line: &[u8]) -> Result<(), LineFault>
    requires { is_file_line line.now ≡ true }
    ensures { MatchResult result (λ _. file_step S.place (S.entries files.old) line.now ≡ Ok (S.entries files.new)) (λ e. Fails e (file_step S.place (S.entries files.old) line.now)) }
{
    let file = file_of_line(alloc, line)?;
    files.put(alloc, file)
}

/// The files of the lines at the front of a text that are files', and the text behind them.
fn read_files<S: SectionFiles + Drop>(
    alloc: Global,
    stops: bool,
    number: u32,
    text: &[u8],
    none: S,
) -> Result<Section<'_, S>, ObjectError>
    requires fits { number + length text.now < 2 ^ 32 }
    requires empty { S.entries none ≡ [] }
    ensures read { IfOk result (λ s. AreRead S.place stops (S.entries s.files) number text.now s.after.number s.after.rest.now) }
    ensures fault { IfErr result (λ e. FilesFail e S.place (entry_lines stops (content number text.now))) }
{
    let mut files = none;
    let mut number = number;
    let mut rest = text;
    while let Some(found) = next_entry_line(stops, number, rest) {
        if !starts_file(found.line) {
            break;
        }
        match read_file(alloc, &mut files, found.line) {
            Ok(()) => {
                number = found.number;
                rest = found.rest;
            }
            Err(fault) => return Err(fault.at(found.number)),
        }
    }
    Ok(Section {
        files,
        after: After { number, rest },
    })
}

/// The files of a section of documentation.
pub(crate) fn read_docs(
    alloc: Global,
    stops: bool,
    number: u32,
    text: &[u8],
) -> Result<Section<'_, DocFileList>, ObjectError>
    requires { number + length text.now < 2 ^ 32 }
    ensures read { IfOk result (λ s. AreRead Marked stops s.files number text.now s.after.number s.after.rest.now) }
    ensures fault { IfErr result (λ e. FilesFail e Marked (entry_lines stops (content number text.now))) }
{
    let none: Gathered<DocFile> = Gathered::new(alloc);
    match read_files(alloc, stops, number, text, none) {
        Ok(section) => Ok(Section {
            files: DocFileList::new(section.files.finish()?),
            after: section.after,
        }),
        Err(fault) => Err(fault),
    }
}

/// The paths of a section whose files state nothing else.
pub(crate) fn read_paths(
    alloc: Global,
    stops: bool,
    number: u32,
    text: &[u8],
) -> Result<Section<'_, Paths>, ObjectError>
    requires { number + length text.now < 2 ^ 32 }
    ensures read { IfOk result (λ s. AreRead Plain stops (map bare s.files) number text.now s.after.number s.after.rest.now) }
    ensures fault { IfErr result (λ e. FilesFail e Plain (entry_lines stops (content number text.now))) }
{
    match read_files(alloc, stops, number, text, GatheredPaths::new(alloc)) {
        Ok(section) => Ok(Section {
            files: section.files.finish(alloc)?,
            after: section.after,
        }),
        Err(fault) => Err(fault),
    }
}
