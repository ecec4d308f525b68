//! The reading of an entry.
ghost use Rattle.std.specs.Prelude.{◌≡◌, ◌+◌, ◌<◌, ◌≤◌, ◌^◌, ◌∷◌, [], ℕ, List, length, Ok, IfOk, IfErr, MatchResult, false};
ghost use Rattle.tl_object.specs.Content.{content, entry_lines, lines_left, front, behind};
ghost use Rattle.tl_object.specs.Groups.{Group};
ghost use Rattle.tl_object.specs.Values.{Gives, Fails};
ghost use Rattle.tl_object.specs.Cuts.{cut};
ghost use Rattle.tl_object.specs.declared.head.Head.TheVariants as heads;
ghost use Rattle.tl_object.specs.Reading.{place_of, names, next_groups, entry_groups, entry_of, as_object, first_name, FailsAt, GivesAt};
ghost use Rattle.tl_object.specs.Built.{built, put};
ghost use Rattle.tl_object.specs.Known.{is_known};
ghost use Rattle.tl_object.specs.Steps.{head_step, AreRead, FilesFail};
ghost use Rattle.tl_entry.specs.Parts.{FileEntry};

use crate::builder::Builder;
use crate::fault::{LineFault, LineKind, ObjectError};
use crate::head::{Head, head_of_line};
use crate::key::Part;
use crate::section::{After, read_docs, read_paths};
use crate::source::{cut_at, next_entry_line};
use std::alloc::Global;
use tl_entry::{DocFiles, Files, Object};
use tl_path::Name;

/// What a line says that is no file's and isn't known yet.
fn read_head(alloc: Global, builder: &Builder, line: &[u8]) -> Result<Head, LineFault>
    ensures { Gives result (head_step builder.now line.now) }
{
    let head = head_of_line(alloc, line)?;
    if builder.is_known(&head) {
        Err(LineFault::Bad(LineKind::Repeated))
    } else {
        Ok(head)
    }
}

fn says_name(line: &[u8]) -> bool
    ensures { result ≡ names line.now (cut 32 line.now) }
{
    match cut_at(line, b' ') {
        Some((word, _)) => word == b"name".as_slice(),
        None => line == b"name".as_slice(),
    }
}

/// The name that an entry's first line gives.
fn read_name(alloc: Global, line: &[u8]) -> Result<Name, LineFault>
    ensures { MatchResult result (λ name. next_groups [] line.now ≡ Ok (record { head = heads.Name name; files = [] } ∷ [])) (λ e. Fails e (next_groups [] line.now)) }
{
    if !says_name(line) {
        return Err(LineFault::Bad(LineKind::Missing));
    }
    match head_of_line(alloc, line)? {
        Head::Name(name) => Ok(name),
        _ => Err(LineFault::Bad(LineKind::Missing)),
    }
}

/// Takes the section of a part that a line begins, with the files that follow it.
fn read_part<'a>(
    alloc: Global,
    stops: bool,
    builder: &mut Builder,
    part: Part,
    blocks: u64,
    number: u32,
    text: &'a [u8],
) -> Result<After<'a>, ObjectError>
    requires { number + length text.now < 2 ^ 32 }
    ensures read { IfOk result (λ after. (files : List FileEntry) × (builder.new ≡ put builder.old (heads.Files part blocks) files)
        × AreRead (place_of (heads.Files part blocks)) stops files number text.now after.number after.rest.now) }
    ensures fault { IfErr result (λ e. FilesFail e (place_of (heads.Files part blocks)) (entry_lines stops (content number text.now))) }
{
    match part {
        Part::Doc => {
            let section = read_docs(alloc, stops, number, text)?;
            let files = section.files;
            builder.doc = Some(DocFiles { blocks, files });
            Ok(section.after)
        }
        Part::Run => {
            let section = read_paths(alloc, stops, number, text)?;
            let paths = section.files;
            builder.run = Some(Files { blocks, paths });
            Ok(section.after)
        }
        Part::Src => {
            let section = read_paths(alloc, stops, number, text)?;
            let paths = section.files;
            builder.src = Some(Files { blocks, paths });
            Ok(section.after)
        }
    }
}

/// Takes what a line says that isn't known yet, with the files that follow it.
fn read_group<'a>(
    alloc: Global,
    stops: bool,
    builder: &mut Builder,
    head: Head,
    number: u32,
    text: &'a [u8],
) -> Result<After<'a>, ObjectError>
    requires fits { number + length text.now < 2 ^ 32 }
    requires new { is_known builder.old head ≡ false }
    ensures read { IfOk result (λ after. (files : List FileEntry) × (builder.new ≡ put builder.old head files)
        × AreRead (place_of head) stops files number text.now after.number after.rest.now) }
    ensures fault { IfErr result (λ e. FilesFail e (place_of head) (entry_lines stops (content number text.now))) }
{
    match head {
        Head::Files(part, blocks) => read_part(alloc, stops, builder, part, blocks, number, text),
        Head::Binfiles(platform, blocks) => {
            let section = read_paths(alloc, stops, number, text)?;
            builder.put_bin(alloc, platform, blocks, section.files)?;
            Ok(section.after)
        }
        head => {
            builder.put(head)?;
            Ok(After { number, rest: text })
        }
    }
}

/// What the lines of an entry gave, and the text behind them.
#[derive(Drop)]
struct Parts<'a> {
    builder: Builder,
    number: u32,
    rest: &'a [u8],
}

/// The parts of an entry whose text stands behind this many lines.
fn read_parts(
    alloc: Global,
    stops: bool,
    before: u32,
    text: &[u8],
) -> Result<Parts<'_>, ObjectError>
    requires { before + length text.now < 2 ^ 32 }
    ensures parts { IfOk result (λ parts. (groups : List Group) × ((entry_groups (entry_lines stops (content before text.now)) ≡ Ok groups) × (parts.builder ≡ built groups))) }
    ensures name { IfOk result (λ parts. (line : ℕ) × (first_name (entry_lines stops (content before text.now)) ≡ Ok (line, parts.builder.name))) }
    ensures left { IfOk result (λ parts. lines_left stops (content before text.now) ≡ lines_left stops (content parts.number parts.rest.now)) }
    ensures ended { IfOk result (λ parts. entry_lines stops (content parts.number parts.rest.now) ≡ []) }
    ensures shorter { IfOk result (λ parts. length parts.rest.now < length text.now) }
    ensures fits { IfOk result (λ parts. parts.number + length parts.rest.now ≤ before + length text.now) }
    ensures fault { IfErr result (λ e. FailsAt e (entry_groups (entry_lines stops (content before text.now)))) }
{
    let Some(first) = next_entry_line(stops, before, text) else {
        return Err(ObjectError::BadObject {
            line: 1,
            kind: LineKind::Missing,
        });
    };
    let name = match read_name(alloc, first.line) {
        Ok(name) => name,
        Err(fault) => return Err(fault.at(first.number)),
    };
    let mut builder = Builder::new(alloc, name);
    let mut number = first.number;
    let mut rest = first.rest;
    while let Some(found) = next_entry_line(stops, number, rest) {
        let head = match read_head(alloc, &builder, found.line) {
            Ok(head) => head,
            Err(fault) => return Err(fault.at(found.number)),
        };
        let after = match read_group(alloc, stops, &mut builder, head, found.number, found.rest) {
            Ok(after) => after,
            Err(fault) => return Err(fault),
        };
        number = after.number;
        rest = after.rest;
    }
    Ok(Parts {
        builder,
        number,
        rest,
    })
}

/// An entry that was read, and the text behind it, with the number of lines before that text.
#[derive(Drop)]
pub struct Entry<'a> {
    pub object: Object,
    pub number: u32,
    pub rest: &'a [u8],
}

/// The entry at the front of a text that stands behind this many lines; an empty line ends it. The lines of the text
/// count on from there. `BadObject` as `read_object` has it.
pub fn read_entry(alloc: Global, before: u32, text: &[u8]) -> Result<Entry<'_>, ObjectError>
    requires { before + length text.now < 2 ^ 32 }
    ensures object { IfOk result (λ entry. as_object (entry_groups (front (content before text.now))) ≡ Ok entry.object) }
    ensures name { IfOk result (λ entry. (line : ℕ) × (first_name (front (content before text.now)) ≡ Ok (line, entry.object.name))) }
    ensures left { IfOk result (λ entry. behind (content before text.now) ≡ behind (content entry.number entry.rest.now)) }
    ensures ended { IfOk result (λ entry. front (content entry.number entry.rest.now) ≡ []) }
    ensures shorter { IfOk result (λ entry. length entry.rest.now < length text.now) }
    ensures fits { IfOk result (λ entry. entry.number + length entry.rest.now ≤ before + length text.now) }
    ensures fault { IfErr result (λ e. FailsAt e (as_object (entry_groups (front (content before text.now))))) }
{
    let parts = match read_parts(alloc, true, before, text) {
        Ok(parts) => parts,
        Err(fault) => return Err(fault),
    };
    let object = parts.builder.finish(alloc)?;
    Ok(Entry {
        object,
        number: parts.number,
        rest: parts.rest,
    })
}

/// The name of the entry at the front of a text, and the number of its line.
#[derive(Drop)]
pub struct Named {
    pub name: Name,
    pub line: u32,
}

/// The name that the first line of the entry at the front of a text gives. `BadObject` where that line is bad.
pub fn read_entry_name(alloc: Global, before: u32, text: &[u8]) -> Result<Named, ObjectError>
    requires { before + length text.now < 2 ^ 32 }
    ensures name { IfOk result (λ named. first_name (front (content before text.now)) ≡ Ok (named.line, named.name)) }
    ensures fault { IfErr result (λ e. FailsAt e (first_name (front (content before text.now)))) }
{
    let Some(first) = next_entry_line(true, before, text) else {
        return Err(ObjectError::BadObject {
            line: 1,
            kind: LineKind::Missing,
        });
    };
    match read_name(alloc, first.line) {
        Ok(name) => Ok(Named {
            name,
            line: first.number,
        }),
        Err(fault) => Err(fault.at(first.number)),
    }
}

/// The entry of a text below 2^32 bytes: a line with its name, and lines in any order. Lines that begin with `#` are
/// passed over. `BadObject` at the first bad line, with the first kind of fault that it has.
pub fn read_object(alloc: Global, text: &[u8]) -> Result<Object, ObjectError>
    requires { length text.now < 2 ^ 32 }
    ensures { GivesAt result (entry_of text.now) }
{
    let parts = match read_parts(alloc, false, 0, text) {
        Ok(parts) => parts,
        Err(fault) => return Err(fault),
    };
    let object = parts.builder.finish(alloc)?;
    Ok(object)
}
