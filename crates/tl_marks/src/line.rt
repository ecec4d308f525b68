//! The lines of marks.
ghost use Rattle.std.specs.Prelude.{◌≡◌, ℕ, ◌<◌, ◌^◌, List, length, IfOk, IfSome, MatchOption, option_copied};
ghost use Rattle.tl_marks.specs.Form.{number_of, mark_of, is_source_path, may_be_marked, path_of, counter_of, lives_of, path_in, is_platforms_line, ArePlatformsOf, SaysPlatforms};
ghost use Rattle.tl_marks.specs.declared.marks.MarkedPlatforms.{MarkedPlatforms};

use crate::marks::{MarkedPath, MarkedPlatforms};
use crate::word::{before_space, behind_space, is_spaced};
use std::alloc::{AllocError, Global};
use tl_path::{Path, PathError, Platforms, PlatformsError, is_name};
use tl_text::decimal_u32;

fn number_of(text: &[u8]) -> Option<u32>
    ensures { result ≡ number_of text.now }
{
    match decimal_u32(text) {
        Ok(number) => Some(number),
        Err(_) => None,
    }
}

// The mark that a text writes: a number from 1 to the counter.
fn mark_of(counter: u32, text: &[u8]) -> Option<u32>
    ensures { result ≡ mark_of counter text.now }
{
    match number_of(text) {
        Some(mark) if 1 <= mark && mark <= counter => Some(mark),
        _ => None,
    }
}

// Whether a path is that of a package's source.
fn is_source_path(path: &[u8]) -> bool
    ensures { result ≡ is_source_path path.now }
{
    let Some(file) = path.strip_prefix(b"tlpkg/tlpsrc/") else {
        return false;
    };
    match file.strip_suffix(b".tlpsrc") {
        Some(name) => is_name(name),
        None => false,
    }
}

// The path of a text, where it is one that may have a mark.
fn path_of(alloc: Global, text: &[u8]) -> Result<Option<Path>, AllocError>
    ensures { IfOk result (λ path. path_of text.now ≡ path) }
{
    match Path::parse(alloc, text) {
        Ok(path) => {
            if path.is_reserved() && !is_source_path(text) {
                return Ok(None);
            }
            Ok(Some(path))
        }
        Err(PathError::BadPath { .. }) => Ok(None),
        Err(PathError::NoMemory) => Err(AllocError),
    }
}

/// The counter that a line states; `None` where it has another form.
pub(crate) fn counter_of(line: &[u8]) -> Option<u32>
    ensures { result ≡ counter_of line.now }
{
    let text = behind_space(line)?;
    if before_space(line) == b"counter".as_slice() {
        number_of(text)
    } else {
        None
    }
}

fn lives_of(word: &[u8]) -> Option<bool>
    ensures { result ≡ lives_of word.now }
{
    if word == b"lives".as_slice() {
        Some(true)
    } else if word == b"gone".as_slice() {
        Some(false)
    } else {
        None
    }
}

/// The marked path of a line; `None` where it has another form.
pub(crate) fn path_in(
    alloc: Global,
    counter: u32,
    line: &[u8],
) -> Result<Option<MarkedPath>, AllocError>
    ensures { IfOk result (λ marked. path_in counter line.now ≡ marked) }
{
    let Some(rest) = behind_space(line) else {
        return Ok(None);
    };
    let Some(text) = behind_space(rest) else {
        return Ok(None);
    };
    let Some(lives) = lives_of(before_space(line)) else {
        return Ok(None);
    };
    let Some(mark) = mark_of(counter, before_space(rest)) else {
        return Ok(None);
    };
    match path_of(alloc, text)? {
        Some(path) => Ok(Some(MarkedPath { lives, mark, path })),
        None => Ok(None),
    }
}

/// Whether a line begins with the word `platforms`.
pub(crate) fn is_platforms_line(line: &[u8]) -> bool
    ensures { result ≡ is_platforms_line line.now }
{
    before_space(line) == b"platforms".as_slice()
}

// The platforms behind the mark of a line; `None` where they haven't their form.
fn platforms_of(alloc: Global, text: Option<&[u8]>) -> Result<Option<Platforms>, AllocError>
    requires { IfSome text (λ t. length t.now < 2 ^ 32) }
    ensures { IfOk result (λ platforms. MatchOption platforms ((names : List (List ℕ)) → ¬ (ArePlatformsOf (option_copied text.entry) names)) (ArePlatformsOf (option_copied text.entry))) }
{
    let Some(text) = text else {
        return Ok(Some(Platforms::none(alloc)));
    };
    if !is_spaced(text) {
        return Ok(None);
    }
    match Platforms::parse(alloc, text) {
        Ok(platforms) => Ok(Some(platforms)),
        Err(PlatformsError::BadPlatforms { .. }) => Ok(None),
        Err(PlatformsError::NoMemory) => Err(AllocError),
    }
}

/// The platforms of a line and their mark; `None` where it has another form.
pub(crate) fn platforms_in(
    alloc: Global,
    counter: u32,
    line: &[u8],
) -> Result<Option<MarkedPlatforms>, AllocError>
    requires { length line.now < 2 ^ 32 }
    ensures { IfOk result (λ marked. MatchOption marked ((other : MarkedPlatforms) → ¬ (SaysPlatforms counter line.now other)) (SaysPlatforms counter line.now)) }
{
    let Some(rest) = behind_space(line) else {
        return Ok(None);
    };
    let Some(mark) = mark_of(counter, before_space(rest)) else {
        return Ok(None);
    };
    match platforms_of(alloc, behind_space(rest))? {
        Some(platforms) => Ok(Some(MarkedPlatforms { mark, platforms })),
        None => Ok(None),
    }
}
