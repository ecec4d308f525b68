//! A line of pins.
ghost use Rattle.std.specs.Prelude.{◌≡◌, ◌==◌, map, IfOk};
ghost use Rattle.std.specs.List.{slice_split};
ghost use Rattle.tl_pin.specs.Form.{trimmed, globs_of};
ghost use Rattle.tl_pin.specs.Reading.{pin_of};

use crate::globs::{PinGlobs, glob_of, is_pin_glob, parts_at_commas, trimmed};
use memchr::memchr;
use std::alloc::{AllocError, Global};
use tl_path::{Tag, TagError};

/// A pin: for the names that one of its globs stands for it names the repository with its tag.
#[derive(Drop)]
pub struct PinLine {
    pub tag: Tag,
    pub globs: PinGlobs,
}

// The globs that commas part, with blanks round each or none; `None` where one hasn't the form.
fn read_globs(alloc: Global, text: &[u8]) -> Result<Option<PinGlobs>, AllocError>
    ensures { IfOk result (λ o. globs_of (map trimmed (slice_split (λ b. b == 44) text.now)) ≡ o) }
{
    let parts = parts_at_commas(alloc, text)?;
    let mut globs = Vec::new(alloc);
    for part in &parts {
        let part = trimmed(part);
        if !is_pin_glob(part) {
            return Ok(None);
        }
        globs.push(glob_of(alloc, part)?)?;
    }
    Ok(Some(PinGlobs::of(globs)))
}

// The pin that a line has; `None` where the line is in another form.
pub(crate) fn read_pin(alloc: Global, line: &[u8]) -> Result<Option<PinLine>, AllocError>
    ensures { IfOk result (λ o. pin_of line.now ≡ o) }
{
    let Some(colon) = memchr(b':', line) else {
        return Ok(None);
    };
    let Some(globs) = read_globs(alloc, &line[colon + 1..])? else {
        return Ok(None);
    };
    match Tag::parse(alloc, trimmed(&line[..colon])) {
        Ok(tag) => Ok(Some(PinLine { tag, globs })),
        Err(TagError::NotTag) => Ok(None),
        Err(TagError::NoMemory) => Err(AllocError),
    }
}
