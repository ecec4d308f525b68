//! Changes of pins.
ghost use Rattle.std.specs.Prelude.{◌≡◌, position, OnOk, OnErr};
ghost use Rattle.std.specs.List.{list_any};
ghost use Rattle.tl_pin.specs.Form.{ArePinGlobs};
ghost use Rattle.tl_pin.specs.Changes.{has_tag, has_glob, with_globs, without_glob, without_tag};

use crate::globs::PinGlobs;
use crate::line::PinLine;
use crate::pins::Pins;
use std::alloc::{AllocError, Global};
use tl_glob::Glob;
use tl_path::Tag;

impl PinLine {
    fn has_tag(&self, tag: &Tag) -> bool
        ensures { result ≡ has_tag tag.now self.now }
    {
        self.tag == *tag
    }

    fn has_glob(&self, tag: &Tag, glob: &Glob) -> bool
        ensures { result ≡ has_glob tag.now glob.now self.now }
    {
        self.has_tag(tag) && self.globs.has(glob)
    }
}

fn place_of_tag(lines: &[PinLine], tag: &Tag) -> Option<usize>
    ensures { result ≡ position (has_tag tag.now) lines.now }
{
    lines.iter().position(|pin| pin.has_tag(tag))
}

fn place_of_glob(lines: &[PinLine], tag: &Tag, glob: &Glob) -> Option<usize>
    ensures { result ≡ position (has_glob tag.now glob.now) lines.now }
{
    lines.iter().position(|pin| pin.has_glob(tag, glob))
}

fn has_tag(lines: &[PinLine], tag: &Tag) -> bool
    ensures { result ≡ list_any (has_tag tag.now) lines.now }
{
    lines.iter().any(|pin| pin.has_tag(tag))
}

impl Pins {
    /// Adds globs behind those of the first pin with a tag or, where none has it, in a new last one. Where memory runs out nothing
    /// changes.
    pub fn add(&mut self, alloc: Global, tag: &Tag, globs: &[Glob]) -> Result<(), AllocError>
        requires { ArePinGlobs globs.now }
        ensures ok { OnOk result (self.new ≡ with_globs tag.now globs.now self.old) }
        ensures err { OnErr result (self.new ≡ self.old) }
    {
        let globs = PinGlobs::copy_of(alloc, globs)?;
        match place_of_tag(self.lines.as_slice(), tag) {
            Some(at) => self.lines[at].globs.append(globs),
            None => {
                let tag = tag.clone()?;
                self.lines.push(PinLine { tag, globs })?;
                Ok(())
            }
        }
    }

    /// Takes away the first occurrence of a glob in the pins with a tag; a pin that has no glob left goes. The answer is `false`
    /// exactly where the glob isn't there. Takes no memory.
    pub fn remove(&mut self, tag: &Tag, glob: &Glob) -> bool
        ensures left { self.new ≡ without_glob tag.now glob.now self.old }
        ensures there { result ≡ list_any (has_glob tag.now glob.now) self.old }
    {
        let Some(at) = place_of_glob(self.lines.as_slice(), tag, glob) else {
            return false;
        };
        if self.lines[at].globs.as_slice().len() == 1 {
            let _ = self.lines.remove(at);
        } else {
            self.lines[at].globs.remove_first(glob);
        }
        true
    }

    /// Takes away all pins with a tag. The answer is `false` exactly where there is none. Takes no memory.
    pub fn remove_all(&mut self, tag: &Tag) -> bool
        ensures left { self.new ≡ without_tag tag.now self.old }
        ensures there { result ≡ list_any (has_tag tag.now) self.old }
    {
        let there = has_tag(self.lines.as_slice(), tag);
        self.lines.retain(|pin| !pin.has_tag(tag));
        there
    }
}
