//! The text of marks.
ghost use Rattle.std.specs.Prelude.{◌≡◌, ◌++◌, ◌∷◌, [], ◌<◌, ◌^◌, length, IfOk, OnOk};
ghost use Rattle.std.specs.List.{flat_map};
ghost use Rattle.tl_model.specs.Decimal.{decimal_text};
ghost use Rattle.tl_marks.specs.Writing.{counter_line, platforms_line, lives_word, path_line, ended, platforms_text, paths_text, marks_text};

use crate::marks::{MarkedPath, MarkedPlatforms, Marks};
use itoa::Buffer;
use std::alloc::{AllocError, Global};
use tl_path::Platforms;

fn put_number(out: &mut Vec<u8>, number: u32) -> Result<(), AllocError>
    ensures { OnOk result (out.new.items ≡ out.old.items ++ decimal_text number) }
{
    let mut buffer = Buffer::new();
    out.extend_from_slice(buffer.format(number).as_bytes())
}

fn put_counter(out: &mut Vec<u8>, counter: u32) -> Result<(), AllocError>
    ensures { OnOk result (out.new.items ≡ out.old.items ++ ended (counter_line counter)) }
{
    out.extend_from_slice(b"counter ")?;
    put_number(out, counter)?;
    out.push(b'\n')?;
    Ok(())
}

// Appends platforms with a space in front of each.
fn put_platforms(out: &mut Vec<u8>, platforms: &Platforms) -> Result<(), AllocError>
    ensures { OnOk result (out.new.items ≡ out.old.items ++ flat_map (λ platform. 32 ∷ platform) platforms.now) }
{
    for i in 0..platforms.len() {
        let Some(platform) = platforms.get(i) else {
            unreachable!()
        };
        out.push(b' ')?;
        out.extend_from_slice(platform)?;
    }
    Ok(())
}

fn put_marked_platforms(
    out: &mut Vec<u8>,
    marked: &Option<MarkedPlatforms>,
) -> Result<(), AllocError>
    ensures { OnOk result (out.new.items ≡ out.old.items ++ platforms_text marked.now) }
{
    if let Some(marked) = marked {
        out.extend_from_slice(b"platforms ")?;
        put_number(out, marked.mark)?;
        put_platforms(out, &marked.platforms)?;
        out.push(b'\n')?;
    }
    Ok(())
}

fn lives_word(lives: bool) -> &'static [u8]
    ensures { result.now ≡ lives_word lives }
{
    if lives { b"lives " } else { b"gone " }
}

#[tactic(auto, unfolding(crate::specs::Writing::path_line))]
fn put_path(out: &mut Vec<u8>, marked: &MarkedPath) -> Result<(), AllocError>
    ensures { OnOk result (out.new.items ≡ out.old.items ++ ended (path_line marked.now)) }
{
    out.extend_from_slice(lives_word(marked.lives))?;
    put_number(out, marked.mark)?;
    out.push(b' ')?;
    out.extend_from_slice(marked.path.bytes())?;
    out.push(b'\n')?;
    Ok(())
}

fn put_paths(out: &mut Vec<u8>, paths: &[MarkedPath]) -> Result<(), AllocError>
    ensures { OnOk result (out.new.items ≡ out.old.items ++ paths_text paths.now) }
{
    for marked in paths {
        put_path(out, marked)?;
    }
    Ok(())
}

impl Marks {
    /// The text of the marks: a line for the counter, one for the platforms where they were set, and one for each path.
    pub fn write(&self, alloc: Global) -> Result<Vec<u8>, AllocError>
        ensures text { IfOk result (λ text. text.items ≡ marks_text self.now) }
    {
        let mut out = Vec::new(alloc);
        put_counter(&mut out, self.counter())?;
        put_marked_platforms(&mut out, self.platforms())?;
        put_paths(&mut out, self.paths())?;
        Ok(out)
    }
}
