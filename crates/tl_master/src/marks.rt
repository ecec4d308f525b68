//! The marks of a tree.
ghost use Rattle.std.specs.Prelude.{◌≡◌, IfOk, IfErr};
ghost use Rattle.tl_master.specs.Answers.{Asks};
ghost use Rattle.tl_master.specs.Marked.{marks_in};
ghost use Rattle.tl_master.specs.Masters.{platforms_mark, platforms_named};

use crate::error::MasterError;
use std::alloc::{AllocError, Global};
use tl_auto::Platforms;
use tl_host::Host;
use tl_kind::What;
use tl_marks::{Marks, MarksError};
use tl_path::PathRef;
use tl_tree::{ContentsError, Tree};

/// The marks of a tree, none where their file is absent. `TooLarge` of `Marks`, then `BadMarks`.
pub(crate) fn read_marks<H: Host>(alloc: Global, tree: &mut Tree<H>) -> Result<Marks, MasterError>
    ensures { Asks H.tells (λ marks. marks) marks_in tree.old tree.new result }
{
    let path = PathRef::known("tlpkg/marks");
    let text = match tree.contents(alloc, path, What::Marks) {
        Ok(Some(text)) => text,
        Ok(None) => return Ok(Marks::none(alloc)),
        Err(ContentsError::TooLarge { what, limit }) => {
            return Err(MasterError::TooLarge { what, limit });
        }
        Err(ContentsError::HostFault) => return Err(MasterError::HostFault),
        Err(ContentsError::NoMemory) => return Err(MasterError::NoMemory),
    };
    match Marks::read(alloc, &text) {
        Ok(marks) => Ok(marks),
        Err(MarksError::BadMarks { line }) => Err(MasterError::BadMarks { line }),
        Err(MarksError::NoMemory) => Err(MasterError::NoMemory),
    }
}

/// The platforms that marks name; none where they name none.
pub(crate) fn platforms_named(alloc: Global, marks: &Marks) -> Result<Platforms, AllocError>
    ensures { IfOk result (λ platforms. platforms ≡ platforms_named marks.now.platforms) }
{
    match marks.platforms() {
        Some(marked) => Ok(marked.platforms.clone()?),
        None => Ok(Platforms::none(alloc)),
    }
}

/// The mark of these platforms.
pub(crate) fn platforms_mark(marks: &Marks) -> u32
    ensures { result ≡ platforms_mark marks.now.platforms }
{
    match marks.platforms() {
        Some(marked) => marked.mark,
        None => 0,
    }
}
