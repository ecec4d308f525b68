//! The platforms of a tree.
ghost use Rattle.std.specs.Prelude.{◌≡◌, IfOk, map};
ghost use Rattle.tl_model.specs.Words.{fields};
ghost use Rattle.tl_depend.specs.Needed.{tree_platforms};

use std::alloc::{AllocError, Global};
use tl_db::{Db, OptionError};
use tl_text::fields;

// A value that is longer never comes: 32 platforms are shorter.
const MOST_BYTES: usize = 4_294_967_295;

// The words of a text.
fn words_of(alloc: Global, text: &[u8]) -> Result<Vec<Vec<u8>>, AllocError>
    ensures { IfOk result (λ words. map (λ word. word.items) words.items ≡ fields text.now) }
{
    if text.len() > MOST_BYTES {
        return Err(AllocError);
    }
    let spans = fields(alloc, text)?;
    let mut words = Vec::new(alloc);
    for span in &spans {
        words.push(Vec::from_slice(alloc, span.of(text))?)?;
    }
    Ok(words)
}

/// The platforms of a tree, each a word of its option.
pub fn tree_platforms(alloc: Global, db: &Db) -> Result<Vec<Vec<u8>>, AllocError>
    ensures { IfOk result (λ platforms. map (λ platform. platform.items) platforms.items ≡ tree_platforms db.now) }
{
    let text = match db.option(alloc, b"platforms") {
        Ok(text) => text,
        Err(OptionError::UnknownOption | OptionError::BadValue) => unreachable!(),
        Err(OptionError::NoMemory) => return Err(AllocError),
    };
    words_of(alloc, &text)
}
