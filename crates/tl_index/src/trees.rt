//! Where the folders with a name that are below some words stand among the folders' keys.
ghost use Rattle.std.specs.Prelude.{◌≡◌, ◌++◌, ◌∷◌, [], IfOk};
ghost use Rattle.tl_index.specs.Trees.{joined, folder_in, AreWords, AreBounds};

use crate::key::FolderKey;
use std::alloc::{AllocError, Global};
use tl_path::Path;

// The words with a '/' behind each.
fn joined(alloc: Global, words: &[Path]) -> Result<Vec<u8>, AllocError>
    ensures { IfOk result (λ text. text.items ≡ joined words.now) }
{
    let mut text = Vec::new(alloc);
    for word in words {
        text.extend_from_slice(word.bytes())?;
        text.push(b'/')?;
    }
    Ok(text)
}

// What the keys of these folders begin with, and the least text behind all that begin so: '0' comes next to '/'.
pub(crate) fn bounds(
    alloc: Global,
    words: &[Path],
    name: &Path,
) -> Result<(FolderKey, FolderKey), AllocError>
    requires { AreWords words.now name.now }
    ensures { IfOk result (λ bounds. AreBounds words.now name.now bounds.0 bounds.1) }
{
    let mut text = joined(alloc, words)?;
    let front = FolderKey::new(alloc, name.bytes(), &text)?;
    text.pop();
    text.push(b'0')?;
    let behind = FolderKey::new(alloc, name.bytes(), &text)?;
    Ok((front, behind))
}

// What stands behind a key's first '/'.
pub(crate) fn folder_in(key: &FolderKey) -> &[u8]
    ensures { result.now ≡ folder_in key.now }
{
    let bytes = key.bytes();
    for (at, byte) in bytes.iter().enumerate() {
        if *byte == b'/' {
            return &bytes[at + 1..];
        }
    }
    &[]
}
