// A whole entry.
ghost use Rattle.std.specs.Prelude.{◌≡◌, ◌++◌, ◌∷◌, ℕ, List, IfSome, IsSomeAnd};
ghost use Rattle.tl_entry.specs.declared.object.Object.{Object};
ghost use Rattle.tl_object.specs.Formed.{HasFormedFiles};
ghost use Rattle.tl_object.specs.Writing.{file_lines, object_text};
ghost use Rattle.tl_written.specs.Found.{Finds};
ghost use Rattle.tl_written.specs.Pieces.{FilesStand, IsFormed, EntryStands, file_words};

use crate::bins::bins_behind;
use crate::boxes::box_behind;
use crate::docs::doc_behind;
use crate::facts::facts_behind;
use crate::first::first_behind;
use crate::middle::middle_behind;
use crate::paths::files_behind;

/// An entry at the front of a text.
#[derive(Drop)]
pub struct Written<'a> {
    pub name: &'a [u8],
    /// The text behind the entry.
    pub rest: &'a [u8],
}

fn all_files_behind(text: &[u8]) -> Option<&[u8]>
    ensures stand { IfSome result (λ rest. FilesStand text.now rest.now) }
    ensures finds { Finds file_lines HasFormedFiles file_words text.now result }
{
    let rest = box_behind(text, b"containersize", b"containerchecksum")?;
    let rest = box_behind(rest, b"doccontainersize", b"doccontainerchecksum")?;
    let rest = doc_behind(rest)?;
    let rest = box_behind(rest, b"srccontainersize", b"srccontainerchecksum")?;
    let rest = files_behind(rest, b"srcfiles")?;
    let rest = files_behind(rest, b"runfiles")?;
    bins_behind(rest)
}

/// The entry at the front of a text, where its lines stand there as `tl_object::write_object` writes it; it reads as itself again. Each
/// entry that has an empty line behind it is found: `None` comes only where none stands there. Takes no memory, and looks at each byte a
/// few times.
pub fn written_entry(text: &[u8]) -> Option<Written<'_>>
    ensures stands { IfSome result (λ entry. EntryStands entry.name.now text.now entry.rest.now) }
    ensures finds { (o : Object) (rest : List ℕ) → IsFormed o → text.now ≡ object_text o ++ 10 ∷ rest → IsSomeAnd result (λ entry. (entry.name.now ≡ o.name) × (entry.rest.now ≡ 10 ∷ rest)) }
{
    let (name, rest) = first_behind(text)?;
    let rest = middle_behind(rest)?;
    let rest = all_files_behind(rest)?;
    Some(Written {
        name,
        rest: facts_behind(rest),
    })
}
