// The sections of files whose lines are paths.
ghost use Rattle.std.specs.Prelude.{◌≡◌, ◌++◌, ◌∷◌, [], ◌<◌, ◌^◌, ℕ, codes, true, List, IfSome, IsSomeAnd};
ghost use Rattle.std.specs.List.{flat_map};
ghost use Rattle.tl_path.specs.Path.{IsPath};
ghost use Rattle.tl_object.specs.Plain.{is_key};
ghost use Rattle.tl_object.specs.Formed.{IsFormedSection};
ghost use Rattle.tl_object.specs.Writing.{path_line, section_line, files_lines};
ghost use Rattle.tl_written.specs.Stands.{Stands};
ghost use Rattle.tl_written.specs.Rises.{AreRising, OneStands};
ghost use Rattle.tl_written.specs.Found.{Finds, FindsOne};
ghost use Rattle.tl_written.specs.Pieces.{PathsStand};

use crate::lines::{behind, comes_before, line_behind, number_of};
use tl_path::PathRef;

/// The blocks that a section states, and what stands behind its line.
pub(crate) fn section_behind<'a>(text: &'a [u8], key: &[u8]) -> Option<(u64, &'a [u8])>
    ensures stands { IfSome result (λ parts. (text.now ≡ section_line key.now parts.0 ++ parts.1.now) × (parts.0 < 2 ^ 64)) }
    ensures finds { (blocks : ℕ) (rest : List ℕ) → blocks < 2 ^ 64 → text.now ≡ section_line key.now blocks ++ rest → IsSomeAnd result (λ parts. (parts.0 ≡ blocks) × (parts.1.now ≡ rest)) }
{
    let sized = behind(text, key)?;
    let (digits, rest) = line_behind(behind(sized, b" size=")?)?;
    let blocks = number_of(digits)?;
    Some((blocks, rest))
}

fn path_behind(text: &[u8]) -> Option<(&[u8], &[u8])>
    ensures stands { IfSome result (λ parts. OneStands (λ path. path) path_line IsPath parts.0.now text.now parts.1.now) }
    ensures finds { FindsOne (λ path. path) path_line IsPath [] text.now result }
{
    let (path, rest) = line_behind(behind(text, b" ")?)?;
    match PathRef::check(path) {
        Ok(_) => Some((path, rest)),
        Err(_) => None,
    }
}

/// What stands behind the lines of paths that rise.
pub(crate) fn paths_behind(text: &[u8]) -> Option<&[u8]>
    ensures stands { IfSome result (λ rest. PathsStand text.now rest.now) }
    ensures finds { Finds (flat_map path_line) (AreRising (λ path. path) IsPath) ((32 ∷ []) ∷ []) text.now result }
{
    let mut rest = text;
    let mut last: &[u8] = &[];
    while let Some((path, behind)) = path_behind(rest) {
        if !comes_before(last, path) {
            return None;
        }
        last = path;
        rest = behind;
    }
    Some(rest)
}

/// What stands behind a section of files, which may be absent.
pub(crate) fn files_behind<'a>(text: &'a [u8], key: &[u8]) -> Option<&'a [u8]>
    requires { is_key key.now ≡ true }
    ensures stands { IfSome result (λ rest. Stands (files_lines key.now) IsFormedSection text.now rest.now) }
    ensures finds { Finds (files_lines key.now) IsFormedSection ((32 ∷ []) ∷ (key.now ++ codes " size=") ∷ []) text.now result }
{
    let Some((blocks, paths)) = section_behind(text, key) else {
        return Some(text);
    };
    let rest = paths_behind(paths)?;
    if blocks == 0 && rest.len() == paths.len() {
        None
    } else {
        Some(rest)
    }
}
