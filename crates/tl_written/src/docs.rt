// The documentation files.
ghost use Rattle.std.specs.Prelude.{◌≡◌, ◌==◌, ◌++◌, ◌∷◌, [], ℕ, codes, false, List, All, IfSome};
ghost use Rattle.std.specs.List.{flat_map};
ghost use Rattle.tl_model.specs.Lines.{IsLine};
ghost use Rattle.tl_entry.specs.Parts.{FileEntry};
ghost use Rattle.tl_object.specs.Formed.{IsMark, IsFormedFile, IsFormedDoc};
ghost use Rattle.tl_object.specs.Writing.{mark_text, file_line, doc_lines};
ghost use Rattle.tl_written.specs.Stands.{Stands};
ghost use Rattle.tl_written.specs.Rises.{AreRising};
ghost use Rattle.tl_written.specs.Found.{Finds, FindsOne};
ghost use Rattle.tl_written.specs.Pieces.{MarkStands, DocFileStands, DocFilesStand, BeginsAtSpace};

use crate::lines::{behind, comes_before, cut_at, is_text, line_behind};
use crate::paths::section_behind;
use memchr::memchr;
use tl_path::PathRef;

// What stands behind a mark of a file, which may be absent.
fn mark_behind<'a>(line: &'a [u8], word: &[u8]) -> Option<&'a [u8]>
    requires { IsLine line.now }
    ensures mark { IfSome result (λ rest. MarkStands word.now line.now rest.now) }
    ensures line { IfSome result (λ rest. IsLine rest.now) }
    ensures finds { Finds (mark_text word.now) (λ mark. IfSome mark IsMark) ((32 ∷ word.now) ∷ []) line.now result }
{
    let Some(marked) = behind(line, b" ") else {
        return Some(line);
    };
    let Some(quoted) = behind(marked, word) else {
        return Some(line);
    };
    let (mark, rest) = cut_at(quoted, b'"')?;
    if is_text(mark) { Some(rest) } else { None }
}

// A line cut in front of its first space.
fn path_and_marks(line: &[u8]) -> (&[u8], &[u8])
    requires { IsLine line.now }
    ensures parts { line.now ≡ result.0.now ++ result.1.now }
    ensures line { IsLine result.1.now }
    ensures finds { (path marks : List ℕ) → All (λ b. (b == 32) ≡ false) path → BeginsAtSpace marks → line.now ≡ path ++ marks → (result.0.now ≡ path) × (result.1.now ≡ marks) }
{
    match memchr(b' ', line) {
        Some(end) => (&line[..end], &line[end..]),
        None => (line, &[]),
    }
}

// The path of a documentation file, and what stands behind its line.
fn doc_file_behind(text: &[u8]) -> Option<(&[u8], &[u8])>
    ensures stands { IfSome result (λ parts. DocFileStands parts.0.now text.now parts.1.now) }
    ensures finds { FindsOne (λ (file : FileEntry). file.path) file_line IsFormedFile [] text.now result }
{
    let (line, rest) = line_behind(behind(text, b" ")?)?;
    let (path, marks) = path_and_marks(line);
    let Ok(_) = PathRef::check(path) else {
        return None;
    };
    let marks = mark_behind(marks, b"details=\"")?;
    match mark_behind(marks, b"language=\"")? {
        [] => Some((path, rest)),
        [_, ..] => None,
    }
}

fn doc_files_behind(text: &[u8]) -> Option<&[u8]>
    ensures stands { IfSome result (λ rest. DocFilesStand text.now rest.now) }
    ensures finds { Finds (flat_map file_line) (AreRising (λ (file : FileEntry). file.path) IsFormedFile) ((32 ∷ []) ∷ []) text.now result }
{
    let mut rest = text;
    let mut last: &[u8] = &[];
    while let Some((path, behind)) = doc_file_behind(rest) {
        if !comes_before(last, path) {
            return None;
        }
        last = path;
        rest = behind;
    }
    Some(rest)
}

/// What stands behind the section of documentation, which may be absent.
pub(crate) fn doc_behind(text: &[u8]) -> Option<&[u8]>
    ensures stands { IfSome result (λ rest. Stands doc_lines IsFormedDoc text.now rest.now) }
    ensures finds { Finds doc_lines IsFormedDoc ((32 ∷ []) ∷ codes "docfiles size=" ∷ []) text.now result }
{
    let Some((blocks, files)) = section_behind(text, b"docfiles") else {
        return Some(text);
    };
    let rest = doc_files_behind(files)?;
    if blocks == 0 && rest.len() == files.len() {
        None
    } else {
        Some(rest)
    }
}
