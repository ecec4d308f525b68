//! The paths that a text lists.
ghost use Rattle.std.specs.Prelude.{◌≡◌, List, ℕ, ◌≤◌, ◌&&◌, ◌∷◌, [], Ok, IfOk, MatchResult, length, bytes_eq, nat_eq, nat_le};
ghost use Rattle.std.specs.List.{ends_with};
ghost use Rattle.tl_model.specs.Lines.{lines};
ghost use Rattle.tl_lsr.specs.Lists.{lsr_text, AreListable};
ghost use Rattle.tl_lsr.specs.Reading.{lsr_read, base_name, paths_named, lines_taken, may_end};
ghost use Rattle.tl_lsr.specs.Errors.{IsLsrErrorOf, IsTakenFault, IsNoLine};

use crate::cut::cut_line;
use crate::error::LsrError;
use crate::reader::Reader;
use std::alloc::{AllocError, Global};
use std::marker::Model;
use tl_kind::What;
use tl_path::Path;

/// The paths that a text lists, in the order of their bytes.
#[derive(Drop)]
pub struct Lsr {
    paths: Vec<Path>,
}

impl Model for Lsr {
    ghost use Rattle.std.specs.Prelude.{List, ℕ};

    ghost Value = { List (List ℕ) };

    ghost view = { λ a. a.paths.items };
}

// Whether a path's last component is this.
fn has_base_name(path: &Path, name: &[u8]) -> bool
    ensures { result ≡ bytes_eq (base_name path.now) name.now }
{
    let mut base: &[u8] = &[];
    for component in path.components() {
        base = component;
    }
    base == name
}

impl Lsr {
    /// The paths whose last component is this name, in the order of their bytes. One walk over all paths.
    pub fn find(&self, alloc: Global, name: &[u8]) -> Result<Vec<Path>, AllocError>
        ensures { IfOk result (λ found. found.items ≡ paths_named name.now self.now) }
    {
        let mut found = Vec::new(alloc);
        for path in &self.paths {
            if has_base_name(path, name) {
                found.push(path.clone()?)?;
            }
        }
        Ok(found)
    }
}

// Takes the lines of a text, and counts them.
fn take_lines(alloc: Global, reader: &mut Reader, text: &[u8]) -> Result<u32, LsrError>
    requires { length text.now ≤ 268435456 }
    ensures { MatchResult result (λ count. (lines_taken 0 reader.old (lines text.now) ≡ Ok reader.new)
        × (count ≡ length (lines text.now)) × (count ≤ length text.now)) (IsTakenFault (lines_taken 0 reader.old (lines text.now))) }
{
    let mut rest = text;
    let mut before = 0;
    while !rest.is_empty() {
        let (line, behind) = cut_line(rest);
        if !reader.take_line(alloc, before, line)? {
            return Err(LsrError::BadLsr { line: before + 1 });
        }
        rest = behind;
        before += 1;
    }
    Ok(before)
}

// Whether a text of so many lines may end where it does.
fn is_whole(text: &[u8], count: u32, reader: &Reader) -> bool
    ensures { result ≡ (ends_with nat_eq text.now (10 ∷ []) && (nat_le 2 count && may_end reader.now)) }
{
    text.ends_with(b"\n") && count >= 2 && reader.may_end()
}

// Reads a text within its limit.
fn read_lines(alloc: Global, text: &[u8]) -> Result<Lsr, LsrError>
    requires { length text.now ≤ 268435456 }
    ensures { MatchResult result (λ lsr. lsr_read text.now ≡ Ok lsr) (IsLsrErrorOf text.now) }
{
    let mut reader = Reader::new(alloc)?;
    let count = take_lines(alloc, &mut reader, text)?;
    if !is_whole(text, count, &reader) {
        return Err(LsrError::BadLsr { line: count + 1 });
    }
    let paths = reader.into_paths(alloc)?;
    Ok(Lsr { paths })
}

/// Reads the text that lists paths, in one pass; n paths cost n log n comparisons. `TooLarge` of `Database` where the text passes
/// 268,435,456 bytes; else `BadLsr` at the first line that can't stand where it does, or behind the last line where the text only lacks
/// something.
pub fn read(alloc: Global, text: &[u8]) -> Result<Lsr, LsrError>
    ensures read { MatchResult result (λ lsr. lsr_read text.now ≡ Ok lsr) (IsLsrErrorOf text.now) }
    ensures listed { IfOk result (λ lsr. (text.now ≡ lsr_text lsr) × AreListable lsr) }
    ensures complete { (paths : List (List ℕ)) → AreListable paths → text.now ≡ lsr_text paths → MatchResult result (λ lsr. lsr ≡ paths) IsNoLine }
{
    if text.len() as u64 > What::Database.limit() {
        return Err(LsrError::TooLarge {
            what: What::Database,
            limit: What::Database.limit(),
        });
    }
    read_lines(alloc, text)
}
