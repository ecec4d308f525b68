//! Which part of a plan is the last with a file that touches a path.
ghost use Rattle.std.specs.Prelude.{◌≡◌, ◌<◌, length, ◌&&◌, ◌||◌, ◌++◌, ◌∷◌, [], ℕ, List, map, drop, nat_lt, OnOk, IfOk};
ghost use Rattle.std.specs.List.{list_any, flat_map};
ghost use Rattle.std.specs.Str.{bytes_eq};
ghost use Rattle.tl_path.specs.Components.{is_below, is_touching};
ghost use Rattle.tl_entry.specs.declared.object.Object.{Object};
ghost use Rattle.tl_tree.specs.Changes.{own};
ghost use Rattle.tl_coming.specs.Parts.{files_with};
ghost use Rattle.tl_coming.specs.declared.part.PlanPart.{PlanPart};
ghost use Rattle.tl_coming.specs.Lasts.{Noted, AreNoted, AreNumbered, AreLast, number_at, is_noted, ends_at, files_noted};

use crate::owned::own_files;
use crate::part::PlanPart;
use indexmap::IndexMap;
use std::alloc::{AllocError, Global};
use tl_db::Db;
use tl_object::Object;
use tl_path::Path;

type Numbers = IndexMap<Vec<u8>, usize>;

/// The greatest numbers of parts that have a file at a path, and of those that have one below a folder.
#[derive(Drop)]
pub struct Lasts {
    files: Numbers,
    folders: Numbers,
}

// The number at a text, 0 where none is noted.
fn number_at(numbers: &Numbers, text: &[u8]) -> usize
    ensures { result ≡ number_at numbers.now text.now }
{
    match numbers.get(text) {
        Some(number) => *number,
        None => 0,
    }
}

// Notes a number at a text, unless a greater one is noted there.
fn note(alloc: Global, numbers: &mut Numbers, text: &[u8], number: usize) -> Result<(), AllocError>
    ensures { OnOk result ((least : ℕ) (other : List ℕ) → nat_lt least (number_at numbers.new other)
        ≡ (nat_lt least (number_at numbers.old other) || nat_lt least number && bytes_eq other text.now)) }
{
    let greater = number.max(number_at(numbers, text));
    numbers.insert(Vec::from_slice(alloc, text)?, greater)?;
    Ok(())
}

// Notes a number at the folder before a place of a path, where a '/' stands there.
fn note_folder(
    alloc: Global,
    numbers: &mut Numbers,
    path: &[u8],
    end: usize,
    number: usize,
) -> Result<(), AllocError>
    requires { end < length path.now }
    ensures { OnOk result ((least : ℕ) (folder : List ℕ) → nat_lt least (number_at numbers.new folder)
        ≡ (nat_lt least (number_at numbers.old folder) || nat_lt least number && ends_at path.now end folder)) }
{
    if path[end] == b'/' {
        note(alloc, numbers, &path[..end], number)
    } else {
        Ok(())
    }
}

// Notes a number at each folder that a path is below.
fn note_folders(
    alloc: Global,
    numbers: &mut Numbers,
    path: &[u8],
    number: usize,
) -> Result<(), AllocError>
    ensures { OnOk result ((least : ℕ) (folder : List ℕ) → nat_lt least (number_at numbers.new folder)
        ≡ (nat_lt least (number_at numbers.old folder) || nat_lt least number && is_below path.now folder)) }
{
    for end in 0..path.len() {
        note_folder(alloc, numbers, path, end, number)?;
    }
    Ok(())
}

// The numbers of the last parts of a plan that speak of packages, by their names.
fn numbers_of(alloc: Global, plan: &[PlanPart]) -> Result<Numbers, AllocError>
    ensures { IfOk result (λ numbers. AreNumbered plan.now numbers) }
{
    let mut numbers = IndexMap::new(alloc);
    for (place, part) in plan.iter().enumerate() {
        note(alloc, &mut numbers, part.name().bytes(), place + 1)?;
    }
    Ok(numbers)
}

impl Lasts {
    // Notes a file of a part.
    fn note_file(&mut self, alloc: Global, file: &Path, number: usize) -> Result<(), AllocError>
        ensures { OnOk result ((noted : List Noted) → AreNoted noted self.old → AreNoted (noted ++ (number, file.now) ∷ []) self.new) }
    {
        note(alloc, &mut self.files, file.bytes(), number)?;
        note_folders(alloc, &mut self.folders, file.bytes(), number)
    }

    // Notes the files of a part.
    fn note_files(&mut self, alloc: Global, files: &[Path], number: usize) -> Result<(), AllocError>
        ensures { OnOk result ((noted : List Noted) → AreNoted noted self.old
            → AreNoted (noted ++ map (λ file. (number, file)) files.now) self.new) }
    {
        for file in files {
            self.note_file(alloc, file, number)?;
        }
        Ok(())
    }

    // Notes the files of an entry, where a part has a number for it.
    fn note_entry(
        &mut self,
        alloc: Global,
        numbers: &Numbers,
        entry: &Object,
    ) -> Result<(), AllocError>
        ensures { OnOk result ((noted : List Noted) → AreNoted noted self.old
            → AreNoted (noted ++ map (λ file. (number_at numbers.now entry.now.name, file)) (own entry.now)) self.new) }
    {
        let number = number_at(numbers, entry.name.bytes());
        if number == 0 {
            return Ok(());
        }
        let files = own_files(alloc, entry)?;
        self.note_files(alloc, &files, number)
    }

    // Notes the files of all entries for which parts have numbers.
    fn note_entries(&mut self, alloc: Global, numbers: &Numbers, db: &Db) -> Result<(), AllocError>
        ensures { OnOk result ((noted : List Noted) → AreNoted noted self.old
            → AreNoted (noted ++ files_noted (number_at numbers.now) db.now) self.new) }
    {
        for entry in db.entries() {
            self.note_entry(alloc, numbers, entry)?;
        }
        Ok(())
    }

    /// The last parts of a plan, by the files of the installed packages that they speak of. It takes time in proportion to these files.
    pub fn of(alloc: Global, db: &Db, plan: &[PlanPart]) -> Result<Lasts, AllocError>
        ensures { IfOk result (λ lasts. AreLast db.now plan.now lasts) }
    {
        let numbers = numbers_of(alloc, plan)?;
        let files = IndexMap::new(alloc);
        let folders = IndexMap::new(alloc);
        let mut lasts = Lasts { files, folders };
        lasts.note_entries(alloc, &numbers, db)?;
        Ok(lasts)
    }

    // The number of the folder before a place of a path, where a '/' stands there; else 0.
    fn number_before(&self, path: &[u8], end: usize) -> usize
        requires { end < length path.now }
        ensures { (noted : List Noted) → AreNoted noted self.now → (least : ℕ) → nat_lt least result ≡ is_noted least (ends_at path.now end) noted }
    {
        if path[end] == b'/' {
            number_at(&self.files, &path[..end])
        } else {
            0
        }
    }

    // The greatest number of a part with a file that a path is below.
    fn last_above(&self, path: &[u8]) -> usize
        ensures { (noted : List Noted) → AreNoted noted self.now → (least : ℕ) → nat_lt least result ≡ is_noted least (is_below path.now) noted }
    {
        let mut last: usize = 0;
        for end in 0..path.len() {
            last = last.max(self.number_before(path, end));
        }
        last
    }

    /// The greatest number of a part with a file that touches a path, 0 where none does. Takes no memory.
    pub fn last_touching(&self, path: &Path) -> usize
        ensures { (db : List Object) (plan : List PlanPart) → AreLast db plan self.now → (least : ℕ)
            → nat_lt least result ≡ list_any (is_touching path.now) (flat_map (files_with db) (drop least plan)) }
    {
        let text = path.bytes();
        let above = self.last_above(text);
        let below = number_at(&self.folders, text);
        let at = number_at(&self.files, text);
        let beside = above.max(below);
        at.max(beside)
    }
}
