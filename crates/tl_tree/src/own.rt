//! Who owns a path.
ghost use Rattle.std.specs.Prelude.{◌≡◌, List, ℕ, true, false, option_copied, map};
ghost use Rattle.std.specs.List.{flat_map};
ghost use Rattle.tl_path.specs.Reserved.{is_reserved};
ghost use Rattle.tl_entry.specs.Rising.{is_rising, has_key};
ghost use Rattle.tl_tree.specs.Changes.{own, path_of, bin_paths};
ghost use Rattle.tl_tree.specs.Owners.{owner_of};

use tl_db::Db;
use tl_object::{BinFiles, DocFile, Keyed, Object, place_for};
use tl_path::{Name, Path};

fn is_documented(files: &[DocFile], path: &Path) -> bool
    requires { is_rising (λ file. file.path) files.now ≡ true }
    ensures { result ≡ has_key (λ p. p) path.now (map path_of files.now) }
{
    match place_for(files, path.bytes()) {
        Some(_) => false,
        None => true,
    }
}

fn is_binary(bins: &[BinFiles], path: &Path) -> bool
    ensures { result ≡ has_key (λ p. p) path.now (flat_map bin_paths bins.now) }
{
    for bin in bins {
        if bin.paths.has(path.bytes()) {
            return true;
        }
    }
    false
}

// Whether a path that isn't reserved is one of an entry's files.
fn owns(entry: &Object, path: &Path) -> bool
    requires { is_reserved path.now ≡ false }
    ensures { result ≡ has_key (λ p. p) path.now (own entry.now) }
{
    if entry.run.paths.has(path.bytes()) {
        return true;
    }
    if is_documented(entry.doc.files.as_slice(), path) {
        return true;
    }
    if entry.src.paths.has(path.bytes()) {
        return true;
    }
    is_binary(entry.bin.as_slice(), path)
}

/// The least name of an entry among whose files the path is; `None` exactly where no entry has it. Takes no memory.
pub fn owner<'a>(db: &'a Db, path: &Path) -> Option<&'a Name>
    ensures { option_copied result ≡ owner_of path.now db.now }
{
    if path.is_reserved() {
        return None;
    }
    for entry in db.entries() {
        if owns(entry, path) {
            return Some(&entry.name);
        }
    }
    None
}
