//! Which entry has the list among its files, or something above or below it.
ghost use Rattle.std.specs.Prelude.{◌≡◌, IfOk, map, option_map};
ghost use Rattle.std.specs.Option.{option_copied};
ghost use Rattle.std.specs.List.{flat_map, list_any};
ghost use Rattle.tl_path.specs.Components.{is_touching};
ghost use Rattle.tl_lsr.specs.Lists.{list_path};
ghost use Rattle.tl_tree.specs.Changes.{path_of, bin_paths};
ghost use Rattle.tl_refusal.specs.declared.refusal.Refusal.TheVariants.{Owned};
ghost use Rattle.tl_publish.specs.Owning.{touches_list, list_owner, claims_list};

use std::alloc::{AllocError, Global};
use tl_command::Refusal;
use tl_db::Db;
use tl_object::{BinFiles, DocFile, Object, Paths};
use tl_path::{Name, PathRef};

const LIST: &[u8] = b"texmf-dist/ls-R";

const FOLDER: &[u8] = b"texmf-dist";

// Whether a path is the list, or above or below it.
#[tactic(auto, using(crate::proofs::OwnLemmas::touching_list))]
fn touches_path(path: &[u8]) -> bool
    ensures { result ≡ is_touching path.now list_path }
{
    if path == LIST {
        return true;
    }
    if path.starts_with(b"texmf-dist/ls-R/") {
        return true;
    }
    path == FOLDER
}

fn claims_list(path: PathRef<'_>) -> bool
    ensures { result ≡ claims_list path.entry }
{
    touches_path(path.bytes()) && !path.is_reserved()
}

fn have_path_in_way(paths: &Paths) -> bool
    ensures { result ≡ list_any claims_list paths.now }
{
    for path in paths.iter() {
        if claims_list(path) {
            return true;
        }
    }
    false
}

fn have_document_in_way(files: &[DocFile]) -> bool
    ensures { result ≡ list_any claims_list (map path_of files.now) }
{
    for file in files {
        if claims_list(file.path.view()) {
            return true;
        }
    }
    false
}

fn have_binary_in_way(bins: &[BinFiles]) -> bool
    ensures { result ≡ list_any claims_list (flat_map bin_paths bins.now) }
{
    for bin in bins {
        if have_path_in_way(&bin.paths) {
            return true;
        }
    }
    false
}

// Whether a file of an entry is the list, or above or below it.
fn touches_list(entry: &Object) -> bool
    ensures { result ≡ touches_list entry.now }
{
    if have_path_in_way(&entry.run.paths) {
        return true;
    }
    if have_document_in_way(entry.doc.files.as_slice()) {
        return true;
    }
    if have_path_in_way(&entry.src.paths) {
        return true;
    }
    have_binary_in_way(entry.bin.as_slice())
}

// The least name of an entry with such a file.
fn list_owner(db: &Db) -> Option<&Name>
    ensures { option_copied result ≡ list_owner db.now }
{
    for entry in db.entries() {
        if touches_list(entry) {
            return Some(&entry.name);
        }
    }
    None
}

/// The refusal of a list that an entry has among its files, or above or below which it has one; `None` where no entry has. One walk over
/// the files of all entries.
pub(crate) fn owned(alloc: Global, db: &Db) -> Result<Option<Refusal>, AllocError>
    ensures { IfOk result (λ found. found ≡ option_map (λ owner. Owned list_path owner) (list_owner db.now)) }
{
    let Some(owner) = list_owner(db) else {
        return Ok(None);
    };
    let path = PathRef::known("texmf-dist/ls-R").to_path(alloc)?;
    let owner = owner.clone()?;
    Ok(Some(Refusal::Owned { path, owner }))
}
