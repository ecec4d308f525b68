//! `which`: the paths of a name.
ghost use Rattle.std.specs.Prelude.{◌≡◌, ◌≤◌, ◌++◌, ◌∷◌, [], length, vec_len, IfOk, IfSome, OnOk};
ghost use Rattle.std.specs.Option.{option_map};
ghost use Rattle.tl_kind.specs.declared.quantity.What.TheVariants.{Database};
ghost use Rattle.tl_kind.specs.Quantities.{limit_of};
ghost use Rattle.tl_lsr.specs.Reading.{lsr_read, paths_named};
ghost use Rattle.tl_tree.specs.Planted.{database_text};
ghost use Rattle.tl_model.specs.Lines.{text_of};
ghost use Rattle.tl_command.specs.Endings.{no_devices};
ghost use Rattle.tl_command.specs.Performs.{Performs};
ghost use Rattle.tl_command.specs.Runs.{over_database, saying};
ghost use Rattle.tl_show.specs.Which.{list_run, listed_run, which_run};
ghost use Rattle.tl_model.specs.Acks.{IsPlain};

use std::alloc::{AllocError, Global};
use tl_command::{Acted, Refusal, Session, give_up, load, read_file, refuse, say};
use tl_host::Host;
use tl_kind::What;
use tl_lsr::{Lsr, LsrError, read};
use tl_path::{Path, PathRef};
use tl_tree::Tree;

// Adds the line of a path.
fn push_path(lines: &mut Vec<u8>, path: &Path) -> Result<(), AllocError>
    ensures line { OnOk result (lines.new.items ≡ lines.old.items ++ (path.now ++ 10 ∷ [])) }
    ensures plain { OnOk result (IsPlain lines.old.items → IsPlain lines.new.items) }
{
    lines.extend_from_slice(path.bytes())?;
    lines.push(b'\n')?;
    Ok(())
}

// A line for each path.
#[tactic(auto, using(crate::proofs::PathLines::text_of_more))]
fn lines_of(alloc: Global, paths: &[Path]) -> Result<Vec<u8>, AllocError>
    ensures lines { IfOk result (λ lines. lines.items ≡ text_of paths.now) }
    ensures plain { IfOk result (λ lines. IsPlain lines.items) }
{
    let mut lines = Vec::new(alloc);
    for path in paths {
        push_path(&mut lines, path)?;
    }
    Ok(lines)
}

// The lines of the paths whose last component is the name.
fn lines_named(alloc: Global, name: &[u8], lsr: &Lsr) -> Result<Vec<u8>, AllocError>
    ensures lines { IfOk result (λ lines. lines.items ≡ text_of (paths_named name.now lsr.now)) }
    ensures plain { IfOk result (λ lines. IsPlain lines.items) }
{
    let paths = lsr.find(alloc, name)?;
    lines_of(alloc, &paths)
}

// Says the paths that are listed and whose last component is the name.
fn say_named<H: Host>(alloc: Global, name: &[u8], lsr: &Lsr, tree: Tree<H>) -> Acted<H>
    ensures { Performs H.tells H.seen (λ _. saying (text_of (paths_named name.now lsr.now)))
        0 tree.seen no_devices no_devices result.ending result.state }
{
    match lines_named(alloc, name, lsr) {
        Ok(lines) => say(&lines, Session::of_tree(tree)),
        Err(_) => give_up(Session::of_tree(tree)),
    }
}

// Says the paths that a text lists and whose last component is the name.
fn say_listed<H: Host>(alloc: Global, name: &[u8], text: &[u8], tree: Tree<H>) -> Acted<H>
    requires { length text.now ≤ limit_of Database }
    ensures { Performs H.tells H.seen (λ _. listed_run name.now (lsr_read text.now))
        0 tree.seen no_devices no_devices result.ending result.state }
{
    match read(alloc, text) {
        Ok(lsr) => say_named(alloc, name, &lsr, tree),
        Err(LsrError::BadLsr { line }) => {
            refuse(alloc, Refusal::BadLsr { line }, Session::of_tree(tree))
        }
        Err(LsrError::NoMemory) => give_up(Session::of_tree(tree)),
        Err(LsrError::TooLarge { .. }) => unreachable!(),
    }
}

// Says what the file of the list, where it is there, lists under the name.
fn say_found<H: Host>(alloc: Global, name: &[u8], found: Option<Vec<u8>>, tree: Tree<H>) -> Acted<H>
    requires { IfSome found (λ text. vec_len text ≤ limit_of Database) }
    ensures { Performs H.tells H.seen (λ _. list_run name.now (option_map (λ v. v.items) found))
        0 tree.seen no_devices no_devices result.ending result.state }
{
    match found {
        Some(text) => say_listed(alloc, name, &text, tree),
        None => refuse(alloc, Refusal::NoLsr, Session::of_tree(tree)),
    }
}

// Says the paths that the file of a tree lists and whose last component is the name.
fn search<H: Host>(alloc: Global, name: &[u8], tree: Tree<H>) -> Acted<H>
    ensures { Performs H.tells H.seen (λ t. which_run name.now t) 0 tree.seen no_devices no_devices result.ending result.state }
{
    let path = PathRef::known("texmf-dist/ls-R");
    match read_file(alloc, What::Database, path, tree) {
        Ok((found, tree)) => say_found(alloc, name, found, tree),
        Err(acted) => acted,
    }
}

/// Carries `which` out: says the paths that `texmf-dist/ls-R` lists and whose last component is the name, one a line.
///
/// `NoLsr` where the file is absent; `TooLarge` of `Database` where it passes 268,435,456 bytes; else `BadLsr` at its first line that
/// can't stand where it does.
pub fn which<H: Host>(alloc: Global, name: &[u8], session: Session<H>) -> Acted<H>
    ensures { Performs H.tells H.seen (λ tree. over_database (λ _. which_run name.now tree) (database_text tree))
        0 session no_devices no_devices result.ending result.state }
{
    match load(alloc, session) {
        Ok(tree) => search(alloc, name, tree),
        Err(acted) => acted,
    }
}
