//! `search`: the packages that a word stands in.
ghost use Rattle.std.specs.Prelude.{◌≡◌, map, filter, string_bytes, IfOk};
ghost use Rattle.tl_model.specs.Acks.{IsPlain};
ghost use Rattle.tl_report.specs.Lines.{IsReportLine};
ghost use Rattle.tl_report.specs.Search.{found_line, has_bytes, is_about, search_text};

use crate::lines::Lines;
use crate::packages::shortdesc_of;
use crate::view::view_entries;
use memchr::memmem::Finder;
use std::alloc::{AllocError, Global};
use tl_db::{Db, Repo};
use tl_entry::Object;
use tl_host::Host;
use tl_pin::Pins;
use tl_tree::Tree;

// Whether a text has the bytes of a word.
fn has_bytes(word: &Finder<'_>, text: &[u8]) -> bool
    ensures { result ≡ has_bytes word.now text.now }
{
    word.find(text).is_some()
}

// Whether the name or the short description of an entry has them.
fn is_about(word: &Finder<'_>, entry: &Object) -> bool
    ensures { result ≡ is_about word.now entry.now }
{
    has_bytes(word, entry.name.bytes()) || has_bytes(word, shortdesc_of(entry).as_bytes())
}

// The line of an entry that was found.
fn found_line(alloc: Global, entry: &Object) -> Result<String, AllocError>
    ensures line { IfOk result (λ line. string_bytes line ≡ found_line entry.now) }
    ensures report { IfOk result (λ line. IsReportLine (string_bytes line)) }
{
    let (name, shortdesc) = (entry.name.text(), shortdesc_of(entry));
    format!(in alloc; "{name} - {shortdesc}")
}

// A line for each of some entries that the word stands in.
fn found_lines(alloc: Global, word: &Finder<'_>, entries: &[&Object]) -> Result<Lines, AllocError>
    ensures { IfOk result (λ lines. lines ≡ map found_line (filter (is_about word.now) (map (λ e. e.now) entries.now))) }
{
    let mut lines = Lines::new(alloc);
    for entry in entries {
        if is_about(word, entry) {
            lines.add(found_line(alloc, entry)?)?;
        }
    }
    Ok(lines)
}

// The lines of the packages that a word stands in, as a text.
fn search_text(
    alloc: Global,
    pins: &Pins,
    repos: &[Repo],
    installed: &Db,
    word: &[u8],
) -> Result<Vec<u8>, AllocError>
    ensures text { IfOk result (λ text. text.items ≡ search_text pins.now repos.now installed.now word.now) }
    ensures plain { IfOk result (λ text. IsPlain text.items) }
{
    let entries = view_entries(alloc, pins, repos, installed)?;
    let word = Finder::new(word);
    found_lines(alloc, &word, &entries)?.to_text(alloc)
}

/// A line for each package of the view whose name or short description has the bytes of a word, in the order of their names; none is an
/// acknowledgement. It sorts the names once, and looks at each entry once.
pub fn search<H: Host>(
    alloc: Global,
    tree: &Tree<H>,
    pins: &Pins,
    repos: &[Repo],
    word: &[u8],
) -> Result<Vec<u8>, AllocError>
    ensures text { IfOk result (λ text. text.items ≡ search_text pins.now repos.now tree.now.db word.now) }
    ensures plain { IfOk result (λ text. IsPlain text.items) }
{
    search_text(alloc, pins, repos, tree.db(), word)
}
