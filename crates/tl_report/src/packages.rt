//! `info`: what is known of a package, or of all.
ghost use Rattle.std.specs.Prelude.{◌≡◌, ◌≤◌, is_some, length, map, option_copied, Some, string_bytes, IfOk, IfErr};
ghost use Rattle.tl_model.specs.Acks.{IsPlain};
ghost use Rattle.tl_model.specs.Lines.{IsLine};
ghost use Rattle.tl_db.specs.Entries.{entry_of};
ghost use Rattle.tl_report.specs.Info.{info_text, listing_line, listing_text, package_text, shortdesc_or_empty, standing_text};
ghost use Rattle.tl_report.specs.Lines.{IsReportLine};
ghost use Rattle.tl_report.specs.Offers.{IsUnreported};
ghost use Rattle.tl_report.specs.View.{view_entries};

use crate::error::ReportError;
use crate::facts::package_lines;
use crate::lines::Lines;
use crate::view::view_entries;
use std::alloc::{AllocError, Global};
use tl_db::{Db, Repo};
use tl_entry::Object;
use tl_host::Host;
use tl_path::Name;
use tl_pin::{Pins, view_entry};
use tl_tree::Tree;

/// The short description of an entry, empty where it has none.
pub(crate) fn shortdesc_of(entry: &Object) -> &str
    ensures text { result.now ≡ shortdesc_or_empty entry.now }
    ensures line { IsLine (shortdesc_or_empty entry.now) }
{
    match &entry.shortdesc {
        Some(text) => text.text(),
        None => "",
    }
}

// Whether a package is installed, as it is said among all.
fn standing_text(installed: bool) -> &'static str
    ensures { result.now ≡ standing_text installed }
{
    if installed { "i" } else { "-" }
}

// Whether a package is installed.
fn is_installed(installed: &Db, name: &Name) -> bool
    ensures { result ≡ is_some (entry_of name.now installed.now) }
{
    installed.get(name).is_some()
}

// The line of a package among all.
fn listing_line(alloc: Global, installed: &Db, entry: &Object) -> Result<String, AllocError>
    ensures line { IfOk result (λ line. string_bytes line ≡ listing_line installed.now entry.now) }
    ensures report { IfOk result (λ line. IsReportLine (string_bytes line)) }
{
    let (name, shortdesc) = (entry.name.text(), shortdesc_of(entry));
    let standing = standing_text(is_installed(installed, &entry.name));
    format!(in alloc; "{standing} {name}: {shortdesc}")
}

// A line for each of some entries.
fn listing_lines(alloc: Global, installed: &Db, entries: &[&Object]) -> Result<Lines, AllocError>
    ensures { IfOk result (λ lines. lines ≡ map (listing_line installed.now) (map (λ e. e.now) entries.now)) }
{
    let mut lines = Lines::new(alloc);
    for entry in entries {
        lines.add(listing_line(alloc, installed, entry)?)?;
    }
    Ok(lines)
}

// What is said of all packages.
fn listing_text(
    alloc: Global,
    pins: &Pins,
    repos: &[Repo],
    installed: &Db,
) -> Result<Vec<u8>, AllocError>
    ensures text { IfOk result (λ text. text.items ≡ listing_text pins.now repos.now installed.now) }
    ensures plain { IfOk result (λ text. IsPlain text.items) }
{
    let entries = view_entries(alloc, pins, repos, installed)?;
    listing_lines(alloc, installed, &entries)?.to_text(alloc)
}

// What is said of a package.
fn package_text(
    alloc: Global,
    pins: &Pins,
    repos: &[Repo],
    installed: &Db,
    name: &Name,
) -> Result<Vec<u8>, ReportError>
    requires { length repos.now ≤ 16 }
    ensures text { IfOk result (λ text. package_text pins.now repos.now installed.now name.now ≡ Some text.items) }
    ensures plain { IfOk result (λ text. IsPlain text.items) }
    ensures error { IfErr result (IsUnreported (package_text pins.now repos.now installed.now name.now)) }
{
    let Some(entry) = view_entry(pins, repos, installed, name) else {
        return Err(ReportError::UnknownPackage);
    };
    let lines = package_lines(alloc, pins, repos, installed, name, entry)?;
    Ok(lines.to_text(alloc)?)
}

/// What is known of a package, or of all: of one its name, its category and short description in the view, the installed revision and the
/// candidate; of all a line for each, in the order of their names. None is an acknowledgement. `UnknownPackage` comes exactly where the
/// package is neither installed nor has a candidate. A package is looked up; all cost one sort of their names.
pub fn info<H: Host>(
    alloc: Global,
    tree: &Tree<H>,
    pins: &Pins,
    repos: &[Repo],
    name: Option<&Name>,
) -> Result<Vec<u8>, ReportError>
    requires { length repos.now ≤ 16 }
    ensures text { IfOk result (λ text. info_text pins.now repos.now tree.now.db (option_copied name.entry) ≡ Some text.items) }
    ensures plain { IfOk result (λ text. IsPlain text.items) }
    ensures error { IfErr result (IsUnreported (info_text pins.now repos.now tree.now.db (option_copied name.entry))) }
{
    match name {
        Some(name) => package_text(alloc, pins, repos, tree.db(), name),
        None => Ok(listing_text(alloc, pins, repos, tree.db())?),
    }
}
