//! What is known of a package.
ghost use Rattle.std.specs.Prelude.{◌≡◌, ◌≤◌, [], ◌++◌, ◌∷◌, length, option_copied, string_bytes, true, IfOk, OnOk};
ghost use Rattle.tl_model.specs.Lines.{IsLine};
ghost use Rattle.tl_path.specs.Names.{is_tag};
ghost use Rattle.tl_pin.specs.Candidates.{candidate_of};
ghost use Rattle.tl_report.specs.Info.{candidate_text, known_line, fact_word, installed_text, package_lines, revision_text, shortdesc_lines};
ghost use Rattle.tl_report.specs.Lines.{IsReportLine};

use crate::lines::Lines;
use std::alloc::{AllocError, Global};
use tl_db::{Db, Repo};
use tl_entry::Object;
use tl_path::{Name, Tag};
use tl_pin::{Pins, candidate};
use tl_text::Text;

/// What is said of a package.
#[derive(Clone, Copy)]
pub(crate) enum Fact {
    /// Its name.
    Package,
    /// Its category in the view.
    Category,
    /// Its short description in the view.
    Shortdesc,
    /// The revision that is installed.
    Installed,
    /// The repository and the revision of its candidate.
    Candidate,
}

impl Fact {
    fn word(self) -> &'static str
        ensures { result.now ≡ fact_word self }
    {
        match self {
            Fact::Package => "package",
            Fact::Category => "category",
            Fact::Shortdesc => "shortdesc",
            Fact::Installed => "installed",
            Fact::Candidate => "candidate",
        }
    }
}

// The line of a fact.
fn fact_line(alloc: Global, fact: Fact, about: &str) -> Result<String, AllocError>
    requires { IsLine about.now }
    ensures line { IfOk result (λ line. string_bytes line ≡ known_line fact about.now) }
    ensures report { IfOk result (λ line. IsReportLine (string_bytes line)) }
{
    let word = fact.word();
    format!(in alloc; "{word} {about}")
}

// Adds the line of a fact.
fn add_fact(alloc: Global, lines: &mut Lines, fact: Fact, about: &str) -> Result<(), AllocError>
    requires { IsLine about.now }
    ensures { OnOk result (lines.new ≡ lines.old ++ known_line fact about.now ∷ []) }
{
    lines.add(fact_line(alloc, fact, about)?)
}

// Adds the line of a short description, where there is one.
fn add_shortdesc(
    alloc: Global,
    lines: &mut Lines,
    shortdesc: &Option<Text>,
) -> Result<(), AllocError>
    ensures { OnOk result (lines.new ≡ lines.old ++ shortdesc_lines shortdesc.now) }
{
    match shortdesc {
        Some(text) => add_fact(alloc, lines, Fact::Shortdesc, text.text()),
        None => Ok(()),
    }
}

// A revision as it is said.
fn revision_text(alloc: Global, revision: u32) -> Result<String, AllocError>
    ensures text { IfOk result (λ text. string_bytes text ≡ revision_text revision) }
    ensures line { IfOk result (λ text. IsLine (string_bytes text)) }
{
    format!(in alloc; "r{revision}")
}

/// The tag of a repository, and a revision there.
pub(crate) fn offer_text(alloc: Global, tag: &Tag, revision: u32) -> Result<String, AllocError>
    ensures text { IfOk result (λ text. string_bytes text ≡ tag.now ++ 32 ∷ revision_text revision) }
    ensures line { IfOk result (λ text. IsLine (string_bytes text)) }
    ensures tag { is_tag tag.now ≡ true }
{
    let tag = tag.text();
    format!(in alloc; "{tag} r{revision}")
}

// What is said of an installed entry.
fn installed_text(alloc: Global, entry: Option<&Object>) -> Result<String, AllocError>
    ensures text { IfOk result (λ text. string_bytes text ≡ installed_text (option_copied entry.entry)) }
    ensures line { IfOk result (λ text. IsLine (string_bytes text)) }
{
    match entry {
        Some(entry) => revision_text(alloc, entry.revision),
        None => String::from_str(alloc, "no"),
    }
}

// What is said of a candidate.
fn candidate_text(
    alloc: Global,
    pins: &Pins,
    repos: &[Repo],
    name: &Name,
) -> Result<String, AllocError>
    requires { length repos.now ≤ 16 }
    ensures text { IfOk result (λ text. string_bytes text ≡ candidate_text repos.now (candidate_of pins.now repos.now name.now)) }
    ensures line { IfOk result (λ text. IsLine (string_bytes text)) }
{
    match candidate(pins, repos, name) {
        Some((place, revision)) => offer_text(alloc, &repos[place as usize].tag, revision),
        None => String::from_str(alloc, "none"),
    }
}

/// What is said of a package whose entry in the view is this one.
pub(crate) fn package_lines(
    alloc: Global,
    pins: &Pins,
    repos: &[Repo],
    installed: &Db,
    name: &Name,
    entry: &Object,
) -> Result<Lines, AllocError>
    requires { length repos.now ≤ 16 }
    ensures { IfOk result (λ lines. lines ≡ package_lines pins.now repos.now installed.now name.now entry.now) }
{
    let installed = installed_text(alloc, installed.get(name))?;
    let candidate = candidate_text(alloc, pins, repos, name)?;
    let mut lines = Lines::new(alloc);
    add_fact(alloc, &mut lines, Fact::Package, name.text())?;
    add_fact(alloc, &mut lines, Fact::Category, entry.category.text())?;
    add_shortdesc(alloc, &mut lines, &entry.shortdesc)?;
    add_fact(alloc, &mut lines, Fact::Installed, installed.as_str())?;
    add_fact(alloc, &mut lines, Fact::Candidate, candidate.as_str())?;
    Ok(lines)
}
