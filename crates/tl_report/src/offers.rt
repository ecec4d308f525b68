//! `candidates`: the repositories that have a package.
ghost use Rattle.std.specs.Prelude.{◌≡◌, ◌≤◌, length, Some, string_bytes, IfOk, IfErr};
ghost use Rattle.tl_model.specs.Acks.{IsPlain};
ghost use Rattle.tl_pin.specs.Candidates.{candidate_of};
ghost use Rattle.tl_report.specs.Lines.{IsReportLine};
ghost use Rattle.tl_report.specs.Offers.{IsUnreported, candidates_text, is_chosen, chosen_mark, offer_line, offers_from};

use crate::error::ReportError;
use crate::facts::offer_text;
use crate::lines::Lines;
use std::alloc::{AllocError, Global};
use tl_db::Repo;
use tl_path::{Name, Tag};
use tl_pin::{Pins, candidate};

// What stands behind the line of a repository.
fn mark_text(marked: bool) -> &'static str
    ensures { result.now ≡ chosen_mark marked }
{
    if marked { " *" } else { "" }
}

// The line of a repository that has a package.
fn offer_line(alloc: Global, tag: &Tag, revision: u32, marked: bool) -> Result<String, AllocError>
    ensures line { IfOk result (λ line. string_bytes line ≡ offer_line tag.now revision marked) }
    ensures report { IfOk result (λ line. IsReportLine (string_bytes line)) }
{
    let mut line = offer_text(alloc, tag, revision)?;
    line.push_str(mark_text(marked))?;
    Ok(line)
}

// Whether the candidate is at a place.
fn is_chosen(chosen: Option<(u32, u32)>, place: usize) -> bool
    ensures { result ≡ is_chosen chosen place }
{
    match chosen {
        Some((at, _)) => at as usize == place,
        None => false,
    }
}

// A line for each repository that has a package.
fn offer_lines(alloc: Global, pins: &Pins, repos: &[Repo], name: &Name) -> Result<Lines, AllocError>
    requires { length repos.now ≤ 16 }
    ensures { IfOk result (λ lines. lines ≡ offers_from (candidate_of pins.now repos.now name.now) 0 repos.now name.now) }
{
    let chosen = candidate(pins, repos, name);
    let mut lines = Lines::new(alloc);
    for (place, repo) in repos.iter().enumerate() {
        if let Some(entry) = repo.db.get(name) {
            let marked = is_chosen(chosen, place);
            lines.add(offer_line(alloc, &repo.tag, entry.revision, marked)?)?;
        }
    }
    Ok(lines)
}

/// A line for each repository that has a package, in their order: its tag, its revision there, and a mark behind the candidate's; none
/// is an acknowledgement. `UnknownPackage` comes exactly where no repository has it. It looks the package up in each.
pub fn candidates(
    alloc: Global,
    pins: &Pins,
    repos: &[Repo],
    name: &Name,
) -> Result<Vec<u8>, ReportError>
    requires { length repos.now ≤ 16 }
    ensures text { IfOk result (λ text. candidates_text pins.now repos.now name.now ≡ Some text.items) }
    ensures plain { IfOk result (λ text. IsPlain text.items) }
    ensures error { IfErr result (IsUnreported (candidates_text pins.now repos.now name.now)) }
{
    let lines = offer_lines(alloc, pins, repos, name)?;
    if lines.is_empty() {
        return Err(ReportError::UnknownPackage);
    }
    Ok(lines.to_text(alloc)?)
}
