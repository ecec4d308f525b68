//! The candidate of a name.
ghost use Rattle.std.specs.Prelude.{◌≡◌, ◌<◌, ◌≤◌, Some, None, length, option_map, MatchOption, IfSome};
ghost use Rattle.std.specs.List.{list_any};
ghost use Rattle.tl_glob.specs.Matches.{is_match};
ghost use Rattle.tl_pin.specs.Candidates.{entry_under, has_glob_for, candidate_of};

use crate::line::PinLine;
use crate::pins::Pins;
use tl_db::Repo;
use tl_glob::Glob;
use tl_object::Object;
use tl_path::Name;

const MAIN: &[u8] = b"main";

fn stands_for(globs: &[Glob], name: &[u8]) -> bool
    ensures { result ≡ list_any (λ glob. is_match glob name.now) globs.now }
{
    globs.iter().any(|glob| glob.matches(name))
}

impl PinLine {
    fn has_glob_for(&self, name: &Name) -> bool
        ensures { result ≡ has_glob_for name.now self.now }
    {
        stands_for(self.globs.as_slice(), name.bytes())
    }
}

// The place of the first repository with a tag, and the entry that it has for a name.
fn entry_under<'r>(repos: &'r [Repo], tag: &[u8], name: &Name) -> Option<(usize, &'r Object)>
    ensures entry { MatchOption result (entry_under 0 repos.now tag.now name.now ≡ None)
        (λ found. entry_under 0 repos.now tag.now name.now ≡ Some (found.0, found.1.now)) }
    ensures place { IfSome result (λ found. found.0 < length repos.now) }
{
    for (at, repo) in repos.iter().enumerate() {
        if repo.tag.bytes() == tag {
            return match repo.db.get(name) {
                Some(entry) => Some((at, entry)),
                None => None,
            };
        }
    }
    None
}

// The place of a name's candidate, and its entry there.
pub(crate) fn chosen<'r>(pins: &Pins, repos: &'r [Repo], name: &Name) -> Option<(usize, &'r Object)>
    ensures entry { MatchOption result (candidate_of pins.now repos.now name.now ≡ None)
        (λ found. candidate_of pins.now repos.now name.now ≡ Some (found.0, found.1.now)) }
    ensures place { IfSome result (λ found. found.0 < length repos.now) }
{
    for pin in &pins.lines {
        if pin.has_glob_for(name) {
            if let Some(found) = entry_under(repos, pin.tag.bytes(), name) {
                return Some(found);
            }
        }
    }
    entry_under(repos, MAIN, name)
}

/// A name's candidate: the place of its repository among these and its revision there. It is given by the first pin that has a glob
/// for the name and whose repository, the first with the pin's tag, has the name; behind all pins stands `main:*`. `None` exactly
/// where no pin gives one. Takes no memory.
pub fn candidate(pins: &Pins, repos: &[Repo], name: &Name) -> Option<(u32, u32)>
    requires { length repos.now ≤ 16 }
    ensures { result ≡ option_map (λ c. (c.0, c.1.revision)) (candidate_of pins.now repos.now name.now) }
{
    match chosen(pins, repos, name) {
        Some((at, entry)) => Some((at as u32, entry.revision)),
        None => None,
    }
}
