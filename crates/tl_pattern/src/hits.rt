//! Whether a path is hit, by its components.
ghost use Rattle.std.specs.Prelude.{◌≡◌, true, false, MatchOption};
ghost use Rattle.tl_path.specs.Components.{components};
ghost use Rattle.tl_path.specs.Inside.{components_left};
ghost use Rattle.tl_pattern.specs.Form.{last_of};
ghost use Rattle.tl_pattern.specs.Hits.{hits_file, hits_tree, is_beside, stands_before_last};

use tl_glob::Glob;
use tl_path::{Components, Path};

// The last component of a path that is equal to a file's but for that component.
fn last_beside<'p>(file: &Path, path: &'p Path) -> Option<&'p [u8]>
    ensures { MatchOption result (is_beside (components file.now) (components path.now) ≡ false)
        (λ name. (is_beside (components file.now) (components path.now) ≡ true) × (name.now ≡ last_of (components path.now))) }
{
    let mut names = path.components();
    let mut parts = file.components();
    let mut part = parts.next();
    let mut name = names.next();
    while let (Some(here), Some(there)) = (part, name) {
        part = parts.next();
        name = names.next();
        if part.is_none() {
            return if name.is_none() { Some(there) } else { None };
        }
        if there != here {
            return None;
        }
    }
    None
}

/// Whether two paths are equal but for their last components. Takes no memory.
pub fn is_beside(file: &Path, path: &Path) -> bool
    ensures { result ≡ is_beside (components file.now) (components path.now) }
{
    last_beside(file, path).is_some()
}

// Whether two paths are equal but for the last component, which the glob stands for.
pub(crate) fn hits_file(file: &Path, glob: &Glob, path: &Path) -> bool
    requires { glob.now ≡ last_of (components file.now) }
    ensures { result ≡ hits_file (components file.now) (components path.now) }
{
    match last_beside(file, path) {
        Some(name) => glob.matches(name),
        None => false,
    }
}

// Whether one of these components but the last is the name.
fn stands_before_last(names: Components<'_>, name: &[u8]) -> bool
    ensures { result ≡ stands_before_last name.now (components_left names.entry) }
{
    let mut is_last_one = false;
    for component in names {
        if is_last_one {
            return true;
        }
        is_last_one = component == name;
    }
    false
}

// Whether the path begins with the words, and one of its later components but the last is the name.
pub(crate) fn hits_tree(words: &[Path], name: &Path, path: &Path) -> bool
    ensures { result ≡ hits_tree words.now name.now (components path.now) }
{
    let mut names = path.components();
    for word in words {
        match names.next() {
            Some(component) if component == word.bytes() => {}
            _ => return false,
        }
    }
    stands_before_last(names, name.bytes())
}
