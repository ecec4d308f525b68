//! What lines list, as they come.
ghost use Rattle.std.specs.Prelude.{◌≡◌, ◌∷◌, [], ℕ, Some, None, MatchBool, IfOk};
ghost use Rattle.std.specs.Option.{option_copied};
ghost use Rattle.tl_lsr.specs.Items.{path_in};
ghost use Rattle.tl_lsr.specs.Reading.{begun, comes_before, comes_next, dir_headed, ended, headed, is_left_behind, is_path, line_taken, may_begin, may_end, named, nothing, with_heading, with_line, with_name};

use crate::writer::{FIRST_LINE, FOLDER};
use std::alloc::{AllocError, Global};
use std::collections::BTreeSet;
use std::marker::Model;
use tl_path::{Path, PathError, PathRef};

// The paths that have no section so far; the path of the list itself; the directory of the last section, whether it isn't ended, and its
// last name.
#[derive(Drop)]
pub(crate) struct Reader {
    files: BTreeSet<Path>,
    list: Path,
    dir: Vec<u8>,
    is_open: bool,
    last: Vec<u8>,
}

impl Model for Reader {
    ghost use Rattle.std.specs.Prelude.{◌≡◌};
    ghost use Rattle.tl_lsr.specs.Lists.{list_path};
    ghost use Rattle.tl_lsr.specs.Reading.{Listed};

    ghost Value = { Listed };

    ghost view = { λ a. record { files = a.files.keys; dir = a.dir.items; is_open = a.is_open; last = a.last.items } };

    ghost invariant = { λ a. a.list ≡ list_path };
}

fn comes_before(a: &[u8], b: &[u8]) -> bool
    ensures { result ≡ comes_before a.now b.now }
{
    a.cmp(b).is_lt()
}

fn is_path(text: &[u8]) -> bool
    ensures { result ≡ is_path text.now }
{
    PathRef::check(text).is_ok()
}

// The path of a name in a directory.
fn path_in(alloc: Global, dir: &[u8], name: &[u8]) -> Result<Vec<u8>, AllocError>
    ensures { IfOk result (λ path. path.items ≡ path_in dir.now name.now) }
{
    let mut path = Vec::from_slice(alloc, dir)?;
    path.push(b'/')?;
    path.extend_from_slice(name)?;
    Ok(path)
}

// What a heading says of its directory; `None` for another line.
fn headed(line: &[u8]) -> Option<&[u8]>
    ensures { option_copied result ≡ headed line.now }
{
    line.strip_prefix(b"./")?.strip_suffix(b":")
}

// The directory of which a heading says this.
fn dir_headed(alloc: Global, rest: &[u8]) -> Result<Vec<u8>, AllocError>
    ensures { IfOk result (λ dir. dir.items ≡ dir_headed rest.now) }
{
    if rest.is_empty() {
        return Vec::from_slice(alloc, FOLDER);
    }
    path_in(alloc, FOLDER, rest)
}

impl Reader {
    pub(crate) fn new(alloc: Global) -> Result<Reader, AllocError>
        ensures { IfOk result (λ reader. reader ≡ nothing) }
    {
        Ok(Reader {
            files: BTreeSet::new(alloc),
            list: PathRef::known("texmf-dist/ls-R").to_path(alloc)?,
            dir: Vec::new(alloc),
            is_open: false,
            last: Vec::new(alloc),
        })
    }

    // Whether the list itself is a file, though a directory behind it begins.
    fn is_left_behind(&self, dir: &Path) -> bool
        ensures { result ≡ is_left_behind self.now.files dir.now }
    {
        self.list < *dir && self.files.contains(&self.list)
    }

    fn may_begin(&self, alloc: Global, dir: &Path) -> Result<bool, AllocError>
        ensures { IfOk result (λ may. may ≡ may_begin self.now dir.now) }
    {
        let room = path_in(alloc, dir.bytes(), b"x")?;
        Ok(
            is_path(&room)
                && comes_before(&self.dir, dir.bytes())
                && (dir.bytes() == FOLDER || self.files.contains(dir))
                && !self.is_left_behind(dir),
        )
    }

    // Begins the section of a directory, where it may.
    fn begin(&mut self, alloc: Global, dir: &[u8]) -> Result<bool, AllocError>
        ensures { IfOk result (λ taken. MatchBool taken (begun self.old dir.now ≡ Some self.new) (begun self.old dir.now ≡ None)) }
    {
        let path = match Path::parse(alloc, dir) {
            Ok(path) => path,
            Err(PathError::BadPath { .. }) => return Ok(false),
            Err(PathError::NoMemory) => return Err(AllocError),
        };
        if !self.may_begin(alloc, &path)? {
            return Ok(false);
        }
        self.files.remove(&path);
        self.dir = Vec::from_slice(alloc, dir)?;
        self.is_open = true;
        self.last.clear();
        Ok(true)
    }

    fn comes_next(&self, name: &[u8]) -> bool
        ensures { result ≡ comes_next self.now name.now }
    {
        !name.contains(&b'/') && comes_before(&self.last, name)
    }

    // Takes a name of the section, where it may stand next.
    fn take_name(&mut self, alloc: Global, name: &[u8]) -> Result<bool, AllocError>
        ensures { IfOk result (λ taken. MatchBool taken (named self.old name.now ≡ Some self.new) (named self.old name.now ≡ None)) }
    {
        if !self.comes_next(name) {
            return Ok(false);
        }
        let path = path_in(alloc, &self.dir, name)?;
        let path = match Path::parse(alloc, &path) {
            Ok(path) => path,
            Err(PathError::BadPath { .. }) => return Ok(false),
            Err(PathError::NoMemory) => return Err(AllocError),
        };
        self.files.insert(path)?;
        self.last = Vec::from_slice(alloc, name)?;
        Ok(true)
    }

    // Ends the section, where it has a name.
    fn end(&mut self) -> bool
        ensures { MatchBool result (ended self.old ≡ Some self.new) (ended self.old ≡ None) }
    {
        if self.last.is_empty() {
            return false;
        }
        self.is_open = false;
        true
    }

    fn take_heading(&mut self, alloc: Global, line: &[u8]) -> Result<bool, AllocError>
        ensures { IfOk result (λ taken. MatchBool taken (with_heading self.old line.now ≡ Some self.new) (with_heading self.old line.now ≡ None)) }
    {
        match headed(line) {
            Some(rest) => self.begin(alloc, &dir_headed(alloc, rest)?),
            None => Ok(false),
        }
    }

    fn take_next(&mut self, alloc: Global, line: &[u8]) -> Result<bool, AllocError>
        ensures { IfOk result (λ taken. MatchBool taken (with_line self.old line.now ≡ Some self.new) (with_line self.old line.now ≡ None)) }
    {
        if !self.is_open {
            return self.take_heading(alloc, line);
        }
        if line.is_empty() {
            return Ok(self.end());
        }
        self.take_name(alloc, line)
    }

    // Takes a line that has so many before it, where it can stand there.
    pub(crate) fn take_line(
        &mut self,
        alloc: Global,
        before: u32,
        line: &[u8],
    ) -> Result<bool, AllocError>
        ensures { IfOk result (λ taken. MatchBool taken (line_taken before self.old line.now ≡ Some self.new) (line_taken before self.old line.now ≡ None)) }
    {
        match before {
            0 => Ok(line == FIRST_LINE),
            1 => Ok(line.is_empty()),
            _ => self.take_next(alloc, line),
        }
    }

    // Whether the text may end here.
    pub(crate) fn may_end(&self) -> bool
        ensures { result ≡ may_end self.now }
    {
        !self.is_open && !self.files.contains(&self.list)
    }

    // The paths that have no section.
    pub(crate) fn into_paths(self, alloc: Global) -> Result<Vec<Path>, AllocError>
        ensures { IfOk result (λ paths. paths.items ≡ self.files) }
    {
        self.files.into_iter().collect(alloc)
    }
}
