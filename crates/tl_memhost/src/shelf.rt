// A shelf in memory.
ghost use Rattle.std.specs.Prelude.{◌≡◌, ◌≤◌, ◌++◌, ◌∷◌, [], length, take, drop, map, is_ok, IfOk, IfErr, OnOk, OnErr, None, true};
ghost use Rattle.std.specs.Option.{option_map, unwrap_or};
ghost use Rattle.tl_model.specs.Seen.{Told};
ghost use Rattle.tl_model.specs.Causes.{HasCause, Rose, one_more};
ghost use Rattle.tl_model.specs.Devices.{SameShelf, in_repository};
ghost use Rattle.tl_memhost.specs.Devices.{CountsShelf};
ghost use Rattle.tl_memhost.specs.Given.{given};
ghost use Rattle.tl_memhost.specs.Shelves.{IsShelfRefusal, EachApart};

use crate::files::Files;
use crate::fill::fill;
use crate::given::{MemError, files_of};
use std::alloc::{AllocError, Global};
use std::marker::Model;
use tl_file::FileBytes;
use tl_host::{Failed, Shelf};
use tl_path::Path;

/// Repositories in memory. It tells what they hold, and fails at the calls that it is told to.
#[derive(Drop)]
pub struct MemShelf {
    repos: Vec<Files>,
    calls: u64,
    failing: Vec<u64>,
    faults: u64,
    absences: u64,
}

impl Model for MemShelf {
    ghost use Rattle.tl_memhost.specs.Devices.{ShelfMemory, shelf_memory_code};

    ghost Value = { ShelfMemory };

    ghost coded = { shelf_memory_code };

    ghost view = { λ s. record {
      shelf = record { repositories = s.repos.items; faults = s.faults; absences = s.absences };
      calls = s.calls;
      failing = s.failing.items;
    } };
}

impl MemShelf {
    /// A shelf of these repositories, with no call, no fault and no absence. `Repeated` exactly where two files of one
    /// repository have one path: it is that of the first file, in the first such repository, whose path an earlier one
    /// has.
    pub fn new(alloc: Global, repos: Vec<Vec<FileBytes>>) -> Result<MemShelf, MemError>
        ensures made { IfOk result (λ shelf. shelf ≡ record {
          shelf = record { repositories = map (λ files. given files.items) repos.items; faults = 0; absences = 0 };
          calls = 0;
          failing = [];
        }) }
        ensures apart { OnOk result (EachApart repos.items) }
        ensures refused { IfErr result (IsShelfRefusal repos.items) }
    {
        let mut made = Vec::new(alloc);
        for files in repos {
            let files = match files_of(alloc, files) {
                Ok(files) => files,
                Err(error) => return Err(error),
            };
            match made.push(files) {
                Ok(()) => (),
                Err(_) => return Err(MemError::NoMemory),
            }
        }
        Ok(MemShelf {
            repos: made,
            calls: 0,
            failing: Vec::new(alloc),
            faults: 0,
            absences: 0,
        })
    }

    /// Makes the call of this number fail, counted from 0. Several may be named.
    pub fn fail_at(&mut self, call: u64) -> Result<(), AllocError>
        ensures ok { OnOk result (self.new ≡ record self.old { failing = self.old.failing ++ call ∷ [] }) }
        ensures err { OnErr result (self.new ≡ self.old) }
    {
        match self.failing.push(call) {
            Ok(()) => Ok(()),
            Err(_) => Err(AllocError),
        }
    }

    // What a name of a repository holds.
    fn held(&self, repo: u32, name: &Path) -> Option<&[u8]>
        ensures { option_map (λ bytes. bytes.now) result ≡ in_repository self.now.shelf repo name.now }
    {
        match self.repos.get(repo as usize) {
            Some(files) => files.get(name.bytes()),
            None => None,
        }
    }

    // Counts a call, and says whether it is to fail.
    fn count(&mut self) -> Result<(), Failed>
        ensures exact { CountsShelf (is_ok result) self.old self.new }
        ensures repositories { self.new.shelf.repositories ≡ self.old.shelf.repositories }
        ensures absences { self.new.shelf.absences ≡ self.old.shelf.absences }
        ensures cause { HasCause self.old.shelf.faults self.new.shelf.faults result }
    {
        let named = self.failing.contains(&self.calls);
        self.calls = self.calls.saturating_add(1);
        if named {
            self.faults = self.faults.saturating_add(1);
            return Err(Failed);
        }
        Ok(())
    }

    // Counts an absence.
    fn miss(&mut self)
        ensures { self.new ≡ record self.old { shelf = record self.old.shelf { absences = one_more self.old.shelf.absences } } }
    {
        self.absences = self.absences.saturating_add(1);
    }
}

impl Shelf for MemShelf {
    ghost tells = { true };

    ghost seen = { λ s. s.shelf };

    fn size(&mut self, repo: u32, name: &Path) -> Result<Option<u64>, Failed>
        ensures length { Told true (IfOk result (λ size.
            size ≡ option_map length (in_repository self.old.shelf repo name.now))) }
        ensures absent { IfOk result (λ size. size ≡ None → Rose self.old.shelf.absences self.new.shelf.absences) }
        ensures same { SameShelf self.old.shelf self.new.shelf }
        ensures cause { HasCause self.old.shelf.faults self.new.shelf.faults result }

        // It fails exactly where it is named.
        ensures exact { CountsShelf (is_ok result) self.old self.new }
    {
        self.count()?;
        match self.held(repo, name) {
            Some(bytes) => Ok(Some(bytes.len() as u64)),
            None => {
                self.miss();
                Ok(None)
            }
        }
    }

    fn read(&mut self, repo: u32, name: &Path, from: u64, into: &mut [u8]) -> Result<usize, Failed>
        ensures bound { IfOk result (λ count. count ≤ length into.new) }
        ensures bytes { Told true (IfOk result (λ count. take count into.new
            ≡ take (length into.new) (drop from (unwrap_or (in_repository self.old.shelf repo name.now) [])))) }
        ensures count { Told true (IfOk result (λ count. count
            ≡ length (take (length into.new) (drop from (unwrap_or (in_repository self.old.shelf repo name.now) []))))) }
        ensures same { SameShelf self.old.shelf self.new.shelf }
        ensures cause { HasCause self.old.shelf.faults self.new.shelf.faults result }

        // It fails exactly where it is named.
        ensures exact { CountsShelf (is_ok result) self.old self.new }
    {
        self.count()?;
        match self.held(repo, name) {
            Some(bytes) => Ok(fill(bytes, from, into)),
            None => Ok(0),
        }
    }
}
