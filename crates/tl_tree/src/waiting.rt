//! The paths of a change that haven't come yet.
ghost use Rattle.std.specs.Prelude.{◌≡◌, IfOk, IsTrue, ◌↔◌};
ghost use Rattle.std.specs.FinSet as set;
ghost use Rattle.tl_model.specs.Causes.{HasCause};
ghost use Rattle.tl_model.specs.Seen.{Told, Quiet};

use std::alloc::{AllocError, Global};
use std::collections::BTreeSet;
use std::marker::Model;
use tl_host::{Failed, Host};
use tl_journal::Clean;
use tl_path::Path;

/// Paths that haven't come. Contracts see the set.
#[derive(Drop)]
pub struct Waiting {
    paths: BTreeSet<Path>,
}

impl Model for Waiting {
    ghost use Rattle.tl_model.specs.Volume.{Names, names_code};
    ghost use Rattle.std.specs.FinSet as set;

    ghost Value = { Names };

    ghost coded = { names_code };

    ghost view = { λ w. set.from_list w.paths.keys };
}

impl Waiting {
    /// These paths.
    pub fn new(alloc: Global, paths: Vec<Path>) -> Result<Waiting, AllocError>
        ensures { IfOk result (λ waiting. waiting ≡ set.from_list paths.items) }
    {
        let mut set = BTreeSet::new(alloc);
        for path in paths {
            set.insert(path)?;
        }
        Ok(Waiting { paths: set })
    }

    /// Whether a path is among them. Takes no memory.
    pub fn has(&self, path: &Path) -> bool
        ensures { result ≡ set.contains self.now path.now }
    {
        self.paths.contains(path)
    }

    /// Takes a path out, and says whether it was among them. Takes no memory.
    pub fn take(&mut self, path: &Path) -> bool
        ensures there { result ≡ set.contains self.old path.now }
        ensures taken { self.new ≡ set.remove self.old path.now }
    {
        self.paths.remove(path)
    }

    /// Asks for the size of the file at each: a name that the host can't take fails here. Takes no memory.
    pub fn ask_sizes<H: Host>(&self, journal: &mut Clean<H>) -> Result<(), Failed>
        ensures same { Told H.tells (Quiet journal.old journal.new) }
        ensures cause { HasCause journal.old.faults journal.new.faults result }
    {
        for path in self.paths.iter() {
            journal.size(path.view())?;
        }
        Ok(())
    }
}
