//! Files of packages beside a walk over the names of a tree.
ghost use Rattle.std.specs.Prelude.{◌≡◌, ◌&&◌, true, Bool, IsSome, Some, map, IfOk, OnOk};
ghost use Rattle.std.specs.List.{list_any};
ghost use Rattle.tl_model.specs.Causes.{HasCauseOf};
ghost use Rattle.tl_model.specs.Seen.{Told, Quiet};
ghost use Rattle.tl_model.specs.Volume.{at};
ghost use Rattle.tl_journal_text.specs.Stand.{tree_of};
ghost use Rattle.tl_report.specs.Claims.{Claim, claim_by};
ghost use Rattle.tl_report.specs.Missing.{is_gone};
ghost use Rattle.tl_report.specs.Walk.{IsInTree};
ghost use Rattle.tl_report.specs.declared.error.ReportError.TheVariants.{HostFault as Fault};

use crate::error::ReportError;
use std::alloc::Global;
use tl_host::Host;
use tl_path::{Name, Path, PathRef};
use tl_tree::Tree;

// As many names as a tree has at most.
const MOST_FILES: u32 = 1_048_576;

// How far a walk over the names of a tree has come.
#[derive(Drop)]
struct Walk {
    // The name that it stands at; `None` before the first one.
    last: Option<Path>,
    // Whether no name comes behind it.
    is_over: bool,
}

impl Walk {
    // Goes on to the next name.
    fn go_on<H: Host>(&mut self, alloc: Global, tree: &mut Tree<H>) -> Result<(), ReportError>
        ensures inside { Told H.tells (OnOk result (IsInTree (tree_of tree.old.seen.present.held) self.old.last
            → IsInTree (tree_of tree.old.seen.present.held) self.new.last)) }
        ensures same { Told H.tells (Quiet tree.old.seen tree.new.seen) }
        ensures db { tree.new.db ≡ tree.old.db }
        ensures cause { HasCauseOf (λ error. error ≡ Fault) tree.old.seen.faults tree.new.seen.faults result }
    {
        let mut name = [0; 1024];
        let after = match &self.last {
            Some(path) => Some(path.view()),
            None => None,
        };
        match tree.next_name(after, &mut name) {
            Ok(Some(count)) => {
                self.last = Some(PathRef::of_bytes(&name[..count]).to_path(alloc)?);
            }
            Ok(None) => self.is_over = true,
            Err(_) => return Err(ReportError::HostFault),
        }
        Ok(())
    }

    // Whether the walk has yet to come to a path.
    fn is_before(&self, path: &Path) -> bool {
        match &self.last {
            Some(last) => !self.is_over && last < path,
            None => !self.is_over,
        }
    }

    // Whether the walk stands at a path.
    fn is_at(&self, path: &Path) -> bool
        ensures { result ≡ true → self.now.last ≡ Some path.now }
    {
        match &self.last {
            Some(last) => *last == *path,
            None => false,
        }
    }

    // Goes on to the first name that isn't below a path, and says whether it is the path.
    fn meets<H: Host>(
        &mut self,
        alloc: Global,
        tree: &mut Tree<H>,
        path: &Path,
    ) -> Result<bool, ReportError>
        requires { Told H.tells (IsInTree (tree_of tree.now.seen.present.held) self.now.last) }
        ensures met { Told H.tells (IfOk result (λ met. met ≡ true → IsSome (at (tree_of tree.old.seen.present.held) path.now))) }
        ensures inside { Told H.tells (OnOk result (IsInTree (tree_of tree.old.seen.present.held) self.new.last)) }
        ensures same { Told H.tells (Quiet tree.old.seen tree.new.seen) }
        ensures db { tree.new.db ≡ tree.old.db }
        ensures cause { HasCauseOf (λ error. error ≡ Fault) tree.old.seen.faults tree.new.seen.faults result }
    {
        for _number in 0..MOST_FILES {
            if !self.is_before(path) {
                return Ok(self.is_at(path));
            }
            self.go_on(alloc, tree)?;
        }
        Ok(false)
    }
}

/// Those of some files that a walk over the names of a tree doesn't meet: all that aren't there, and what lies behind where the walk
/// ends. n files cost n log n comparisons.
pub(crate) fn unmet<'a, H: Host>(
    alloc: Global,
    files: Vec<(Path, &'a Name)>,
    tree: &mut Tree<H>,
) -> Result<Vec<(Path, &'a Name)>, ReportError>
    ensures gone { Told H.tells (IfOk result (λ unmet. (test : Claim → Bool)
        → list_any (λ c. is_gone (tree_of tree.old.seen.present.held) c && test c) (map (λ file. claim_by file.1.now file.0) unmet.items)
        ≡ list_any (λ c. is_gone (tree_of tree.old.seen.present.held) c && test c) (map (λ file. claim_by file.1.now file.0) files.entry.items))) }
    ensures same { Told H.tells (Quiet tree.old.seen tree.new.seen) }
    ensures db { tree.new.db ≡ tree.old.db }
    ensures cause { HasCauseOf (λ error. error ≡ Fault) tree.old.seen.faults tree.new.seen.faults result }
{
    let mut files = files;
    files.sort_unstable();
    let mut walk = Walk {
        last: None,
        is_over: false,
    };
    let mut unmet = Vec::new(alloc);
    for file in files {
        if !walk.meets(alloc, tree, &file.0)? {
            unmet.push(file)?;
        }
    }
    Ok(unmet)
}
