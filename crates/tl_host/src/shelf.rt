ghost use Rattle.std.specs.Prelude.{◌≡◌, ◌≤◌, [], length, take, drop, IfOk, Bool, OnOk, None};
ghost use Rattle.std.specs.Option.{option_map, unwrap_or};
ghost use Rattle.tl_model.specs.Devices.{ShelfSeen, SameShelf, in_repository};
ghost use Rattle.tl_model.specs.Seen.{Told};
ghost use Rattle.tl_model.specs.Causes.{HasCause, Rose};

use crate::host::Failed;
use tl_path::Path;

/// Repositories of files, by number from 0. No call changes what it holds or takes memory of the caller's.
pub trait Shelf {
    /// Whether it tells what it holds.
    ghost tells: { Bool };

    /// What it is seen as.
    ghost seen: { Self → ShelfSeen };

    /// The length of a file; `None` exactly where the repository has no such name. Each `None` raises the count of
    /// absences.
    fn size(&mut self, repo: u32, name: &Path) -> Result<Option<u64>, Failed>
        ensures length { Told tells (IfOk result (λ size.
            size ≡ option_map length (in_repository (seen self.old) repo name.now))) }
        ensures absent { IfOk result (λ size. size ≡ None → Rose (seen self.old).absences (seen self.new).absences) }
        ensures same { SameShelf (seen self.old) (seen self.new) }
        ensures cause { HasCause (seen self.old).faults (seen self.new).faults result };

    /// Fills as many bytes as the buffer and the file from `from` have, and gives their number; 0 for an absent name.
    fn read(&mut self, repo: u32, name: &Path, from: u64, into: &mut [u8]) -> Result<usize, Failed>
        ensures bound { IfOk result (λ count. count ≤ length into.new) }
        ensures bytes { Told tells (IfOk result (λ count. take count into.new
            ≡ take (length into.new) (drop from (unwrap_or (in_repository (seen self.old) repo name.now) [])))) }
        ensures count { Told tells (IfOk result (λ count. count
            ≡ length (take (length into.new) (drop from (unwrap_or (in_repository (seen self.old) repo name.now) []))))) }
        ensures same { SameShelf (seen self.old) (seen self.new) }
        ensures cause { HasCause (seen self.old).faults (seen self.new).faults result };
}
