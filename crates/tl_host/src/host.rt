ghost use Rattle.std.specs.Prelude.{◌≡◌, ℕ, ◌≤◌, ◌++◌, [], length, take, drop, IfOk, OnOk, IsTrue, IsSome, Bool, Some, is_ok, None, MatchOption, IfSome};
ghost use Rattle.std.specs.Option.{option_map, unwrap_or};
ghost use Rattle.std.specs.FinMap as map;
ghost use Rattle.tl_model.specs.Volume.{Name, at, IsAfter, IsNext};
ghost use Rattle.tl_model.specs.Seen.{Seen, Told, Quiet, Changes, Syncs, Says};
ghost use Rattle.tl_model.specs.Causes.{HasCause};
ghost use Rattle.tl_path.specs.Path.{IsPath};

use tl_path::PathRef;

/// A call of a device failed. Its count of faults says so too.
#[derive(Clone, Copy, Debug, PartialEq, Eq)]
pub struct Failed;

/// A volume of files, and a place to say bytes. No call takes memory of the caller's.
///
/// A name is touched by `create`, `append` and `remove`, whether they succeed or fail, until a `sync` succeeds. A stop
/// leaves a volume in which each touched name is absent or holds any bytes, and each other name holds what a read gives.
pub trait Host {
    /// Whether it tells what it holds.
    ghost tells: { Bool };

    /// What it is seen as.
    ghost seen: { Self → Seen };

    /// The length of a file; `None` exactly where the name is absent.
    fn size(&mut self, name: PathRef<'_>) -> Result<Option<u64>, Failed>
        ensures length { Told tells (IfOk result (λ size.
            size ≡ option_map length (at (seen self.old).present.held name.entry))) }
        ensures same { Told tells (Quiet (seen self.old) (seen self.new)) }
        ensures cause { HasCause (seen self.old).faults (seen self.new).faults result };

    /// Fills as many bytes as the buffer and the file from `from` have, and gives their number; 0 for an absent name.
    fn read(&mut self, name: PathRef<'_>, from: u64, into: &mut [u8]) -> Result<usize, Failed>
        ensures bound { IfOk result (λ count. count ≤ length into.new) }
        ensures bytes { Told tells (IfOk result (λ count. take count into.new
            ≡ take (length into.new) (drop from (unwrap_or (at (seen self.old).present.held name.entry) [])))) }
        ensures count { Told tells (IfOk result (λ count. count
            ≡ length (take (length into.new) (drop from (unwrap_or (at (seen self.old).present.held name.entry) []))))) }
        ensures same { Told tells (Quiet (seen self.old) (seen self.new)) }
        ensures cause { HasCause (seen self.old).faults (seen self.new).faults result };

    /// Writes the least name after `after` in byte order into `name`, or the least of all, and gives its length; `None`
    /// exactly where there is none. What it writes is a path after `after`, also where the host doesn't tell.
    fn next_name(
        &mut self,
        after: Option<PathRef<'_>>,
        name: &mut [u8; 1024],
    ) -> Result<Option<usize>, Failed>
        ensures next { Told tells (IfOk result (λ found.
            IsNext (seen self.old).present.held after.entry (option_map (λ count. take count name.new) found))) }
        ensures path { IfOk result (λ found. IfSome found (λ count.
            (count ≤ 1024) × IsPath (take count name.new) × IsAfter after.entry (take count name.new))) }
        ensures same { Told tells (Quiet (seen self.old) (seen self.new)) }
        ensures cause { HasCause (seen self.old).faults (seen self.new).faults result };

    /// Makes the name hold the empty file.
    fn create(&mut self, name: PathRef<'_>) -> Result<(), Failed>
        ensures created { Told tells (OnOk result (
            (seen self.new).present.held ≡ map.insert (seen self.old).present.held name.entry [])) }
        ensures change { Told tells (Changes (is_ok result) name.entry (seen self.old) (seen self.new)) }
        ensures cause { HasCause (seen self.old).faults (seen self.new).faults result };

    /// Adds bytes at the end of a file that is there.
    fn append(&mut self, name: PathRef<'_>, bytes: &[u8]) -> Result<(), Failed>
        requires { Told tells (IsSome (at (seen self.old).present.held name)) }
        ensures added { Told tells (OnOk result ((seen self.new).present.held ≡ map.insert (seen self.old).present.held
            name.entry (unwrap_or (at (seen self.old).present.held name.entry) [] ++ bytes.now))) }
        ensures change { Told tells (Changes (is_ok result) name.entry (seen self.old) (seen self.new)) }
        ensures cause { HasCause (seen self.old).faults (seen self.new).faults result };

    /// Makes the name absent, which it may have been.
    fn remove(&mut self, name: PathRef<'_>) -> Result<(), Failed>
        ensures removed { Told tells (OnOk result (
            (seen self.new).present.held ≡ map.remove (seen self.old).present.held name.entry)) }
        ensures change { Told tells (Changes (is_ok result) name.entry (seen self.old) (seen self.new)) }
        ensures cause { HasCause (seen self.old).faults (seen self.new).faults result };

    /// After it no name is touched. It adds one to the count of syncs, whether it succeeds or not.
    fn sync(&mut self) -> Result<(), Failed>
        ensures sync { Told tells (Syncs (is_ok result) (seen self.old) (seen self.new)) }
        ensures cause { HasCause (seen self.old).faults (seen self.new).faults result };

    /// Says bytes. Where it fails, a front of them is said.
    fn say(&mut self, bytes: &[u8]) -> Result<(), Failed>
        ensures says { Told tells (Says (is_ok result) bytes.now (seen self.old) (seen self.new)) }
        ensures cause { HasCause (seen self.old).faults (seen self.new).faults result };
}
