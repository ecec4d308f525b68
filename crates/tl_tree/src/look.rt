// What a tree says of its names: those of the volume that aren't below the journal's folder.
ghost use Rattle.std.specs.Prelude.{◌≡◌, ◌≤◌, [], length, take, drop, IfOk, IfSome};
ghost use Rattle.std.specs.Option.{option_map, unwrap_or, is_some};
ghost use Rattle.tl_model.specs.Causes.{HasCause};
ghost use Rattle.tl_model.specs.Seen.{Told, Quiet};
ghost use Rattle.tl_model.specs.Volume.{at, IsAfter, IsNext};
ghost use Rattle.tl_path.specs.Path.{IsPath};
ghost use Rattle.tl_journal_text.specs.Records.{is_ours};
ghost use Rattle.tl_journal_text.specs.Stand.{tree_of};
ghost use Rattle.tl_tree.specs.Nexts.{behind, IsNextFrom, IsFrom};

use crate::tree::Tree;
use tl_host::{Failed, Host};
use tl_journal::{Clean, HostFault};
use tl_path::{Path, PathRef};

// Whether a name is below the journal's folder.
pub(crate) fn is_ours(name: &[u8]) -> bool
    ensures { result ≡ is_ours name.now }
{
    name.starts_with(b"tlpkg/journal/")
}

impl<H: Host> Tree<H> {
    /// The length of a file; `None` exactly where the name is absent. Takes no memory.
    pub fn size(&mut self, name: PathRef<'_>) -> Result<Option<u64>, Failed>
        ensures length { Told H.tells (IfOk result (λ size. size ≡ option_map length (at (tree_of self.old.seen.present.held) name.entry))) }
        ensures same { Told H.tells (Quiet self.old.seen self.new.seen) }
        ensures db { self.new.db ≡ self.old.db }
        ensures cause { HasCause self.old.seen.faults self.new.seen.faults result }
    {
        if is_ours(name.bytes()) {
            return Ok(None);
        }
        self.journal.size(name)
    }

    /// Whether a file is there. `HostFault` comes only where the host's faults rose. Takes no memory.
    pub fn present(&mut self, path: &Path) -> Result<bool, HostFault>
        ensures there { Told H.tells (IfOk result (λ there. there ≡ is_some (at (tree_of self.old.seen.present.held) path.now))) }
        ensures same { Told H.tells (Quiet self.old.seen self.new.seen) }
        ensures db { self.new.db ≡ self.old.db }
        ensures cause { HasCause self.old.seen.faults self.new.seen.faults result }
    {
        match self.size(path.view()) {
            Ok(size) => Ok(size.is_some()),
            Err(_) => Err(HostFault),
        }
    }

    /// Fills as many bytes as the buffer and the file from `from` have, and gives their number; 0 for an absent name. Takes
    /// no memory.
    pub fn read(&mut self, name: PathRef<'_>, from: u64, into: &mut [u8]) -> Result<usize, Failed>
        ensures bound { IfOk result (λ count. count ≤ length into.new) }
        ensures bytes { Told H.tells (IfOk result (λ count. take count into.new
            ≡ take (length into.new) (drop from (unwrap_or (at (tree_of self.old.seen.present.held) name.entry) [])))) }
        ensures count { Told H.tells (IfOk result (λ count. count
            ≡ length (take (length into.new) (drop from (unwrap_or (at (tree_of self.old.seen.present.held) name.entry) []))))) }
        ensures same { Told H.tells (Quiet self.old.seen self.new.seen) }
        ensures db { self.new.db ≡ self.old.db }
        ensures cause { HasCause self.old.seen.faults self.new.seen.faults result }
    {
        if is_ours(name.bytes()) {
            return Ok(0);
        }
        self.journal.read(name, from, into)
    }

    /// Writes the least name of the tree after `after` in byte order into `name`, or the least of all, and gives its length;
    /// `None` exactly where there is none. What it writes is a path after `after`, also where the host doesn't tell. Takes no
    /// memory.
    pub fn next_name(
        &mut self,
        after: Option<PathRef<'_>>,
        name: &mut [u8; 1024],
    ) -> Result<Option<usize>, Failed>
        ensures next { Told H.tells (IfOk result (λ found.
            IsNext (tree_of self.old.seen.present.held) after.entry (option_map (λ count. take count name.new) found))) }
        ensures path { IfOk result (λ found. IfSome found (λ count.
            (count ≤ 1024) × IsPath (take count name.new) × IsAfter after.entry (take count name.new))) }
        ensures same { Told H.tells (Quiet self.old.seen self.new.seen) }
        ensures db { self.new.db ≡ self.old.db }
        ensures cause { HasCause self.old.seen.faults self.new.seen.faults result }
    {
        match self.journal.next_name(after, name)? {
            Some(count) => {
                if is_ours(&name[..count]) {
                    next_behind(&mut self.journal, name)
                } else {
                    Ok(Some(count))
                }
            }
            None => Ok(None),
        }
    }
}

// Writes the first name behind those below the journal's folder.
fn write_behind(name: &mut [u8; 1024]) -> usize
    ensures { (result ≡ 14) × (take 14 name.new ≡ behind) }
{
    name[..14].copy_from_slice(b"tlpkg/journal0");
    14
}

// The least name behind those below the journal's folder.
fn next_behind<H: Host>(
    journal: &mut Clean<H>,
    name: &mut [u8; 1024],
) -> Result<Option<usize>, Failed>
    ensures next { Told H.tells (IfOk result (λ found.
        IsNextFrom journal.old.present.held (option_map (λ count. take count name.new) found))) }
    ensures path { IfOk result (λ found. IfSome found (λ count.
        (count ≤ 1024) × IsPath (take count name.new) × IsFrom (take count name.new))) }
    ensures same { Told H.tells (Quiet journal.old journal.new) }
    ensures cause { HasCause journal.old.faults journal.new.faults result }
{
    let first = PathRef::known("tlpkg/journal0");
    match journal.size(first.again())? {
        Some(_) => Ok(Some(write_behind(name))),
        None => journal.next_name(Some(first), name),
    }
}
