//! The bytes of a tree's files.
ghost use Rattle.std.specs.Prelude.{◌≡◌, ◌≤◌, vec_len, IfOk, IfErr, IfSome};
ghost use Rattle.std.specs.Option.{option_map};
ghost use Rattle.tl_model.specs.Causes.{HasCauseOf};
ghost use Rattle.tl_model.specs.Seen.{Told, Quiet};
ghost use Rattle.tl_model.specs.Volume.{at};
ghost use Rattle.tl_kind.specs.Quantities.{limit_of};
ghost use Rattle.tl_journal_text.specs.Stand.{tree_of, bytes_at};
ghost use Rattle.tl_tree.specs.Contents.{IsContentsError};
ghost use Rattle.tl_tree.specs.declared.contents.ContentsError.TheVariants.{HostFault as ContentsFault};

use crate::look::is_ours;
use crate::tree::Tree;
use std::alloc::Global;
use tl_host::{FileError, Host};
use tl_journal::Clean;
use tl_kind::What;
use tl_path::PathRef;

/// Why a file of a tree isn't read.
#[derive(Clone, Copy, Debug, PartialEq, Eq)]
pub enum ContentsError {
    /// The file has more bytes than this limit.
    TooLarge { what: What, limit: u64 },
    /// A call of the host failed.
    HostFault,
    /// Memory ran out.
    NoMemory,
}

// The bytes of a file of a volume that has no more than the quantity may have.
fn read_within<H: Host>(
    alloc: Global,
    journal: &mut Clean<H>,
    path: PathRef<'_>,
    what: What,
) -> Result<Option<Vec<u8>>, ContentsError>
    ensures bytes { Told H.tells (IfOk result (λ found. option_map (λ v. v.items) found ≡ at journal.old.present.held path.entry)) }
    ensures within { IfOk result (λ found. IfSome found (λ v. vec_len v ≤ limit_of what)) }
    ensures error { Told H.tells (IfErr result (IsContentsError what (bytes_at journal.old.present.held path.entry))) }
    ensures same { Told H.tells (Quiet journal.old journal.new) }
    ensures cause { HasCauseOf (λ error. error ≡ ContentsFault) journal.old.faults journal.new.faults result }
{
    let limit = what.limit();
    match journal.read_file(alloc, path, limit) {
        Ok(None) => Ok(None),
        Ok(Some(bytes)) => {
            if bytes.len() as u64 > limit {
                Err(ContentsError::TooLarge { what, limit })
            } else {
                Ok(Some(bytes))
            }
        }
        Err(FileError::TooLarge) => Err(ContentsError::TooLarge { what, limit }),
        Err(FileError::HostFault) => Err(ContentsError::HostFault),
        Err(FileError::NoMemory) => Err(ContentsError::NoMemory),
    }
}

impl<H: Host> Tree<H> {
    /// The bytes of a file; `None` exactly where it is absent. `TooLarge` exactly where it has more than the quantity may have;
    /// a file that grows past that while it is read is refused so too. `HostFault` comes only where the host's faults rose. It
    /// changes nothing.
    pub fn contents(
        &mut self,
        alloc: Global,
        path: PathRef<'_>,
        what: What,
    ) -> Result<Option<Vec<u8>>, ContentsError>
        ensures bytes { Told H.tells (IfOk result (λ found.
            option_map (λ v. v.items) found ≡ at (tree_of self.old.seen.present.held) path.entry)) }
        ensures within { IfOk result (λ found. IfSome found (λ v. vec_len v ≤ limit_of what)) }
        ensures error { Told H.tells (IfErr result (IsContentsError what (bytes_at (tree_of self.old.seen.present.held) path.entry))) }
        ensures same { Told H.tells (Quiet self.old.seen self.new.seen) }
        ensures db { self.new.db ≡ self.old.db }
        ensures cause { HasCauseOf (λ error. error ≡ ContentsFault) self.old.seen.faults self.new.seen.faults result }
    {
        if is_ours(path.bytes()) {
            return Ok(None);
        }
        read_within(alloc, &mut self.journal, path, what)
    }
}
