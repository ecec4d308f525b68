//! A step over the journal.
ghost use Rattle.std.specs.Prelude.{◌≡◌, ◌≤◌, ◌+◌, [], ◌∷◌, ◌++◌, IfOk, IfErr};
ghost use Rattle.tl_model.specs.Causes.{HasCause};
ghost use Rattle.tl_model.specs.Seen.{Seen, Told, Quiet};
ghost use Rattle.tl_model.specs.Acks.{IsLabel};
ghost use Rattle.tl_model.specs.Trace.{Step, Trace, Cut};
ghost use Rattle.tl_journal_text.specs.Stand.{stand, tree_of};
ghost use Rattle.tl_journal.specs.States.{staged};
ghost use Rattle.tl_journal.specs.Spent.{left_by, Stages};
ghost use Rattle.tl_tree.specs.Staged.{files_of, AreOutside, FilesOutside, removes_of, writes_of, records_for, IsMade, IsHalted, IsFrontSaid, next_tree};

use crate::arrange::{Coming, Work};
use tl_host::{Failed, Host};
use tl_journal::{Clean, HostFault, Lost, Staging};
use tl_path::Path;

/// Asks for the size of each file that comes: a name that the host can't take fails here, before anything is staged.
pub fn ask_sizes<H: Host>(journal: &mut Clean<H>, files: &[Coming<'_>]) -> Result<(), Failed>
    ensures same { Told H.tells (Quiet journal.old journal.new) }
    ensures cause { HasCause journal.old.faults journal.new.faults result }
{
    for file in files {
        journal.size(file.path.view())?;
    }
    Ok(())
}

fn stage_removes<H: Host>(
    staging: Staging<H>,
    names: &[Path],
) -> Result<Staging<H>, Lost<H, HostFault>>
    requires { AreOutside names.now }
    ensures added { Told H.tells (IfOk result (λ more. staged more ≡ staged staging ++ removes_of names.now)) }
    ensures keeps { Told H.tells ((first : Seen) → Stages first staging → Stages first (left_by H.seen result)) }
    ensures cause { HasCause staging.faults (left_by H.seen result).faults result }
{
    let mut staging = staging;
    for name in names {
        match staging.stage_remove(name) {
            Ok(more) => staging = more,
            Err(lost) => return Err(lost),
        }
    }
    Ok(staging)
}

fn stage_writes<H: Host>(
    staging: Staging<H>,
    files: &[Coming<'_>],
) -> Result<Staging<H>, Lost<H, HostFault>>
    requires { FilesOutside (files_of files.now) }
    ensures added { Told H.tells (IfOk result (λ more. staged more ≡ staged staging ++ writes_of (files_of files.now))) }
    ensures keeps { Told H.tells ((first : Seen) → Stages first staging → Stages first (left_by H.seen result)) }
    ensures cause { HasCause staging.faults (left_by H.seen result).faults result }
{
    let mut staging = staging;
    for file in files {
        match staging.stage_write(file.path, file.bytes) {
            Ok(more) => staging = more,
            Err(lost) => return Err(lost),
        }
    }
    Ok(staging)
}

/// Stages the records of a step.
pub fn stage_all<H: Host>(
    journal: Clean<H>,
    work: &Work<'_>,
) -> Result<Staging<H>, Lost<H, HostFault>>
    requires names { AreOutside work.now.removes.items }
    requires files { FilesOutside (files_of work.now.writes.items) }
    ensures staged { Told H.tells (IfOk result (λ staging. staged staging ≡ records_for work.now.removes.items (files_of work.now.writes.items))) }
    ensures stages { Told H.tells (Stages journal (left_by H.seen result)) }
    ensures cause { HasCause journal.faults (left_by H.seen result).faults result }
{
    let empty = match journal.stage() {
        Ok(empty) => empty,
        Err(lost) => return Err(lost),
    };
    let removing = match stage_removes(empty, work.removes.as_slice()) {
        Ok(removing) => removing,
        Err(lost) => return Err(lost),
    };
    stage_writes(removing, work.writes.as_slice())
}

// Makes what is staged stable, and carries it out.
fn make<H: Host>(staging: Staging<H>) -> Result<Clean<H>, Lost<H, HostFault>>
    ensures made { Told H.tells (IfOk result (IsMade staging)) }
    ensures halted { Told H.tells (IsHalted staging (left_by H.seen result)) }
    ensures cause { HasCause staging.faults (left_by H.seen result).faults result }
{
    let committed = match staging.commit() {
        Ok(committed) => committed,
        Err(lost) => return Err(lost),
    };
    match committed.apply() {
        Ok(applied) => Ok(applied.close()),
        Err(lost) => Err(lost),
    }
}

// Says the line that acknowledges a step.
fn acknowledge<H: Host>(journal: Clean<H>, label: &[u8]) -> Result<Clean<H>, Lost<H, HostFault>>
    ensures said { Told H.tells (IfOk result (λ clean. clean.present.said ≡ journal.present.said ++ label.now)) }
    ensures front { Told H.tells (IsFrontSaid label.now journal (left_by H.seen result)) }
    ensures cause { HasCause journal.faults (left_by H.seen result).faults result }
{
    let mut journal = journal;
    match journal.say(label) {
        Ok(()) => Ok(journal),
        Err(_) => Err(Lost {
            host: journal.into_host(),
            fault: HostFault,
        }),
    }
}

/// Makes a step of what is staged: it is made stable and carried out, and the label is said.
pub fn commit_step<H: Host>(
    staging: Staging<H>,
    label: &[u8],
) -> Result<Clean<H>, Lost<H, HostFault>>
    requires { IsLabel label.now }
    ensures tree { Told H.tells (IfOk result (λ clean. tree_of clean.present.held ≡ next_tree staging)) }
    ensures trace { Told H.tells (IfOk result (λ clean. Trace stand staging clean (tree_of staging.present.held) (Step (next_tree staging) label.now ∷ []))) }
    ensures cut { Told H.tells (IfErr result (λ lost. Cut stand staging (H.seen lost.host) (tree_of staging.present.held) (Step (next_tree staging) label.now ∷ []))) }
    ensures syncs { Told H.tells ((left_by H.seen result).syncs ≤ staging.syncs + 2) }
    ensures cause { HasCause staging.faults (left_by H.seen result).faults result }
{
    match make(staging) {
        Ok(made) => acknowledge(made, label),
        Err(lost) => Err(lost),
    }
}
