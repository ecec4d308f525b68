// What a stop before a call leaves of a host in memory.
ghost use Rattle.std.specs.Prelude.{◌≡◌, ℕ, ◌≤◌, List, length, take, reverse, IfOk, OnOk, if◌then◌else◌};
ghost use Rattle.std.specs.Option.{option_map};
ghost use Rattle.std.specs.FinSet as set;
ghost use Rattle.tl_model.specs.Volume.{Name, at};
ghost use Rattle.tl_memhost.specs.Memory.{before};
ghost use Rattle.tl_memhost.specs.Record.{standing, steps_of, touched_of, settled_of};
ghost use Rattle.tl_memhost.specs.Stop.{left, named, is_sync, Gives};

use crate::files::Files;
use crate::record::{Did, Entry, Named};
use std::alloc::{AllocError, Global};
use tl_file::Bytes;

/// What a stop leaves at each touched name.
#[derive(Debug, Drop)]
pub enum Choice {
    /// What a read gave.
    Kept,
    /// Nothing.
    Gone,
    /// What it held at the last sync that succeeded, or as the host was made.
    Synced,
    /// These bytes.
    Fill(Bytes),
}

/// Why there is no stop.
#[derive(Clone, Copy, Debug, PartialEq, Eq)]
pub enum StopError {
    /// The number is greater than that of the calls.
    NoSuchCall,
    /// There was no memory.
    NoMemory,
}

// Goes back over the newest entries, to what was held before the call of a number, and gives how many entries are left.
pub(crate) fn go_back(
    alloc: Global,
    record: &[Entry],
    call: u64,
    files: &mut Files,
) -> Result<usize, AllocError>
    ensures within { IfOk result (λ count. count ≤ length record.now) }
    ensures back { IfOk result (λ count. (said : List ℕ) → (words : List ℕ)
        × (before call (steps_of (reverse record.now) files.old said) (standing (reverse record.now) files.old said)
        ≡ standing (reverse (take count record.now)) files.new words)) }
{
    let mut count = record.len();
    while count > 0 {
        let entry = &record[count - 1];
        if entry.call < call {
            break;
        }
        files.undo(alloc, &entry.did)?;
        count -= 1;
    }
    Ok(count)
}

// Goes back to what was held at the last sync that succeeded.
pub(crate) fn settle_back(
    alloc: Global,
    record: &[Entry],
    files: &mut Files,
) -> Result<(), AllocError>
    ensures { OnOk result (files.new ≡ settled_of (reverse record.now) files.old) }
{
    let mut count = record.len();
    while count > 0 {
        let entry = &record[count - 1];
        if is_sync(&entry.did) {
            break;
        }
        files.undo(alloc, &entry.did)?;
        count -= 1;
    }
    Ok(())
}

// Makes each name that was touched since the last sync that succeeded hold these bytes, or nothing.
fn fill_touched(
    alloc: Global,
    record: &[Entry],
    bytes: Option<&[u8]>,
    files: &mut Files,
) -> Result<(), AllocError>
    ensures { OnOk result ((name : Name) → at files.new name
        ≡ (if set.contains (touched_of (reverse record.now)) name then option_map (λ b. b.now) bytes.entry else at files.old name)) }
{
    let mut count = record.len();
    while count > 0 {
        let entry = &record[count - 1];
        if is_sync(&entry.did) {
            break;
        }
        give_named(alloc, &entry.did, bytes, files)?;
        count -= 1;
    }
    Ok(())
}

// Makes the name that a call touched hold these bytes, or nothing.
fn give_named(
    alloc: Global,
    did: &Did,
    bytes: Option<&[u8]>,
    files: &mut Files,
) -> Result<(), AllocError>
    ensures { OnOk result (Gives (named did.now) (option_map (λ b. b.now) bytes.entry) files.old files.new) }
{
    match named(did) {
        Some(name) => files.give(alloc, name.bytes(), bytes),
        None => Ok(()),
    }
}

// The name that a call touched.
fn named(did: &Did) -> Option<&Named>
    ensures { option_map (λ n. n.now) result ≡ named did.now }
{
    match did {
        Did::Put(name, _) => Some(name),
        Did::Grown(name, _) => Some(name),
        Did::Failing(name) => Some(name),
        _ => None,
    }
}

// Whether a call was a sync that succeeded.
fn is_sync(did: &Did) -> bool
    ensures { result ≡ is_sync did.now }
{
    matches!(did, Did::Settled)
}

// Leaves at each touched name what is chosen.
pub(crate) fn leave(
    alloc: Global,
    record: &[Entry],
    choice: &Choice,
    files: &mut Files,
) -> Result<(), AllocError>
    ensures { OnOk result ((words : List ℕ) (name : Name)
        → at files.new name ≡ left choice.now (standing (reverse record.now) files.old words) name) }
{
    match choice {
        Choice::Kept => Ok(()),
        Choice::Gone => fill_touched(alloc, record, None, files),
        Choice::Synced => {
            settle_back(alloc, record, files)?;
            Ok(())
        }
        Choice::Fill(bytes) => fill_touched(alloc, record, Some(bytes.as_slice()), files),
    }
}
