// Writing the body of the spare slot.
ghost use Rattle.std.specs.Prelude.{◌≡◌, ◌<◌, ◌^◌, [], OnOk, Some, IsSome, length};
ghost use Rattle.tl_model.specs.Causes.{HasCause};
ghost use Rattle.tl_model.specs.Seen.{Told};
ghost use Rattle.tl_model.specs.Volume.{at};
ghost use Rattle.tl_journal_text.specs.Slots.{body_of, open_slot, spare};
ghost use Rattle.tl_journal_text.specs.Records.{Remove, Write, text_of, write_head};
ghost use Rattle.tl_journal.specs.States.{IsClean, KeepsTree, Grows};
ghost use Rattle.tl_journal.specs.Touching.{TouchesOnly};

use crate::names;
use tl_host::{Failed, Host};
use tl_journal_text::{Head, Slot};
use tl_path::PathRef;

/// Makes the body empty.
pub fn start<H: Host>(host: &mut H, slot: Slot) -> Result<(), Failed>
    requires clean { Told H.tells (IsClean (H.seen host.old).present) }
    requires slot { Told H.tells (spare (open_slot (H.seen host.old).present.held) ≡ slot) }
    ensures cause { HasCause (H.seen host.old).faults (H.seen host.new).faults result }
    ensures keeps { Told H.tells (KeepsTree (H.seen host.old) (H.seen host.new)) }
    ensures touches { Told H.tells (TouchesOnly (λ name. name ≡ body_of slot) (H.seen host.old) (H.seen host.new)) }
    ensures text { Told H.tells (OnOk result (at (H.seen host.new).present.held (body_of slot) ≡ Some [])) }
{
    host.create(names::body(slot))
}

/// Adds bytes at the body's end.
pub fn add<H: Host>(host: &mut H, slot: Slot, bytes: &[u8]) -> Result<(), Failed>
    requires clean { Told H.tells (IsClean (H.seen host.old).present) }
    requires slot { Told H.tells (spare (open_slot (H.seen host.old).present.held) ≡ slot) }
    requires there { Told H.tells (IsSome (at (H.seen host.old).present.held (body_of slot))) }
    ensures cause { HasCause (H.seen host.old).faults (H.seen host.new).faults result }
    ensures keeps { Told H.tells (KeepsTree (H.seen host.old) (H.seen host.new)) }
    ensures touches { Told H.tells (TouchesOnly (λ name. name ≡ body_of slot) (H.seen host.old) (H.seen host.new)) }
    ensures grows { Told H.tells (OnOk result (Grows bytes.now (H.seen host.old) (H.seen host.new))) }
{
    host.append(names::body(slot), bytes)
}

/// Adds a record that removes a path.
pub fn add_remove<H: Host>(host: &mut H, slot: Slot, path: PathRef<'_>) -> Result<(), Failed>
    requires clean { Told H.tells (IsClean (H.seen host.old).present) }
    requires slot { Told H.tells (spare (open_slot (H.seen host.old).present.held) ≡ slot) }
    requires there { Told H.tells (IsSome (at (H.seen host.old).present.held (body_of slot))) }
    ensures cause { HasCause (H.seen host.old).faults (H.seen host.new).faults result }
    ensures keeps { Told H.tells (KeepsTree (H.seen host.old) (H.seen host.new)) }
    ensures touches { Told H.tells (TouchesOnly (λ name. name ≡ body_of slot) (H.seen host.old) (H.seen host.new)) }
    ensures grows { Told H.tells (OnOk result (Grows (text_of (Remove path.entry)) (H.seen host.old) (H.seen host.new))) }
{
    let head = Head::remove(path);
    add(host, slot, head.as_slice())
}

/// Begins a record that writes so many bytes to a path.
pub fn add_head<H: Host>(
    host: &mut H,
    slot: Slot,
    path: PathRef<'_>,
    size: u64,
) -> Result<(), Failed>
    requires clean { Told H.tells (IsClean (H.seen host.old).present) }
    requires slot { Told H.tells (spare (open_slot (H.seen host.old).present.held) ≡ slot) }
    requires there { Told H.tells (IsSome (at (H.seen host.old).present.held (body_of slot))) }
    ensures cause { HasCause (H.seen host.old).faults (H.seen host.new).faults result }
    ensures keeps { Told H.tells (KeepsTree (H.seen host.old) (H.seen host.new)) }
    ensures touches { Told H.tells (TouchesOnly (λ name. name ≡ body_of slot) (H.seen host.old) (H.seen host.new)) }
    ensures grows { Told H.tells (OnOk result (Grows (write_head path.entry size) (H.seen host.old) (H.seen host.new))) }
{
    let head = Head::write(path, size);
    add(host, slot, head.as_slice())
}

/// Adds a record that makes a path hold the bytes.
pub fn add_write<H: Host>(
    host: &mut H,
    slot: Slot,
    path: PathRef<'_>,
    bytes: &[u8],
) -> Result<(), Failed>
    requires clean { Told H.tells (IsClean (H.seen host.old).present) }
    requires slot { Told H.tells (spare (open_slot (H.seen host.old).present.held) ≡ slot) }
    requires there { Told H.tells (IsSome (at (H.seen host.old).present.held (body_of slot))) }
    ensures cause { HasCause (H.seen host.old).faults (H.seen host.new).faults result }
    ensures keeps { Told H.tells (KeepsTree (H.seen host.old) (H.seen host.new)) }
    ensures touches { Told H.tells (TouchesOnly (λ name. name ≡ body_of slot) (H.seen host.old) (H.seen host.new)) }
    ensures grows { Told H.tells (OnOk result (Grows (text_of (Write path.entry bytes.now)) (H.seen host.old) (H.seen host.new))) }
    ensures size { length bytes.now < 2 ^ 64 }
{
    let size = bytes.len() as u64;
    add_head(host, slot, path, size)?;
    add(host, slot, bytes)
}
