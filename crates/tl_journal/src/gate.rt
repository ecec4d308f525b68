// Opening and removing the gate.
ghost use Rattle.std.specs.Prelude.{◌≡◌, ◌≢◌, ◌≤◌, ◌+◌, ◌∷◌, [], OnOk, Some, None, List};
ghost use Rattle.tl_model.specs.Causes.{HasCause};
ghost use Rattle.tl_model.specs.Seen.{Seen, Told, Since};
ghost use Rattle.tl_model.specs.Volume.{Name, at, SameBut};
ghost use Rattle.tl_journal_text.specs.Slots.{gate, body_of, byte_of, open_slot, spare, other};
ghost use Rattle.tl_journal_text.specs.declared.slot.Slot.{Slot};
ghost use Rattle.tl_journal_text.specs.Records.{Record, after};
ghost use Rattle.tl_journal_text.specs.Body.{records_of};
ghost use Rattle.tl_journal_text.specs.Stand.{tree_of, bytes_at, stand, Stays, IsBeforeOrAfter};
ghost use Rattle.tl_journal.specs.States.{IsLive, IsClean, IsStaging, KeepsTree, Between, IsSettled, IsCommitted, IsRested, Fixed, pending, staged};
ghost use Rattle.tl_journal.specs.Touching.{TouchesOnly};

use crate::names;
use crate::staging::add;
use tl_host::{Failed, Host};
use tl_journal_text::Slot;

// Makes a body that needn't stay one without records.
fn clear<H: Host>(host: &mut H, slot: Slot) -> Result<(), Failed>
    requires clean { Told H.tells (IsClean (H.seen host.old).present) }
    requires free { Told H.tells ((name : Name) → Fixed (H.seen host.old) name → name ≢ body_of slot) }
    ensures cause { HasCause (H.seen host.old).faults (H.seen host.new).faults result }
    ensures touches { Told H.tells (TouchesOnly (λ name. name ≡ body_of slot) (H.seen host.old) (H.seen host.new)) }
    ensures keeps { Told H.tells (KeepsTree (H.seen host.old) (H.seen host.new)) }
    ensures others { Told H.tells (SameBut (body_of slot) (H.seen host.old).present.held (H.seen host.new).present.held) }
    ensures cleared { Told H.tells (OnOk result (records_of (bytes_at (H.seen host.new).present.held (body_of slot)) ≡ Some [])) }
{
    host.create(names::body(slot))?;
    host.append(names::body(slot), b"E")
}

// Sees to it that the records of the body that isn't being written change nothing.
fn settle_other<H: Host>(host: &mut H, opened: Option<Slot>) -> Result<(), Failed>
    requires clean { Told H.tells (IsClean (H.seen host.old).present) }
    requires opened { Told H.tells (open_slot (H.seen host.old).present.held ≡ opened) }
    ensures cause { HasCause (H.seen host.old).faults (H.seen host.new).faults result }
    ensures touches { Told H.tells (TouchesOnly (λ name. (opened ≡ None) × (name ≡ body_of (other (spare opened)))) (H.seen host.old) (H.seen host.new)) }
    ensures keeps { Told H.tells (KeepsTree (H.seen host.old) (H.seen host.new)) }
    ensures others { Told H.tells (SameBut (body_of (other (spare opened))) (H.seen host.old).present.held (H.seen host.new).present.held) }
    ensures still { Told H.tells (OnOk result ((rs : List Record)
        × (records_of (bytes_at (H.seen host.new).present.held (body_of (other (spare opened)))) ≡ Some rs)
        × (after rs (tree_of (H.seen host.old).present.held) ≡ tree_of (H.seen host.old).present.held))) }
{
    match opened {
        Some(_) => Ok(()),
        None => clear(host, Slot::Two),
    }
}

// Makes the gate a slot's byte, and syncs.
fn open<H: Host>(host: &mut H, slot: Slot) -> Result<(), Failed>
    ensures cause { HasCause (H.seen host.old).faults (H.seen host.new).faults result }
    ensures touches { Told H.tells (TouchesOnly (λ name. name ≡ gate) (H.seen host.old) (H.seen host.new)) }
    ensures between { Told H.tells ((base : Seen) (rs old_rs : List Record) → Between base slot rs old_rs (H.seen host.old) → Between base slot rs old_rs (H.seen host.new)) }
    ensures byte { Told H.tells (OnOk result (at (H.seen host.new).present.held gate ≡ Some (byte_of slot ∷ []))) }
    ensures settled { Told H.tells (OnOk result (IsSettled (H.seen host.new))) }
    ensures syncs { Told H.tells ((H.seen host.new).syncs ≤ (H.seen host.old).syncs + 1) }
{
    host.create(names::gate())?;
    host.append(names::gate(), &[slot.byte()])?;
    host.sync()
}

/// Ends the body and makes the gate its slot's byte.
pub fn commit<H: Host>(host: &mut H, opened: Option<Slot>) -> Result<(), Failed>
    requires staging { Told H.tells (IsStaging (H.seen host.old)) }
    requires opened { Told H.tells (open_slot (H.seen host.old).present.held ≡ opened) }
    ensures cause { HasCause (H.seen host.old).faults (H.seen host.new).faults result }
    ensures touches { Told H.tells (TouchesOnly (IsCommitted opened) (H.seen host.old) (H.seen host.new)) }
    ensures live { Told H.tells (OnOk result (IsLive (H.seen host.new).present)) }
    ensures open_at { Told H.tells (OnOk result (open_slot (H.seen host.new).present.held ≡ Some (spare opened))) }
    ensures records { Told H.tells (OnOk result (pending (H.seen host.new).present.held ≡ staged (H.seen host.old))) }
    ensures stands { Told H.tells (OnOk result (stand (H.seen host.new).present.held ≡ Some (after (staged (H.seen host.old)) (tree_of (H.seen host.old).present.held)))) }
    ensures said { Told H.tells ((H.seen host.new).present.said ≡ (H.seen host.old).present.said) }
    ensures syncs { Told H.tells ((H.seen host.new).syncs ≤ (H.seen host.old).syncs + 2) }
    ensures pictures { Told H.tells (Since (H.seen host.old) (H.seen host.new) (IsBeforeOrAfter (staged (H.seen host.old)) (H.seen host.old))) }
{
    let slot = Slot::spare(opened);
    add(host, slot, b"E")?;
    settle_other(host, opened)?;
    host.sync()?;
    open(host, slot)
}

// Removes the gate, and syncs.
fn remove<H: Host>(host: &mut H) -> Result<(), Failed>
    ensures cause { HasCause (H.seen host.old).faults (H.seen host.new).faults result }
    ensures touches { Told H.tells (TouchesOnly (λ name. name ≡ gate) (H.seen host.old) (H.seen host.new)) }
    ensures between { Told H.tells ((base : Seen) (slot : Slot) (rs old_rs : List Record) → Between base slot rs old_rs (H.seen host.old) → Between base slot rs old_rs (H.seen host.new)) }
    ensures gone { Told H.tells (OnOk result (at (H.seen host.new).present.held gate ≡ None)) }
    ensures settled { Told H.tells (OnOk result (IsSettled (H.seen host.new))) }
    ensures syncs { Told H.tells ((H.seen host.new).syncs ≤ (H.seen host.old).syncs + 1) }
{
    host.remove(names::gate())?;
    host.sync()
}

/// Closes a gate that is open at a slot.
pub fn close<H: Host>(host: &mut H, slot: Slot) -> Result<(), Failed>
    requires clean { Told H.tells (IsClean (H.seen host.old).present) }
    requires opened { Told H.tells (open_slot (H.seen host.old).present.held ≡ Some slot) }
    ensures cause { HasCause (H.seen host.old).faults (H.seen host.new).faults result }
    ensures touches { Told H.tells (TouchesOnly (IsRested (Some slot)) (H.seen host.old) (H.seen host.new)) }
    ensures clean { Told H.tells (OnOk result (IsClean (H.seen host.new).present)) }
    ensures shut { Told H.tells (OnOk result (open_slot (H.seen host.new).present.held ≡ None)) }
    ensures tree { Told H.tells (tree_of (H.seen host.new).present.held ≡ tree_of (H.seen host.old).present.held) }
    ensures said { Told H.tells ((H.seen host.new).present.said ≡ (H.seen host.old).present.said) }
    ensures syncs { Told H.tells ((H.seen host.new).syncs ≤ (H.seen host.old).syncs + 2) }
    ensures stays { Told H.tells (Stays (H.seen host.old) (H.seen host.new)) }
{
    clear(host, slot.other())?;
    host.sync()?;
    remove(host)
}
