// Carrying out the records of a whole body at which the gate is open.
ghost use Rattle.std.specs.Prelude.{◌≡◌, ◌≢◌, ◌<◌, ◌≤◌, ◌+◌, ◌^◌, ◌++◌, [], IfOk, OnOk, IfSome, IsSome, Some, length, take, drop};
ghost use Rattle.std.specs.FinMap as map;
ghost use Rattle.tl_model.specs.Causes.{HasCause};
ghost use Rattle.tl_model.specs.Seen.{Seen, Told};
ghost use Rattle.tl_model.specs.Volume.{at, SameBut};
ghost use Rattle.tl_journal_text.specs.Slots.{body_of, open_slot};
ghost use Rattle.tl_journal_text.specs.Stand.{bytes_at};
ghost use Rattle.tl_journal_text.specs.Records.{IsAmong};
ghost use Rattle.tl_journal_text.specs.Body.{next};
ghost use Rattle.tl_journal.specs.Reading.{body_at, IsPartOf, SameBody};
ghost use Rattle.tl_journal.specs.States.{Redoes, IsLive, IsClean, pending};
ghost use Rattle.tl_journal.specs.Acting.{MayAct, Acted};

use crate::body::Body;
use crate::fields::{Item, next};
use tl_host::{Failed, Host};
use tl_journal_text::target;
use tl_path::PathRef;

// Copies bytes of the body to a file's end: at most `left`, and at least one where the body has one there.
fn copy_piece<H: Host>(
    body: &mut Body,
    host: &mut H,
    name: PathRef<'_>,
    from: u64,
    left: u64,
) -> Result<u64, Failed>
    requires more { 0 < left }
    requires there { Told H.tells (IsSome (at (H.seen host.old).present.held name)) }
    requires part { Told H.tells (IsPartOf body.old (H.seen host.old)) }
    requires apart { Told H.tells (name ≢ body_of body.old.slot) }
    requires within { Told H.tells (from + left ≤ length (body_at body.old.slot (H.seen host.old))) }
    ensures cause { HasCause (H.seen host.old).faults (H.seen host.new).faults result }
    ensures same { SameBody body.old body.new }
    ensures most { IfOk result (λ count. count ≤ left) }
    ensures some { Told H.tells (IfOk result (λ count. 0 < count)) }
    ensures part { Told H.tells (OnOk result (IsPartOf body.new (H.seen host.new))) }
    ensures progress { Told H.tells ((base : Seen) → IsAmong name.entry (pending base.present.held) → Redoes base (H.seen host.old) → Redoes base (H.seen host.new)) }
    ensures others { Told H.tells (SameBut name.entry (H.seen host.old).present.held (H.seen host.new).present.held) }
    ensures copied { Told H.tells (IfOk result (λ count. at (H.seen host.new).present.held name.entry
        ≡ Some (bytes_at (H.seen host.old).present.held name.entry ++ take count (drop from (body_at body.old.slot (H.seen host.old)))))) }
{
    body.reach(host, from, 1)?;
    let part = body.bytes_from(from);
    let count = left.min(part.len() as u64);
    host.append(name, &part[..count as usize])?;
    Ok(count)
}

// Copies bytes of the body to an empty file.
fn copy<H: Host>(
    body: &mut Body,
    host: &mut H,
    name: PathRef<'_>,
    from: u64,
    size: u64,
) -> Result<(), Failed>
    requires fits { from + size < 2 ^ 64 }
    requires there { Told H.tells (at (H.seen host.old).present.held name ≡ Some []) }
    requires part { Told H.tells (IsPartOf body.old (H.seen host.old)) }
    requires apart { Told H.tells (name ≢ body_of body.old.slot) }
    requires within { Told H.tells (from + size ≤ length (body_at body.old.slot (H.seen host.old))) }
    ensures cause { HasCause (H.seen host.old).faults (H.seen host.new).faults result }
    ensures same { SameBody body.old body.new }
    ensures part { Told H.tells (OnOk result (IsPartOf body.new (H.seen host.new))) }
    ensures progress { Told H.tells ((base : Seen) → IsAmong name.entry (pending base.present.held) → Redoes base (H.seen host.old) → Redoes base (H.seen host.new)) }
    ensures others { Told H.tells (SameBut name.entry (H.seen host.old).present.held (H.seen host.new).present.held) }
    ensures copied { Told H.tells (OnOk result (at (H.seen host.new).present.held name.entry
        ≡ Some (take size (drop from (body_at body.old.slot (H.seen host.old)))))) }
{
    let mut done: u64 = 0;
    while done < size {
        let count = copy_piece(body, host, name.again(), from + done, size - done)?;
        if count == 0 {
            return Ok(());
        }
        done += count;
    }
    Ok(())
}

// Makes the name hold bytes of the body.
fn write<H: Host>(
    body: &mut Body,
    host: &mut H,
    name: PathRef<'_>,
    from: u64,
    size: u64,
) -> Result<(), Failed>
    requires fits { from + size < 2 ^ 64 }
    requires part { Told H.tells (IsPartOf body.old (H.seen host.old)) }
    requires apart { Told H.tells (name ≢ body_of body.old.slot) }
    requires within { Told H.tells (from + size ≤ length (body_at body.old.slot (H.seen host.old))) }
    ensures cause { HasCause (H.seen host.old).faults (H.seen host.new).faults result }
    ensures same { SameBody body.old body.new }
    ensures part { Told H.tells (OnOk result (IsPartOf body.new (H.seen host.new))) }
    ensures progress { Told H.tells ((base : Seen) → IsAmong name.entry (pending base.present.held) → Redoes base (H.seen host.old) → Redoes base (H.seen host.new)) }
    ensures written { Told H.tells (OnOk result ((H.seen host.new).present.held
        ≡ map.insert (H.seen host.old).present.held name.entry (take size (drop from (body_at body.old.slot (H.seen host.old)))))) }
{
    host.create(name.again())?;
    copy(body, host, name, from, size)
}

// Carries out the record at a place of the body, if one is there, and says where the next is.
fn step<H: Host>(
    body: &mut Body,
    host: &mut H,
    from: u64,
    name: &mut [u8; 1024],
) -> Result<Option<u64>, Failed>
    requires within { from ≤ body.old.size }
    requires part { Told H.tells (IsPartOf body.old (H.seen host.old)) }
    ensures cause { HasCause (H.seen host.old).faults (H.seen host.new).faults result }
    ensures same { SameBody body.old body.new }
    ensures part { Told H.tells (OnOk result (IsPartOf body.new (H.seen host.new))) }
    ensures inside { IfOk result (λ next. IfSome next (λ rest. (from < rest) × (rest ≤ body.old.size))) }
    ensures progress { Told H.tells ((base : Seen) → Redoes base (H.seen host.old) → MayAct base (next from (drop from (body_at body.old.slot (H.seen host.old)))) → Redoes base (H.seen host.new)) }
    ensures acted { Told H.tells (IfOk result (Acted (body_at body.old.slot (H.seen host.old)) from (H.seen host.old).present.held (H.seen host.new).present.held)) }
{
    match next(body, host, from, name)? {
        Item::End => Ok(None),
        Item::Faulty(_) => Ok(None),
        Item::Remove { name: count, rest } => {
            host.remove(target(&name[..count]))?;
            Ok(Some(rest))
        }
        Item::Write {
            name: count,
            from: start,
            size,
        } => {
            write(body, host, target(&name[..count]), start, size)?;
            Ok(Some(start + size))
        }
    }
}

/// Carries out all of them. The host failed where it answers `Failed`; some may have been carried out then.
pub fn steps<H: Host>(body: &mut Body, host: &mut H) -> Result<(), Failed>
    requires part { Told H.tells (IsPartOf body.old (H.seen host.old)) }
    requires opened { Told H.tells (open_slot (H.seen host.old).present.held ≡ Some body.old.slot) }
    requires live { Told H.tells (IsLive (H.seen host.old).present) }
    ensures cause { HasCause (H.seen host.old).faults (H.seen host.new).faults result }
    ensures redoes { Told H.tells (Redoes (H.seen host.old) (H.seen host.new)) }
    ensures clean { Told H.tells (OnOk result (IsClean (H.seen host.new).present)) }
{
    let mut name = [0; 1024];
    let mut from = 0;
    loop {
        match step(body, host, from, &mut name)? {
            Some(rest) => from = rest,
            None => return Ok(()),
        }
    }
}
