// The fields of a body, record by record.
ghost use Rattle.std.specs.Prelude.{◌≡◌, ◌<◌, ◌≤◌, ◌+◌, ◌^◌, ℕ, IsTrue, OnOk, IfOk, List, length, take, drop, if◌then◌else◌};
ghost use Rattle.tl_model.specs.Causes.{HasCause};
ghost use Rattle.tl_model.specs.Seen.{Told, Quiet};
ghost use Rattle.tl_model.specs.Volume.{Name};
ghost use Rattle.tl_journal_text.specs.Body.{taken, Next, Faulty};
ghost use Rattle.tl_journal.specs.Reading.{body_at, IsPartOf, SameBody};
ghost use Rattle.tl_journal.specs.Items.{IsItem, IsInside, IsFieldInside, IsSizeInside, IsBytesInside, NameGoes, SizeGoes, IsWritten};

use crate::body::Body;
use tl_host::{Failed, Host};
use tl_journal_text::is_target;

/// The length of a name or of bytes, or the place of the first field that is cut or wrong.
#[derive(Clone, Copy, Debug, PartialEq, Eq)]
pub enum Field {
    Whole(u64),
    Faulty(u64),
}

/// What stands at a place of a body.
#[derive(Clone, Copy, Debug, PartialEq, Eq)]
pub enum Item {
    End,
    /// The first field that is cut or wrong is there.
    Faulty(u64),
    /// The name has so many bytes, and the next record is at `rest`.
    Remove { name: usize, rest: u64 },
    /// The bytes are `size` from `from` on.
    Write { name: usize, from: u64, size: u64 },
}

/// Fills the buffer from a place of the body on. Whether the body has so many bytes.
pub fn front<H: Host>(
    body: &mut Body,
    host: &mut H,
    from: u64,
    into: &mut [u8],
) -> Result<bool, Failed>
    requires within { from ≤ body.old.size }
    requires most { length into.old ≤ 65536 }
    requires part { Told H.tells (IsPartOf body.old (H.seen host.old)) }
    ensures cause { HasCause (H.seen host.old).faults (H.seen host.new).faults result }
    ensures quiet { Told H.tells (Quiet (H.seen host.old) (H.seen host.new)) }
    ensures same { SameBody body.old body.new }
    ensures fits { body.old.size < 2 ^ 64 }
    ensures part { Told H.tells (OnOk result (IsPartOf body.new (H.seen host.new))) }
    ensures inside { IfOk result (λ whole. IsTrue whole → from + length into.old ≤ body.old.size) }
    ensures taken { Told H.tells (IfOk result (λ whole. (place : ℕ) (go : List ℕ → List ℕ → Next) →
        taken place (length into.old) (drop from (body_at body.old.slot (H.seen host.old))) go
        ≡ (if whole then go into.new (drop (from + length into.old) (body_at body.old.slot (H.seen host.old))) else Faulty place))) }
{
    if body.size() - from < into.len() as u64 {
        return Ok(false);
    }
    body.fill(host, from, into)
}

/// The length of the name at a place of the body, if a record may change it.
pub fn name_at<H: Host>(
    body: &mut Body,
    host: &mut H,
    from: u64,
    name: &mut [u8; 1024],
) -> Result<Field, Failed>
    requires within { from ≤ body.old.size }
    requires part { Told H.tells (IsPartOf body.old (H.seen host.old)) }
    ensures cause { HasCause (H.seen host.old).faults (H.seen host.new).faults result }
    ensures quiet { Told H.tells (Quiet (H.seen host.old) (H.seen host.new)) }
    ensures same { SameBody body.old body.new }
    ensures fits { body.old.size < 2 ^ 64 }
    ensures part { Told H.tells (OnOk result (IsPartOf body.new (H.seen host.new))) }
    ensures inside { IfOk result (IsFieldInside body.old.size from name.new) }
    ensures name { Told H.tells (IfOk result (NameGoes (body_at body.old.slot (H.seen host.old)) from name.new)) }
{
    let mut two = [0, 0];
    if !front(body, host, from, &mut two)? {
        return Ok(Field::Faulty(from));
    }
    let count = u16::from_be_bytes(two) as usize;
    if count > 1024 {
        return Ok(Field::Faulty(from + 2));
    }
    if !front(body, host, from + 2, &mut name[..count])? {
        return Ok(Field::Faulty(from + 2));
    }
    Ok(if is_target(&name[..count]) {
        Field::Whole(count as u64)
    } else {
        Field::Faulty(from + 2)
    })
}

/// How many bytes are written, by the size at a place of the body.
pub fn size_at<H: Host>(body: &mut Body, host: &mut H, from: u64) -> Result<Field, Failed>
    requires within { from ≤ body.old.size }
    requires part { Told H.tells (IsPartOf body.old (H.seen host.old)) }
    ensures cause { HasCause (H.seen host.old).faults (H.seen host.new).faults result }
    ensures quiet { Told H.tells (Quiet (H.seen host.old) (H.seen host.new)) }
    ensures same { SameBody body.old body.new }
    ensures fits { body.old.size < 2 ^ 64 }
    ensures part { Told H.tells (OnOk result (IsPartOf body.new (H.seen host.new))) }
    ensures inside { IfOk result (IsSizeInside body.old.size from) }
    ensures size { Told H.tells (IfOk result (SizeGoes (body_at body.old.slot (H.seen host.old)) from)) }
{
    let mut eight = [0, 0, 0, 0, 0, 0, 0, 0];
    if !front(body, host, from, &mut eight)? {
        return Ok(Field::Faulty(from));
    }
    let count = u64::from_be_bytes(eight);
    if body.size() - from - 8 < count {
        return Ok(Field::Faulty(from + 8));
    }
    Ok(Field::Whole(count))
}

/// The record at a place of the body. Its name is left in the buffer.
pub fn next<H: Host>(
    body: &mut Body,
    host: &mut H,
    from: u64,
    name: &mut [u8; 1024],
) -> Result<Item, Failed>
    requires within { from ≤ body.old.size }
    requires part { Told H.tells (IsPartOf body.old (H.seen host.old)) }
    ensures cause { HasCause (H.seen host.old).faults (H.seen host.new).faults result }
    ensures quiet { Told H.tells (Quiet (H.seen host.old) (H.seen host.new)) }
    ensures same { SameBody body.old body.new }
    ensures fits { body.old.size < 2 ^ 64 }
    ensures part { Told H.tells (OnOk result (IsPartOf body.new (H.seen host.new))) }
    ensures inside { IfOk result (IsInside body.old.size from name.new) }
    ensures item { Told H.tells (IfOk result (IsItem (body_at body.old.slot (H.seen host.old)) from name.new)) }
{
    let mut kind = [0];
    if !front(body, host, from, &mut kind)? {
        return Ok(Item::Faulty(from));
    }
    if kind[0] == b'E' {
        return Ok(if body.size() - from == 1 {
            Item::End
        } else {
            Item::Faulty(from + 1)
        });
    }
    if kind[0] == b'R' {
        return match name_at(body, host, from + 1, name)? {
            Field::Whole(count) => Ok(Item::Remove {
                name: count as usize,
                rest: from + 3 + count,
            }),
            Field::Faulty(place) => Ok(Item::Faulty(place)),
        };
    }
    if kind[0] == b'W' {
        return match name_at(body, host, from + 1, name)? {
            Field::Whole(count) => written(body, host, from + 3 + count, count as usize),
            Field::Faulty(place) => Ok(Item::Faulty(place)),
        };
    }
    Ok(Item::Faulty(from))
}

// The record that writes a name of so many bytes, by what stands after the name.
fn written<H: Host>(body: &mut Body, host: &mut H, from: u64, name: usize) -> Result<Item, Failed>
    requires within { from ≤ body.old.size }
    requires part { Told H.tells (IsPartOf body.old (H.seen host.old)) }
    ensures cause { HasCause (H.seen host.old).faults (H.seen host.new).faults result }
    ensures quiet { Told H.tells (Quiet (H.seen host.old) (H.seen host.new)) }
    ensures same { SameBody body.old body.new }
    ensures fits { body.old.size < 2 ^ 64 }
    ensures part { Told H.tells (OnOk result (IsPartOf body.new (H.seen host.new))) }
    ensures inside { IfOk result (IsBytesInside body.old.size from name) }
    ensures item { Told H.tells (IfOk result (λ item. (buffer : Name) → IsWritten (body_at body.old.slot (H.seen host.old)) from (take name buffer) buffer item)) }
{
    match size_at(body, host, from)? {
        Field::Whole(count) => Ok(Item::Write {
            name,
            from: from + 8,
            size: count,
        }),
        Field::Faulty(place) => Ok(Item::Faulty(place)),
    }
}
