//! What each whole field of a frame tells, and what comes behind it.
ghost use Rattle.std.specs.Prelude.{◌≡◌, ◌≤◌, List, [], ℕ, length, Some, IfOk, OnErr};
ghost use Rattle.std.specs.Int.{w16, w32, w64, from_be_bytes};
ghost use Rattle.tl_path.specs.Path.{IsPath};
ghost use Rattle.tl_frame.specs.declared.event.FrameEvent.{FrameEvent};
ghost use Rattle.tl_frame.specs.Scan.{is_later_path};
ghost use Rattle.tl_frame.specs.States.{IsAtStage, Moves, at_field, wanted_by};

use crate::event::FrameEvent;
use crate::stage::{Stage, Waiting};
use std::alloc::AllocError;
use tl_file::Bytes;
use tl_path::PathRef;

pub const MAGIC: [u8; 8] = *b"TLFRAME1";

pub const MARK: [u8; 8] = *b"TLFRAMEE";

const LONGEST_PATH: u16 = 1024;

fn number_16(field: &[u8]) -> u16
    requires { length field.now ≡ 2 }
    ensures { result ≡ from_be_bytes w16 field.now }
{
    u16::from_be_bytes([field[0], field[1]])
}

fn number_32(field: &[u8]) -> u32
    requires { length field.now ≡ 4 }
    ensures { result ≡ from_be_bytes w32 field.now }
{
    u32::from_be_bytes([field[0], field[1], field[2], field[3]])
}

fn number_64(field: &[u8]) -> u64
    requires { length field.now ≡ 8 }
    ensures { result ≡ from_be_bytes w64 field.now }
{
    u64::from_be_bytes([
        field[0], field[1], field[2], field[3], field[4], field[5], field[6], field[7],
    ])
}

/// What comes behind a field that is whole, which is the one that was waited for.
pub fn judge(
    waiting: Waiting,
    last: &mut Vec<u8>,
    field: &[u8],
    out: &mut Vec<FrameEvent>,
) -> Result<Waiting, AllocError>
    requires field { wanted_by waiting.stage ≡ Some (length field.now) }
    requires stage { IsAtStage waiting.stage last.old.items }
    ensures moves { IfOk result (λ new. Moves (at_field waiting last.old.items)
        (at_field new last.new.items) field.now out.old.items out.new.items) }
    ensures stage { OnErr result (IsAtStage waiting.stage last.new.items) }
    ensures same { OnErr result (out.new.items ≡ out.old.items) }
{
    match waiting.stage {
        Stage::Magic => Ok(behind_magic(waiting, field)),
        Stage::EntrySize => behind_entry_size(waiting, field, out),
        Stage::EntryText(_) => behind_entry(waiting, field, out),
        Stage::Count => Ok(behind_count(waiting, field)),
        Stage::PathSize => Ok(behind_path_size(waiting, field)),
        Stage::PathText(_) => behind_path(waiting, last, field),
        Stage::Size => behind_size(waiting, last.as_slice(), field, out),
        _ => behind_mark(waiting, field, out),
    }
}

fn behind_magic(waiting: Waiting, field: &[u8]) -> Waiting
    requires stage { waiting.stage ≡ Stage.Magic }
    requires field { length field.now ≡ 8 }
    ensures { (events : List FrameEvent) →
        Moves (at_field waiting []) (at_field result []) field.now events events }
{
    if field == MAGIC.as_slice() {
        waiting.behind(8, Stage::EntrySize)
    } else {
        waiting.at(Stage::Faulty)
    }
}

fn behind_entry_size(
    waiting: Waiting,
    field: &[u8],
    out: &mut Vec<FrameEvent>,
) -> Result<Waiting, AllocError>
    requires stage { waiting.stage ≡ Stage.EntrySize }
    requires field { length field.now ≡ 4 }
    ensures moves { IfOk result (λ new.
        Moves (at_field waiting []) (at_field new []) field.now out.old.items out.new.items) }
    ensures same { OnErr result (out.new.items ≡ out.old.items) }
{
    let size = number_32(field);
    if size == 0 {
        let empty = Bytes::new(Vec::new(*out.allocator()));
        out.push(FrameEvent::Entry(empty))?;
        Ok(waiting.behind(4, Stage::Count))
    } else {
        Ok(waiting.behind(4, Stage::EntryText(size)))
    }
}

fn behind_entry(
    waiting: Waiting,
    field: &[u8],
    out: &mut Vec<FrameEvent>,
) -> Result<Waiting, AllocError>
    requires stage { waiting.stage ≡ Stage.EntryText (length field.now) }
    ensures moves { IfOk result (λ new.
        Moves (at_field waiting []) (at_field new []) field.now out.old.items out.new.items) }
    ensures same { OnErr result (out.new.items ≡ out.old.items) }
{
    let text = Vec::from_slice(*out.allocator(), field)?;
    out.push(FrameEvent::Entry(Bytes::new(text)))?;
    Ok(waiting.behind(field.len() as u64, Stage::Count))
}

fn behind_count(waiting: Waiting, field: &[u8]) -> Waiting
    requires stage { waiting.stage ≡ Stage.Count }
    requires field { length field.now ≡ 4 }
    ensures { (events : List FrameEvent) →
        Moves (at_field waiting []) (at_field result []) field.now events events }
{
    waiting.before_files(4, number_32(field))
}

fn behind_path_size(waiting: Waiting, field: &[u8]) -> Waiting
    requires stage { waiting.stage ≡ Stage.PathSize }
    requires field { length field.now ≡ 2 }
    ensures { (last : List ℕ) (events : List FrameEvent) →
        Moves (at_field waiting last) (at_field result last) field.now events events }
{
    let size = number_16(field);
    if size == 0 || size > LONGEST_PATH {
        waiting.behind(2, Stage::Faulty)
    } else {
        waiting.behind(2, Stage::PathText(size))
    }
}

fn behind_path(waiting: Waiting, last: &mut Vec<u8>, field: &[u8]) -> Result<Waiting, AllocError>
    requires stage { waiting.stage ≡ Stage.PathText (length field.now) }
    requires short { length field.now ≤ 1024 }
    ensures { IfOk result (λ new. (events : List FrameEvent) → Moves
        (at_field waiting last.old.items) (at_field new last.new.items) field.now events events) }
{
    if !is_later_path(last.as_slice(), field) {
        return Ok(waiting.at(Stage::Faulty));
    }
    last.clear();
    last.extend_from_slice(field)?;
    Ok(waiting.behind(field.len() as u64, Stage::Size))
}

// Whether a name may come behind a path: it is a path, and greater by bytes.
#[tactic(auto, unfolding(crate::specs::Scan::is_later_path))]
fn is_later_path(last: &[u8], name: &[u8]) -> bool
    ensures { result ≡ is_later_path last.now name.now }
{
    match PathRef::check(name) {
        Ok(_) => last.cmp(name).is_lt(),
        Err(_) => false,
    }
}

fn behind_size(
    waiting: Waiting,
    last: &[u8],
    field: &[u8],
    out: &mut Vec<FrameEvent>,
) -> Result<Waiting, AllocError>
    requires stage { waiting.stage ≡ Stage.Size }
    requires last { IsPath last.now }
    requires field { length field.now ≡ 8 }
    ensures moves { IfOk result (λ new. Moves
        (at_field waiting last.now) (at_field new last.now) field.now out.old.items out.new.items) }
    ensures same { OnErr result (out.new.items ≡ out.old.items) }
{
    let len = number_64(field);
    let path = PathRef::of_bytes(last).to_path(*out.allocator())?;
    out.push(FrameEvent::File { path, len })?;
    if len == 0 {
        Ok(waiting.before_files(8, waiting.files))
    } else {
        Ok(Waiting {
            stage: Stage::Content(len),
            place: waiting.place.saturating_add(8),
            files: waiting.files,
            size: len,
        })
    }
}

fn behind_mark(
    waiting: Waiting,
    field: &[u8],
    out: &mut Vec<FrameEvent>,
) -> Result<Waiting, AllocError>
    requires stage { waiting.stage ≡ Stage.Mark }
    requires field { length field.now ≡ 8 }
    ensures moves { IfOk result (λ new. (last : List ℕ) →
        Moves (at_field waiting last) (at_field new last) field.now out.old.items out.new.items) }
    ensures same { OnErr result (out.new.items ≡ out.old.items) }
{
    if field == MARK.as_slice() {
        out.push(FrameEvent::End)?;
        Ok(waiting.behind(8, Stage::Ended))
    } else {
        Ok(waiting.at(Stage::Faulty))
    }
}
