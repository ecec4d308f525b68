//! A frame in one list of bytes.
ghost use Rattle.std.specs.Prelude.{◌≡◌, ◌<◌, ◌^◌, ◌++◌, ℕ, true, List, [], length, None, IfOk, OnOk, IfErr, MatchResult};
ghost use Rattle.std.specs.List.{flat_map};
ghost use Rattle.tl_path.specs.Path.{IsPath};
ghost use Rattle.tl_file.specs.declared.file.FileBytes.{FileBytes};
ghost use Rattle.tl_frame.specs.declared.error.FrameError.TheVariants.{NoMemory};
ghost use Rattle.tl_frame.specs.Frames.{IsFrame, FitsFrame, frame, framed_file, paths_rise};
ghost use Rattle.tl_frame.specs.Scan.{frame_fault, tokens_of};
ghost use Rattle.tl_frame.specs.States.{IsWhole, told_place};
ghost use Rattle.tl_frame.specs.Events.{event_tokens, with_tokens};
ghost use Rattle.tl_frame.specs.Answers.{IsFrameErrorOf};

use crate::error::FrameError;
use crate::event::FrameEvent;
use crate::fields::{MAGIC, MARK};
use crate::gathered::add_event;
use crate::pieces::FrameReader;
use std::alloc::{AllocError, Global};
use tl_file::{Bytes, FileBytes, FileList};

/// What a frame holds: an entry's text, and files whose paths rise.
#[derive(Debug, Drop)]
pub struct Frame {
    /// The entry's text.
    pub entry: Bytes,
    /// The files.
    pub files: FileList,
}

/// What the bytes of a frame hold. `BadFrame` comes exactly where they are none, at their first field that is cut or wrong;
/// bytes behind the end are a wrong field.
pub fn read_frame(alloc: Global, bytes: &[u8]) -> Result<Frame, FrameError>
    ensures frame { IfOk result (λ read. IsFrame bytes.now read.entry read.files) }
    // A frame is that of no other text and files, and it is read.
    ensures only { (entry : List ℕ) (files : List FileBytes) → IsFrame bytes.now entry files →
        MatchResult result (λ read. (read.entry ≡ entry) × (read.files ≡ files)) (λ e. e ≡ NoMemory) }
    ensures fault { MatchResult result (λ _. frame_fault bytes.now ≡ None) (IsFrameErrorOf bytes.now) }
    // No frame begins another one.
    ensures alone { OnOk result ((more entry : List ℕ) (files : List FileBytes) →
        IsFrame (bytes.now ++ more) entry files → more ≡ []) }
{
    let events = events_of(alloc, bytes)?;
    Ok(frame_of(alloc, events)?)
}

// What the bytes of a frame tell.
fn events_of(alloc: Global, bytes: &[u8]) -> Result<Vec<FrameEvent>, FrameError>
    ensures told { IfOk result (λ given. flat_map event_tokens given.items ≡ tokens_of bytes.now) }
    ensures whole { OnOk result (IsWhole bytes.now) }
    ensures fault { IfErr result (IsFrameErrorOf bytes.now) }
{
    let mut events = Vec::new(alloc);
    let mut reader = FrameReader::new(alloc);
    reader.feed(bytes, &mut events)?;
    reader.finish()?;
    Ok(events)
}

// The frame that events tell.
fn frame_of(alloc: Global, events: Vec<FrameEvent>) -> Result<Frame, AllocError>
    ensures { IfOk result (λ frame.
        with_tokens ([], []) (flat_map event_tokens events.items) ≡ (frame.entry, frame.files)) }
{
    let mut entry = Bytes::new(Vec::new(alloc));
    let mut files = Vec::new(alloc);
    for event in events {
        add_event(alloc, &mut entry, &mut files, event)?;
    }
    Ok(Frame {
        entry,
        files: FileList::new(files),
    })
}

/// The frame of an entry's text and of files whose paths rise. The text is shorter than 2^32 bytes, and there are fewer
/// than 2^32 files.
pub fn write_frame(alloc: Global, entry: &[u8], files: &[FileBytes]) -> Result<Vec<u8>, AllocError>
    requires entry { length entry.now < 2 ^ 32 }
    requires count { length files.now < 2 ^ 32 }
    requires rise { paths_rise files.now ≡ true }
    ensures { IfOk result (λ out. IsFrame out.items entry.now files.now) }
{
    let mut out = Vec::with_capacity(alloc, frame_size(entry, files))?;
    out.extend_from_slice(&MAGIC)?;
    out.extend_from_slice(&(entry.len() as u32).to_be_bytes())?;
    out.extend_from_slice(entry)?;
    out.extend_from_slice(&(files.len() as u32).to_be_bytes())?;
    for file in files {
        add_file(&mut out, file)?;
    }
    out.extend_from_slice(&MARK)?;
    Ok(out)
}

fn add_file(out: &mut Vec<u8>, file: &FileBytes) -> Result<(), AllocError>
    ensures text { OnOk result (out.new.items ≡ out.old.items ++ framed_file file.now) }
    ensures fits { FitsFrame file.now }
{
    let path = file.path.bytes();
    let bytes = file.bytes.as_slice();
    out.extend_from_slice(&(path.len() as u16).to_be_bytes())?;
    out.extend_from_slice(path)?;
    out.extend_from_slice(&(bytes.len() as u64).to_be_bytes())?;
    out.extend_from_slice(bytes)?;
    Ok(())
}

// The number of a frame's bytes, for which room is made at once.
fn frame_size(entry: &[u8], files: &[FileBytes]) -> usize
    ensures { result ≡ told_place (length (frame entry.now files.now)) }
{
    let mut size = entry.len().saturating_add(24);
    for file in files {
        size = size
            .saturating_add(10)
            .saturating_add(file.path.bytes().len())
            .saturating_add(file.bytes.as_slice().len());
    }
    size
}
