//! The entry's text and the files that events tell.
ghost use Rattle.std.specs.Prelude.{◌≡◌, ◌++◌, IfOk, OnOk};
ghost use Rattle.tl_frame.specs.Events.{event_tokens, with_bytes, with_tokens};

use crate::event::FrameEvent;
use std::alloc::{AllocError, Global};
use tl_file::{Bytes, FileBytes};

/// Adds what an event tells to an entry's text and files.
pub fn add_event(
    alloc: Global,
    entry: &mut Bytes,
    files: &mut Vec<FileBytes>,
    event: FrameEvent,
) -> Result<(), AllocError>
    ensures { OnOk result (with_tokens (entry.old, files.old.items) (event_tokens event)
        ≡ (entry.new, files.new.items)) }
{
    match event {
        FrameEvent::Entry(text) => {
            *entry = text;
            Ok(())
        }
        FrameEvent::File { path, len: _ } => {
            let bytes = Bytes::new(Vec::new(alloc));
            files.push(FileBytes { path, bytes })?;
            Ok(())
        }
        FrameEvent::Bytes(bytes) => add_bytes(files, bytes),
        FrameEvent::End => Ok(()),
    }
}

// Adds bytes to the last file.
fn add_bytes(files: &mut Vec<FileBytes>, bytes: Bytes) -> Result<(), AllocError>
    ensures { OnOk result (files.new.items ≡ with_bytes files.old.items bytes) }
{
    match files.pop() {
        Some(file) => {
            let bytes = joined(file.bytes, bytes)?;
            files.push(FileBytes {
                path: file.path,
                bytes,
            })?;
            Ok(())
        }
        None => Ok(()),
    }
}

// The bytes of both. Where there are none yet nothing is copied.
fn joined(before: Bytes, more: Bytes) -> Result<Bytes, AllocError>
    ensures { IfOk result (λ both. both ≡ before ++ more) }
{
    let mut items = before.into_vec();
    if items.is_empty() {
        return Ok(more);
    }
    items.extend_from_slice(more.as_slice())?;
    Ok(Bytes::new(items))
}
