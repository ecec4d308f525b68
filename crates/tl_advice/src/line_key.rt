//! The key of a line of the database, and the form of its value in words.
use std::alloc::Global;
use tl_host::{Host, read_file};
use tl_path::PathRef;

// The greatest database that is looked at, as the tree itself has it.
const MOST_BYTES: u64 = 268_435_456;

/// What the database of a tree has at a line, counted from 1: its text up to the first space; none where that can't be read again.
pub fn key_at<H: Host>(alloc: Global, host: &mut H, line: u32) -> Option<Vec<u8>> {
    let database = PathRef::known("tlpkg/texlive.tlpdb");
    match read_file(alloc, host, database, MOST_BYTES) {
        Ok(Some(text)) => {
            let key = key_in(text.as_slice(), (line as usize).saturating_sub(1))?;
            Vec::from_slice(alloc, key).ok()
        }
        _ => None,
    }
}

// The key of a line, counted from 0.
fn key_in(text: &[u8], at: usize) -> Option<&[u8]> {
    let line = text.split(|byte| *byte == b'\n').nth(at)?;
    line.split(|byte| *byte == b' ').next()
}

/// What a key takes as its value, where that is told in few words. No memory.
pub fn form_of(key: &[u8]) -> Option<&'static str> {
    match str::from_utf8(key) {
        Ok("revision") => Some("revision takes a number"),
        Ok("name") => Some("name takes how a package is named"),
        Ok("category") => { Some("category takes Package, TLCore, ConTeXt, Collection or Scheme") }
        Ok("relocated") => Some("relocated takes 0 or 1"),
        Ok("containersize" | "doccontainersize" | "srccontainersize") => {
            Some("a container's size is a number")
        }
        Ok("containerchecksum" | "doccontainerchecksum" | "srccontainerchecksum") => {
            Some("a container's checksum is 128 hexadecimal digits")
        }
        Ok("runfiles" | "docfiles" | "srcfiles") => {
            Some("a list of files begins with its key and size=NUMBER")
        }
        Ok("binfiles") => {
            Some("a list of programs begins with binfiles arch=PLATFORM size=NUMBER")
        }
        _ => None,
    }
}
