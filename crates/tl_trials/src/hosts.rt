//! Hosts in memory, words, and the call that is made over them.
use std::alloc::Global;
use std::process::Abort;
use std::thread::Threads;
use tl_file::{Bytes, FileBytes};
use tl_memhost::{MemHost, MemShelf, MemSource};
use tl_path::Path;
use tl_tool::{Ending, Regexps, texlive};

pub(crate) fn path(rt: &impl Abort, alloc: Global, name: &str) -> Path {
    Path::parse(alloc, name.as_bytes())
        .ok()
        .expect(rt, "a path")
}

// These files, by their names.
pub(crate) fn files(rt: &impl Abort, alloc: Global, files: &[(&str, &[u8])]) -> Vec<FileBytes> {
    let mut made = Vec::new(alloc);
    for (name, bytes) in files {
        let added = made.push(FileBytes {
            path: path(rt, alloc, name),
            bytes: Bytes::new(bytes_of(rt, alloc, bytes)),
        });
        added.ok().expect(rt, "memory");
    }
    made
}

// A host that holds these files.
pub(crate) fn host(rt: &impl Abort, alloc: Global, held: &[(&str, &[u8])]) -> MemHost {
    let made = files(rt, alloc, held);
    MemHost::new(alloc, made).ok().expect(rt, "a host")
}

// A shelf of repositories that hold these files, at which these calls fail.
pub(crate) fn shelf(
    rt: &impl Abort,
    alloc: Global,
    held: &[&[(&str, &[u8])]],
    failing: &[u64],
) -> MemShelf {
    let mut repositories = Vec::new(alloc);
    for repository in held {
        let added = repositories.push(files(rt, alloc, repository));
        added.ok().expect(rt, "memory");
    }
    let made = MemShelf::new(alloc, repositories);
    let mut shelf = made.ok().expect(rt, "a shelf");
    for call in failing {
        shelf.fail_at(*call).ok().expect(rt, "memory");
    }
    shelf
}

pub(crate) fn bytes_of(rt: &impl Abort, alloc: Global, bytes: &[u8]) -> Vec<u8> {
    Vec::from_slice(alloc, bytes).ok().expect(rt, "memory")
}

// These words, as bytes.
pub(crate) fn words(rt: &impl Abort, alloc: Global, words: &[&str]) -> Vec<Vec<u8>> {
    let mut all = Vec::new(alloc);
    for word in words {
        let added = all.push(bytes_of(rt, alloc, word.as_bytes()));
        added.ok().expect(rt, "memory");
    }
    all
}

// Carries words out over a host, without repositories and input.
pub(crate) fn carry_out<R: Abort + Threads + Sync>(
    rt: &R,
    alloc: Global,
    words: &[Vec<u8>],
    host: MemHost,
) -> (Ending, MemHost) {
    let shelf = MemShelf::new(alloc, Vec::new(alloc));
    carry_out_over(rt, alloc, words, host, shelf.ok().expect(rt, "a shelf"))
}

// Carries words out over a host and a shelf, without input.
pub(crate) fn carry_out_over<R: Abort + Threads + Sync>(
    rt: &R,
    alloc: Global,
    words: &[Vec<u8>],
    host: MemHost,
    shelf: MemShelf,
) -> (Ending, MemHost) {
    let mut shelf = shelf;
    let mut input = MemSource::new(alloc, Vec::new(alloc));
    texlive(
        rt,
        alloc,
        words,
        host,
        &mut shelf,
        &mut input,
        &mut Regexps::new(),
    )
}
