//! What a person is told on standard error, beside what a command says.
use crate::want_of_memory;
use std::fmt;
use std::fs::File;
use std::io::{ErrorKind, Input};
use std::rt::Files;
use tl_advice::{Advice, OneWord, key_at};
use tl_host::Host;
use tl_path::PathRef;
use tl_real::{Changes, Doing, Failure, FolderHost, FolderShelf, StdSource};
use tl_tool::{Ending, Refusal};

/// What a command was asked for: its words, the folder of its tree, whether it reads the tree's database, and whether there was one.
#[derive(Clone, Copy)]
pub struct Reading<'a> {
    pub words: &'a [Vec<u8>],
    pub root: &'a [u8],
    pub reads_database: bool,
    pub had_database: bool,
}

/// Whether the tree has a database, or something else stands there. It asks the host for a size.
pub fn has_database<H: Host>(host: &mut H) -> bool {
    !matches!(host.size(PathRef::known("tlpkg/texlive.tlpdb")), Ok(None))
}

/// Says at most one line: why the command was refused or ended with a fault, and what to do; or that the folder has no tree.
pub fn tell<R: Files<File = File> + Input + Print + Eprint + AllocGlobal>(
    rt: &R,
    reading: &Reading<'_>,
    ending: &Ending,
    host: FolderHost<'_, R>,
    shelf: &FolderShelf<'_, R>,
    input: &StdSource<'_, R>,
) {
    match ending {
        Ending::HostFault => {
            if let Some(failure) = host.failure() {
                let _ = eprintln!(rt; "texlive: {failure}{}", what_next(failure));
            }
        }
        Ending::ShelfFault => {
            if let Some(failure) = shelf.failure() {
                let _ = eprintln!(rt; "texlive: {failure}");
            }
        }
        Ending::InputFault => {
            if let Some(error) = input.failure() {
                let _ = eprintln!(rt; "texlive: cannot read standard input: {error}");
            }
        }
        Ending::NoMemory => {
            let _ = want_of_memory(rt);
        }
        Ending::Done => tell_done(rt, reading, host),
        Ending::Refused(refusal) => tell_refused(rt, reading, refusal, host),
    }
}

fn tell_done<R: Files<File = File> + Print + Eprint + AllocGlobal>(
    rt: &R,
    reading: &Reading<'_>,
    host: FolderHost<'_, R>,
) {
    let mut host = host;
    if !reading.reads_database {
        return;
    }
    if !has_database(&mut host) {
        let _ = eprintln!(rt; "texlive: {}", NoTree(reading.root));
    } else if !reading.had_database {
        let _ = eprintln!(rt;
            "texlive: {} had no TeX Live tree; one was begun there",
            OneWord(reading.root)
        );
    }
}

fn tell_refused<R: Files<File = File> + Print + Eprint + AllocGlobal>(
    rt: &R,
    reading: &Reading<'_>,
    refusal: &Refusal,
    host: FolderHost<'_, R>,
) {
    let mut host = host;
    let key = match refusal {
        Refusal::BadDatabase { line, .. } => key_at(rt.alloc(), &mut host, *line),
        _ => None,
    };
    let key = match &key {
        Some(key) => key.as_slice(),
        None => b"",
    };
    let advice = Advice::new(refusal, reading.words, key);
    if reading.reads_database && !reading.had_database && !has_database(&mut host) {
        let _ = eprintln!(rt; "texlive: {advice}; {}", NoTree(reading.root));
    } else {
        let _ = eprintln!(rt; "texlive: {advice}");
    }
}

// That a folder has no tree.
#[derive(Clone, Copy)]
struct NoTree<'a>(&'a [u8]);

impl fmt::Display for NoTree<'_> {
    fn fmt<W: fmt::Write>(&self, f: &mut fmt::Formatter<W>) -> fmt::Result {
        write!(
            f,
            "{} is no folder with a TeX Live tree, since it has no file tlpkg/texlive.tlpdb, and counts as an empty one",
            OneWord(self.0),
        )
    }
}

// What to do about a failure of the tree's folder, behind what failed.
fn what_next(failure: &Failure) -> &'static str {
    match (failure.doing(), failure.kind(), failure.changes()) {
        (Doing::Open, ErrorKind::NotFound | ErrorKind::NotADirectory, _) => {
            "; the tree comes first, and its folder has to be there: texlive TREE ACTION"
        }
        (Doing::Lock, ErrorKind::WouldBlock, _) => "; try again when it has ended",
        (Doing::Say, _, Changes::Said | Changes::Unsaid) => "; what was changed in the tree stands",
        (Doing::Sync, _, Changes::Unsaid) => {
            "; the next run finishes the change, or leaves the tree as it was"
        }
        (_, _, Changes::Unsaid) => "; the change stands, and the next run finishes it",
        _ => "",
    }
}
