//! What a person is told beside a refusal's line: what was wrong, where, and what to do.
use crate::advised_words::AdvisedWords;
use crate::kinds::{
    edit_words, execute_words, line_words, quantity_words, regexp_words, source_words,
};
use crate::line_key::form_of;
use crate::one_word::OneWord;
use std::fmt;
use tl_object::LineKind;
use tl_real::OneLine;
use tl_refusal::Refusal;

/// A refusal as a sentence. It prints as one line without its end.
#[derive(Clone, Copy)]
pub struct Advice<'a> {
    refusal: &'a Refusal,
    words: &'a [Vec<u8>],
    key: &'a [u8],
}

impl<'a> Advice<'a> {
    /// The sentence for a refusal of these words; the key is that of the database's bad line, or empty. No memory.
    pub fn new(refusal: &'a Refusal, words: &'a [Vec<u8>], key: &'a [u8]) -> Advice<'a> {
        Advice {
            refusal,
            words,
            key,
        }
    }
}

impl fmt::Display for Advice<'_> {
    fn fmt<W: fmt::Write>(&self, f: &mut fmt::Formatter<W>) -> fmt::Result {
        match self.refusal {
            Refusal::BadWords { at, kind } => {
                write!(f, "{}", AdvisedWords::new(self.words, *at as usize, *kind))
            }
            Refusal::BadDatabase { line, kind } => write!(
                f,
                "tlpkg/texlive.tlpdb, line {line}: {}",
                value_words(*kind, self.key),
            ),
            refusal => tell_files(refusal, f),
        }
    }
}

// What is wrong with a line of the database that has this key.
fn value_words(kind: LineKind, key: &[u8]) -> &'static str {
    match (kind, form_of(key)) {
        (LineKind::Value, Some(words)) => words,
        _ => line_words(kind),
    }
}

// Files of the tree that don't read.
fn tell_files<W: fmt::Write>(refusal: &Refusal, f: &mut fmt::Formatter<W>) -> fmt::Result {
    match refusal {
        Refusal::BadJournal { at } => write!(
            f,
            "tlpkg/journal holds a change that does not read, from byte {at} of its body on; nothing was changed: \
             the tree may hold a part of that change, and without tlpkg/journal/gate it is taken as it is",
        ),
        Refusal::BadPins { line } => write!(
            f,
            "tlpkg/pinning.txt, line {line}: a line has the form TAG:GLOB,GLOB",
        ),
        Refusal::BadMarks { line } => write!(f, "tlpkg/marks, line {line}: the line does not read"),
        refusal => tell_lists(refusal, f),
    }
}

// The list of the files, the main tree of a user's, and limits.
fn tell_lists<W: fmt::Write>(refusal: &Refusal, f: &mut fmt::Formatter<W>) -> fmt::Result {
    match refusal {
        Refusal::NoLsr => f.write_str("texmf-dist/ls-R is not there; texlive TREE lsr writes it"),
        Refusal::BadLsr { line } => write!(
            f,
            "texmf-dist/ls-R, line {line}: such a line does not stand there; texlive TREE lsr writes the file anew",
        ),
        Refusal::MainOpen => f.write_str(
            "a change of the main tree is not finished; any command over the main tree alone finishes it",
        ),
        Refusal::MainDatabase { line, kind } => write!(
            f,
            "tlpkg/texlive.tlpdb of the main tree, line {line}: {}",
            line_words(*kind),
        ),
        Refusal::TooLarge { what, limit } => write!(
            f,
            "{} would pass the limit of {limit}; nothing was changed by that",
            quantity_words(*what),
        ),
        refusal => tell_sources(refusal, f),
    }
}

// Sources, and what is given as input.
fn tell_sources<W: fmt::Write>(refusal: &Refusal, f: &mut fmt::Formatter<W>) -> fmt::Result {
    match refusal {
        Refusal::BadSource { name, line, kind } => write!(
            f,
            "tlpkg/tlpsrc/{name}.tlpsrc, line {line}: {}",
            source_words(*kind),
        ),
        Refusal::UnsetVariable { name, line } => write!(
            f,
            "tlpkg/tlpsrc/{name}.tlpsrc, line {line}: a variable of the pattern has no value there",
        ),
        Refusal::BadPath { name, line } => write!(
            f,
            "tlpkg/tlpsrc/{name}.tlpsrc, line {line}: the pattern speaks of a path that is none",
        ),
        Refusal::Regexp { name, line, kind } => write!(
            f,
            "tlpkg/tlpsrc/{name}.tlpsrc, line {line}: {}",
            regexp_words(*kind),
        ),
        Refusal::NoSource { name } => write!(f, "tlpkg/tlpsrc/{name}.tlpsrc is not there"),
        Refusal::Twice { name } => write!(
            f,
            "two sources make a package {name}; one of them has to go or to be named otherwise",
        ),
        Refusal::MarksSpent => f.write_str("tlpkg/marks has reached its greatest number"),
        Refusal::BadEdit { at, kind } => {
            write!(f, "edit {at} of the input: {}", edit_words(*kind))
        }
        Refusal::BadQuote { at } => write!(
            f,
            "the double quote at byte {at} of the line has no partner",
        ),
        refusal => tell_repositories(refusal, f),
    }
}

// Repositories, and what is in them.
fn tell_repositories<W: fmt::Write>(refusal: &Refusal, f: &mut fmt::Formatter<W>) -> fmt::Result {
    match refusal {
        Refusal::Absent { repo, name } => write!(
            f,
            "the repository {repo} has no file {name}; -repository={repo}=DIR names its folder",
        ),
        Refusal::BadDigestLine { repo } => write!(
            f,
            "tlpkg/texlive.tlpdb.sha512 of the repository {repo} does not read; the copy may be damaged",
        ),
        Refusal::RepoDigest { repo, .. } => write!(
            f,
            "tlpkg/texlive.tlpdb of the repository {repo} is not the one that its digest speaks of; the copy may be \
             damaged, or was being made anew",
        ),
        Refusal::RepoDatabase { repo, line, kind } => write!(
            f,
            "tlpkg/texlive.tlpdb of the repository {repo}, line {line}: {}",
            line_words(*kind),
        ),
        Refusal::ContainerFormat { repo, format } => write!(
            f,
            "the repository {repo} has containers in the format {}, which this program does not read",
            OneWord(format.bytes()),
        ),
        Refusal::UnknownPackage { name } => write!(
            f,
            "no package {name} is here, and none that the pins let come from a repository",
        ),
        Refusal::MirrorMoving { name } => write!(
            f,
            "the repository changed while it was copied, the last time at {name}; try again later",
        ),
        refusal => tell_containers(refusal, f),
    }
}

// Containers.
fn tell_containers<W: fmt::Write>(refusal: &Refusal, f: &mut fmt::Formatter<W>) -> fmt::Result {
    match refusal {
        Refusal::NoContainer { name } => write!(
            f,
            "the repository's entry of {name} lacks the size or the digest of a container",
        ),
        Refusal::SizeDiffers {
            repo,
            name,
            want,
            got,
        } => write!(
            f,
            "{name} of the repository {repo} has {got} bytes, not {want}; the copy may be damaged",
        ),
        Refusal::DigestDiffers { repo, name, .. } => write!(
            f,
            "{name} of the repository {repo} is not the one that its digest speaks of; the copy may be damaged",
        ),
        Refusal::BadFrame { name, at } => write!(
            f,
            "{name} does not read as a container, from byte {at} on; the copy may be damaged",
        ),
        Refusal::FrameEntry { name } => write!(
            f,
            "the container of {name} holds another entry, or other files, than it has to",
        ),
        Refusal::NoBackup { name, rev } => write!(
            f,
            "there is no backup of {name} with revision {rev}; texlive TREE restore {name} lists them",
        ),
        refusal => tell_packages(refusal, f),
    }
}

// Packages.
fn tell_packages<W: fmt::Write>(refusal: &Refusal, f: &mut fmt::Formatter<W>) -> fmt::Result {
    match refusal {
        Refusal::NotInstalled { name } => write!(f, "{name} is not installed in this tree"),
        Refusal::Protected { name } => write!(
            f,
            "{name} may not be named here: the manager keeps it itself, or it is a part of another package",
        ),
        Refusal::Needed { name, by } => write!(
            f,
            "{by}, which stays, needs {name}; name {by} too, or remove with -force",
        ),
        Refusal::Relocated { name } => write!(
            f,
            "{name} is a package whose files are to be placed elsewhere, which this program does not do",
        ),
        Refusal::NotUser { name, path } => write!(
            f,
            "{name} has the file {path}, which can stand in no user's tree",
        ),
        Refusal::BadExecute { name, at, kind } => write!(
            f,
            "execute {at} of {name}, counted from 0: {}",
            execute_words(*kind),
        ),
        refusal => tell_options(refusal, f),
    }
}

// Options and pins.
fn tell_options<W: fmt::Write>(refusal: &Refusal, f: &mut fmt::Formatter<W>) -> fmt::Result {
    match refusal {
        Refusal::UnknownOption { name } => write!(
            f,
            "a tree has no option {name}; texlive TREE option lists them",
        ),
        Refusal::BadValue { option } => write!(
            f,
            "the option {option} takes no such value; texlive TREE option {option} shows the one that it has",
        ),
        Refusal::NoPin { repo, glob } if glob.bytes().is_empty() => write!(
            f,
            "there are no pins of the repository {repo}; texlive TREE pinning show lists the pins",
        ),
        Refusal::NoPin { repo, glob } => write!(
            f,
            "the repository {repo} has no pin {}; texlive TREE pinning show lists the pins",
            OneLine(glob.text()),
        ),
        refusal => tell_paths(refusal, f),
    }
}

// Paths.
fn tell_paths<W: fmt::Write>(refusal: &Refusal, f: &mut fmt::Formatter<W>) -> fmt::Result {
    match refusal {
        Refusal::Reserved { path } => write!(f, "{path} is kept for the manager's own files"),
        Refusal::Clash {
            path,
            first,
            second,
        } => write!(
            f,
            "{first} and {second} both bring {path}, or one brings a file where the other needs a folder",
        ),
        Refusal::Owned { path, owner } => write!(
            f,
            "{path} is a file of {owner}, which is installed, or in the way of one",
        ),
        Refusal::Occupied { path } => write!(
            f,
            "a file that no package has stands at {path}, above it or below it; move it away first",
        ),
        Refusal::FileMissing { path } => write!(
            f,
            "{path} is a file of an installed package and is not there",
        ),
        Refusal::NoFile { path } => write!(f, "there is no file {path}"),
        refusal => f.write_str(refusal.name()),
    }
}
