//! What a section wants: patterns before their variables are replaced.
ghost use Rattle.std.specs.Prelude.{◌≡◌};
ghost use Rattle.std.specs.List.{list_all};
ghost use Rattle.tl_srctext.specs.declared.pattern.SourcePattern.{SourcePattern};
ghost use Rattle.tl_auto.specs.Wanted.{own_patterns, with_suffix, automatic};

use crate::section::Section;
use std::marker::Model;
use tl_pattern::PatternKind;
use tl_srctext::{SourceFields, SourcePattern};

/// The texts of the automatic patterns of what a package needs at work.
pub(crate) const RUN_TEXTS: [&str; 12] = [
    "texmf-dist bibtex ${PKGNAME}",
    "texmf-dist context ${PKGNAME}",
    "texmf-dist dvips ${PKGNAME}",
    "texmf-dist fonts ${PKGNAME}",
    "texmf-dist makeindex ${PKGNAME}",
    "texmf-dist metafont ${PKGNAME}",
    "texmf-dist metapost ${PKGNAME}",
    "texmf-dist mft ${PKGNAME}",
    "texmf-dist omega ${PKGNAME}",
    "texmf-dist scripts ${PKGNAME}",
    "texmf-dist tex ${PKGNAME}",
    "texmf-dist vtex ${PKGNAME}",
];

/// That of the folder of its documentation.
pub(crate) const DOC_TEXTS: [&str; 1] = ["texmf-dist doc ${PKGNAME}"];

/// That of its pages of the manual.
pub(crate) const MANUAL_TEXTS: [&str; 1] = ["texmf-dist/doc/man/man1/${PKGNAME}.*"];

/// That of the folder of its sources.
pub(crate) const SOURCE_TEXTS: [&str; 1] = ["texmf-dist source ${PKGNAME}"];

/// Nothing, and what ends the names of programs on Windows.
pub(crate) const WINDOWS_SUFFIXES: [&str; 6] = ["", ".exe", ".dll", ".bat", ".cmd", ".texlua"];

/// Nothing.
pub(crate) const NO_SUFFIX: [&str; 1] = [""];

// A pattern before its variables are replaced.
#[derive(Drop)]
pub(crate) struct Wanted<'s> {
    // 0 for an automatic one.
    pub(crate) line: u32,
    pub(crate) positive: bool,
    pub(crate) kind: PatternKind,
    pub(crate) text: &'s [u8],
    // What comes behind the text.
    pub(crate) suffix: &'s [u8],
}

impl<'s> Model for Wanted<'s> {
    ghost use Rattle.tl_auto.specs.Wanted as seen;

    ghost Value = { seen.Wanted };

    ghost view = { λ a. record { line = a.line; positive = a.positive; kind = a.kind; text = a.text.now; suffix = a.suffix.now } };
}

// An automatic pattern.
pub(crate) fn automatic(kind: PatternKind, text: &str) -> Wanted<'_>
    ensures { result ≡ automatic kind text.now }
{
    Wanted {
        line: 0,
        positive: true,
        kind,
        text: text.as_bytes(),
        suffix: b"",
    }
}

// A source's pattern with something behind its text.
pub(crate) fn with_suffix<'s>(pattern: &'s SourcePattern, suffix: &'s str) -> Wanted<'s>
    ensures { result ≡ with_suffix pattern.now suffix.now }
{
    Wanted {
        line: pattern.line,
        positive: !pattern.takes_out,
        kind: pattern.kind,
        text: pattern.text.bytes(),
        suffix: suffix.as_bytes(),
    }
}

// A source's own patterns of a section.
pub(crate) fn own_patterns(source: &SourceFields, section: Section) -> &[SourcePattern]
    ensures { result.now ≡ own_patterns source.now section }
{
    match section {
        Section::Run => source.run.as_slice(),
        Section::Doc => source.doc.as_slice(),
        Section::Src => source.src.as_slice(),
        Section::Bin(_) => source.bin.as_slice(),
    }
}

// Whether each of these leaves the automatic patterns in force.
pub(crate) fn all_add(own: &[SourcePattern]) -> bool
    ensures { result ≡ list_all (λ (p : SourcePattern). p.adds) own.now }
{
    own.iter().all(|pattern| pattern.adds)
}
