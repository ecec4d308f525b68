//! Why a command is refused, by its name and its fields.
ghost use Rattle.std.specs.Prelude.{◌≡◌};
ghost use Rattle.tl_refusal.specs.Refusals.{refusal_name, refusal_fields, refusal_status};
ghost use Rattle.tl_refusal.specs.Fields.{fields_in};
ghost use Rattle.tl_refusal.specs.Values.{AreOneLine};

use crate::field::{Fields, digested, named, number, placed, tagged, texted};
use crate::kinds::{
    edit_kind, execute_kind, line_kind, quantity, regexp_kind, source_kind, word_kind,
};
use std::fmt;
use tl_execute::ExecuteKind;
use tl_kind::{EditKind, RegexpKind, SourceKind, What};
use tl_object::LineKind;
use tl_path::{Name, Path, Tag};
use tl_text::Text;
use tl_words::WordKind;

/// Why a command was refused. As text it is the line that the program says, without the line end: the name, and each field with its
/// value. Lines are counted from 1.
#[derive(Debug, Drop)]
pub enum Refusal {
    /// The words are no command, from this word on, counted from 0.
    BadWords {
        at: u32,
        kind: WordKind,
    },
    /// The double quote at this byte of a session's line has no partner.
    BadQuote {
        at: u32,
    },
    /// The journal is open at a body that doesn't read, from this byte on.
    BadJournal {
        at: u64,
    },
    /// The database doesn't read: its first bad line, counted from 1, and what is wrong with it.
    BadDatabase {
        line: u32,
        kind: LineKind,
    },
    /// The pins don't read: their first bad line.
    BadPins {
        line: u32,
    },
    /// The marks don't read: their first bad line.
    BadMarks {
        line: u32,
    },
    /// The source of a package doesn't read: its first bad line, and what is wrong with it.
    BadSource {
        name: Name,
        line: u32,
        kind: SourceKind,
    },
    /// A pattern of a source has a variable without a value.
    UnsetVariable {
        name: Name,
        line: u32,
    },
    /// A pattern of a source has a path that is none.
    BadPath {
        name: Name,
        line: u32,
    },
    /// A regular expression of a source is refused.
    Regexp {
        name: Name,
        line: u32,
        kind: RegexpKind,
    },
    /// The command of an edit doesn't read: its number, counted from 1, and what is wrong with it.
    BadEdit {
        at: u64,
        kind: EditKind,
    },
    /// A repository has no such file.
    Absent {
        repo: Tag,
        name: Path,
    },
    /// The digest of a repository's database doesn't read.
    BadDigestLine {
        repo: Tag,
    },
    /// A repository's database has another digest than the one that is stated.
    RepoDigest {
        repo: Tag,
        want: [u8; 64],
        got: [u8; 64],
    },
    /// A repository's database doesn't read.
    RepoDatabase {
        repo: Tag,
        line: u32,
        kind: LineKind,
    },
    /// A repository's containers are in a format that can't be read.
    ContainerFormat {
        repo: Tag,
        format: Text,
    },
    /// A package is to be placed elsewhere.
    Relocated {
        name: Name,
    },
    /// A package has a part without the size or the digest of its container.
    NoContainer {
        name: Name,
    },
    /// A container has another size than its entry states.
    SizeDiffers {
        repo: Tag,
        name: Path,
        want: u64,
        got: u64,
    },
    /// A container has another digest than its entry states.
    DigestDiffers {
        repo: Tag,
        name: Path,
        want: [u8; 64],
        got: [u8; 64],
    },
    /// A container doesn't read, from this byte on.
    BadFrame {
        name: Path,
        at: u64,
    },
    /// A package's container holds another entry, or other files, than it has to.
    FrameEntry {
        name: Name,
    },
    /// No repository has a package of this name.
    UnknownPackage {
        name: Name,
    },
    /// No package of this name is installed.
    NotInstalled {
        name: Name,
    },
    /// The package may not be named here.
    Protected {
        name: Name,
    },
    /// A package that stays needs this one.
    Needed {
        name: Name,
        by: Name,
    },
    /// An execute of a package doesn't read: its number, counted from 0, and what is wrong with it.
    BadExecute {
        name: Name,
        at: u32,
        kind: ExecuteKind,
    },
    /// The path is kept for the manager's own files.
    Reserved {
        path: Path,
    },
    /// Two packages that come claim a path, or one above or below it.
    Clash {
        path: Path,
        first: Name,
        second: Name,
    },
    /// The path, or one above or below it, is an installed package's.
    Owned {
        path: Path,
        owner: Name,
    },
    /// A file that no package has stands at the path, or above or below it.
    Occupied {
        path: Path,
    },
    /// A package's file isn't there.
    FileMissing {
        path: Path,
    },
    /// There is no backup of this revision.
    NoBackup {
        name: Name,
        rev: u32,
    },
    /// There is no source of this name.
    NoSource {
        name: Name,
    },
    /// There is no file at this path.
    NoFile {
        path: Path,
    },
    /// Two sources make a package of this name.
    Twice {
        name: Name,
    },
    /// No greater mark is left.
    MarksSpent,
    /// No option of a tree has this name.
    UnknownOption {
        name: Name,
    },
    /// The value isn't in the form of this option.
    BadValue {
        option: Name,
    },
    /// No pin of this repository has the pattern; an empty one stands for all.
    NoPin {
        repo: Tag,
        glob: Text,
    },
    /// The journal of the main tree is open.
    MainOpen,
    /// The database of the main tree doesn't read.
    MainDatabase {
        line: u32,
        kind: LineKind,
    },
    /// A package has a file that can't stand in a user's tree.
    NotUser {
        name: Name,
        path: Path,
    },
    /// The repository that is copied changed again and again, the last time at this file.
    MirrorMoving {
        name: Path,
    },
    /// The list of the tree's files isn't there.
    NoLsr,
    /// The list of the tree's files doesn't read: its first bad line.
    BadLsr {
        line: u32,
    },
    /// A quantity passes its limit.
    TooLarge {
        what: What,
        limit: u64,
    },
}

impl Refusal {
    /// The refusal's name. No memory.
    pub fn name(&self) -> &'static str
        ensures { result.now ≡ refusal_name self.now }
    {
        match self {
            Refusal::BadWords { .. } => "BadWords",
            Refusal::BadQuote { .. } => "BadQuote",
            Refusal::BadJournal { .. } => "BadJournal",
            Refusal::BadDatabase { .. } => "BadDatabase",
            Refusal::BadPins { .. } => "BadPins",
            Refusal::BadMarks { .. } => "BadMarks",
            Refusal::BadSource { .. } => "BadSource",
            Refusal::UnsetVariable { .. } => "UnsetVariable",
            Refusal::BadPath { .. } => "BadPath",
            Refusal::Regexp { .. } => "Regexp",
            Refusal::BadEdit { .. } => "BadEdit",
            Refusal::Absent { .. } => "Absent",
            Refusal::BadDigestLine { .. } => "BadDigestLine",
            Refusal::RepoDigest { .. } => "RepoDigest",
            Refusal::RepoDatabase { .. } => "RepoDatabase",
            Refusal::ContainerFormat { .. } => "ContainerFormat",
            Refusal::Relocated { .. } => "Relocated",
            Refusal::NoContainer { .. } => "NoContainer",
            Refusal::SizeDiffers { .. } => "SizeDiffers",
            Refusal::DigestDiffers { .. } => "DigestDiffers",
            Refusal::BadFrame { .. } => "BadFrame",
            Refusal::FrameEntry { .. } => "FrameEntry",
            Refusal::UnknownPackage { .. } => "UnknownPackage",
            Refusal::NotInstalled { .. } => "NotInstalled",
            Refusal::Protected { .. } => "Protected",
            Refusal::Needed { .. } => "Needed",
            Refusal::BadExecute { .. } => "BadExecute",
            Refusal::Reserved { .. } => "Reserved",
            Refusal::Clash { .. } => "Clash",
            Refusal::Owned { .. } => "Owned",
            Refusal::Occupied { .. } => "Occupied",
            Refusal::FileMissing { .. } => "FileMissing",
            Refusal::NoBackup { .. } => "NoBackup",
            Refusal::NoSource { .. } => "NoSource",
            Refusal::NoFile { .. } => "NoFile",
            Refusal::Twice { .. } => "Twice",
            Refusal::MarksSpent => "MarksSpent",
            Refusal::UnknownOption { .. } => "UnknownOption",
            Refusal::BadValue { .. } => "BadValue",
            Refusal::NoPin { .. } => "NoPin",
            Refusal::MainOpen => "MainOpen",
            Refusal::MainDatabase { .. } => "MainDatabase",
            Refusal::NotUser { .. } => "NotUser",
            Refusal::MirrorMoving { .. } => "MirrorMoving",
            Refusal::NoLsr => "NoLsr",
            Refusal::BadLsr { .. } => "BadLsr",
            Refusal::TooLarge { .. } => "TooLarge",
        }
    }

    /// The status that the program ends with: 2 where the words are no command, else 1. No memory.
    pub fn status(&self) -> u8
        ensures { result ≡ refusal_status self.now }
    {
        match self {
            Refusal::BadWords { .. } => 2,
            _ => 1,
        }
    }

    // The fields in order.
    pub(crate) fn fields(&self) -> Fields<'_>
        ensures fields { fields_in result ≡ refusal_fields self.now }
        ensures lines { AreOneLine (refusal_fields self.now) }
    {
        match self {
            Refusal::BadWords { at, kind } => Fields::Two(
                number("at", u64::from(*at)),
                word_kind(*kind),
            ),
            Refusal::BadQuote { at } => Fields::One(number("at", u64::from(*at))),
            Refusal::BadJournal { at } => Fields::One(number("at", *at)),
            Refusal::BadDatabase { line, kind } => Fields::Two(
                number("line", u64::from(*line)),
                line_kind(*kind),
            ),
            Refusal::BadPins { line } => Fields::One(number("line", u64::from(*line))),
            Refusal::BadMarks { line } => Fields::One(number("line", u64::from(*line))),
            Refusal::BadSource { name, line, kind } => Fields::Three(
                named("name", name),
                number("line", u64::from(*line)),
                source_kind(*kind),
            ),
            Refusal::UnsetVariable { name, line } => Fields::Two(
                named("name", name),
                number("line", u64::from(*line)),
            ),
            Refusal::BadPath { name, line } => Fields::Two(
                named("name", name),
                number("line", u64::from(*line)),
            ),
            Refusal::Regexp { name, line, kind } => Fields::Three(
                named("name", name),
                number("line", u64::from(*line)),
                regexp_kind(*kind),
            ),
            Refusal::BadEdit { at, kind } => Fields::Two(number("at", *at), edit_kind(*kind)),
            Refusal::Absent { repo, name } => Fields::Two(
                tagged("repo", repo),
                placed("name", name),
            ),
            Refusal::BadDigestLine { repo } => Fields::One(tagged("repo", repo)),
            Refusal::RepoDigest { repo, want, got } => Fields::Three(
                tagged("repo", repo),
                digested("want", want),
                digested("got", got),
            ),
            Refusal::RepoDatabase { repo, line, kind } => Fields::Three(
                tagged("repo", repo),
                number("line", u64::from(*line)),
                line_kind(*kind),
            ),
            Refusal::ContainerFormat { repo, format } => Fields::Two(
                tagged("repo", repo),
                texted("format", format),
            ),
            Refusal::Relocated { name } => Fields::One(named("name", name)),
            Refusal::NoContainer { name } => Fields::One(named("name", name)),
            Refusal::SizeDiffers {
                repo,
                name,
                want,
                got,
            } => Fields::Four(
                tagged("repo", repo),
                placed("name", name),
                number("want", *want),
                number("got", *got),
            ),
            Refusal::DigestDiffers {
                repo,
                name,
                want,
                got,
            } => Fields::Four(
                tagged("repo", repo),
                placed("name", name),
                digested("want", want),
                digested("got", got),
            ),
            Refusal::BadFrame { name, at } => Fields::Two(placed("name", name), number("at", *at)),
            Refusal::FrameEntry { name } => Fields::One(named("name", name)),
            Refusal::UnknownPackage { name } => Fields::One(named("name", name)),
            Refusal::NotInstalled { name } => Fields::One(named("name", name)),
            Refusal::Protected { name } => Fields::One(named("name", name)),
            Refusal::Needed { name, by } => Fields::Two(named("name", name), named("by", by)),
            Refusal::BadExecute { name, at, kind } => Fields::Three(
                named("name", name),
                number("at", u64::from(*at)),
                execute_kind(*kind),
            ),
            Refusal::Reserved { path } => Fields::One(placed("path", path)),
            Refusal::Clash {
                path,
                first,
                second,
            } => Fields::Three(
                placed("path", path),
                named("first", first),
                named("second", second),
            ),
            Refusal::Owned { path, owner } => Fields::Two(
                placed("path", path),
                named("owner", owner),
            ),
            Refusal::Occupied { path } => Fields::One(placed("path", path)),
            Refusal::FileMissing { path } => Fields::One(placed("path", path)),
            Refusal::NoBackup { name, rev } => Fields::Two(
                named("name", name),
                number("rev", u64::from(*rev)),
            ),
            Refusal::NoSource { name } => Fields::One(named("name", name)),
            Refusal::NoFile { path } => Fields::One(placed("path", path)),
            Refusal::Twice { name } => Fields::One(named("name", name)),
            Refusal::MarksSpent => Fields::Zero,
            Refusal::UnknownOption { name } => Fields::One(named("name", name)),
            Refusal::BadValue { option } => Fields::One(named("option", option)),
            Refusal::NoPin { repo, glob } => Fields::Two(
                tagged("repo", repo),
                texted("glob", glob),
            ),
            Refusal::MainOpen => Fields::Zero,
            Refusal::MainDatabase { line, kind } => Fields::Two(
                number("line", u64::from(*line)),
                line_kind(*kind),
            ),
            Refusal::NotUser { name, path } => Fields::Two(
                named("name", name),
                placed("path", path),
            ),
            Refusal::MirrorMoving { name } => Fields::One(placed("name", name)),
            Refusal::NoLsr => Fields::Zero,
            Refusal::BadLsr { line } => Fields::One(number("line", u64::from(*line))),
            Refusal::TooLarge { what, limit } => Fields::Two(
                quantity(*what),
                number("limit", *limit),
            ),
        }
    }
}

impl fmt::Display for Refusal {
    ghost use Rattle.std.specs.Prelude.{Some};
    ghost use Rattle.tl_refusal.specs.Refusals.{refusal_text};

    ghost output = { λ r. Some (refusal_text r) };

    #[tactic(auto, unfolding(crate::specs::Refusals::refusal_text))]
    fn fmt<W: fmt::Write>(&self, f: &mut fmt::Formatter<W>) -> fmt::Result {
        let name = self.name();
        let fields = self.fields();
        write!(f, "tlmgr: {name}{fields}")
    }
}
