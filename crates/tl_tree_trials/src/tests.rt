//! Steps, and the reading calls of a tree.
use crate::agreed::{Loose, of_entries, of_files};
use std::alloc::Global;
use std::process::Abort;
use tl_file::{Bytes, FileBytes};
use tl_journal::Journal;
use tl_memhost::MemHost;
use tl_object::{LineKind, Object, read_object};
use tl_path::{Name, Path, PathRef};
use tl_tree::{Tree, TreeError, canonical_database};

const DATABASE: &str = "tlpkg/texlive.tlpdb";

const BODY: &str = "tlpkg/journal/body";

// The database before the steps. The entries a and b list one path in common.
const BEFORE: &[u8] =
    b"name a\nrunfiles size=2\n texmf-dist/a/old.sty\n texmf-dist/a/same.sty\n\nname b\ndocfiles size=1\n texmf-dist/a/b.sty\nrunfiles size=2\n texmf-dist/a/old.sty\n tlpkg/marks\n\nname c\nsrcfiles size=1\n texmf-dist/c/c.sty\n";

// What the host holds before them.
const START: &[(&str, &[u8])] = &[
    (DATABASE, BEFORE),
    ("texmf-dist/a/b.sty", b"b"),
    ("texmf-dist/a/old.sty", b"old"),
    ("texmf-dist/a/same.sty", b"one"),
    ("texmf-dist/c/c.sty", b"c"),
    ("texmf-dist/gone.txt", b"gone"),
    ("texmf-dist/web2c/updmap.cfg", b"stale"),
    ("tlpkg/marks", b"1"),
];

const ENTRY: &[u8] =
    b"name c\nrevision 7\nexecute addMap c.map\nsrcfiles size=1\n texmf-dist/c/c.sty\n";

const AFTER: &[u8] =
    b"name a\ncategory Package\nrevision 0\nrunfiles size=2\n texmf-dist/a/old.sty\n texmf-dist/a/same.sty\n\nname c\ncategory Package\nrevision 7\nexecute addMap c.map\nsrcfiles size=1\n texmf-dist/c/c.sty\n\n";

// What the host holds after the step that removes b and enters c.
const END: &[(&str, Option<&[u8]>)] = &[
    (DATABASE, Some(AFTER)),
    ("texmf-dist/a/b.sty", None),
    ("texmf-dist/a/old.sty", None),
    ("texmf-dist/a/same.sty", Some(b"one")),
    ("texmf-dist/c/c.sty", Some(b"c")),
    ("texmf-dist/gone.txt", Some(b"gone")),
    ("tlpkg/marks", Some(b"1")),
    (
        "texmf-dist/web2c/fmtutil.cnf",
        Some(b"# fmtutil.cnf, written by tlmgr\n"),
    ),
    (
        "texmf-dist/web2c/updmap.cfg",
        Some(b"# updmap.cfg, written by tlmgr\nMap c.map\n"),
    ),
    (
        "texmf-var/tex/generic/config/language.dat",
        Some(b"% language.dat, written by tlmgr\n"),
    ),
    (
        "texmf-var/tex/generic/config/language.dat.lua",
        Some(b"-- language.dat.lua, written by tlmgr\nreturn {\n}\n"),
    ),
    (
        "texmf-var/tex/generic/config/language.def",
        Some(b"% language.def, written by tlmgr\n"),
    ),
];

// The records of its body: the removes and then the writes, in byte order, each path once.
const RECORDS: &[&[u8]] = &[
    b"R\x00\x12texmf-dist/a/b.sty",
    b"R\x00\x14texmf-dist/a/old.sty",
    b"W\x00\x1ctexmf-dist/web2c/fmtutil.cnf\x00\x00\x00\x00\x00\x00\x00\x20# fmtutil.cnf, written by tlmgr\n",
    b"W\x00\x1btexmf-dist/web2c/updmap.cfg\x00\x00\x00\x00\x00\x00\x00\x29# updmap.cfg, written by tlmgr\nMap c.map\n",
    b"W\x00\x29texmf-var/tex/generic/config/language.dat\x00\x00\x00\x00\x00\x00\x00\x21% language.dat, written by tlmgr\n",
    b"W\x00\x2dtexmf-var/tex/generic/config/language.dat.lua\x00\x00\x00\x00\x00\x00\x00\x31-- language.dat.lua, written by tlmgr\nreturn {\n}\n",
    b"W\x00\x29texmf-var/tex/generic/config/language.def\x00\x00\x00\x00\x00\x00\x00\x21% language.def, written by tlmgr\n",
    b"W\x00\x13tlpkg/texlive.tlpdb\x00\x00\x00\x00\x00\x00\x00\xbe",
    AFTER,
    b"E",
];

// A database in which two entries list one path.
const LISTED: &[u8] =
    b"name b\nrunfiles size=0\n x/y\n\nname a\nbinfiles size=0 arch=p-q\n x/z\ndocfiles size=0\n x/y\n\nname c\nrunfiles size=0\n tlpkg/marks\nsrcfiles size=0\n x/s\n x/t\n";

// Its canonical form.
const LISTED_AS_WRITTEN: &[u8] =
    b"name a\ncategory Package\nrevision 0\ndocfiles size=0\n x/y\nbinfiles arch=p-q size=0\n x/z\n\nname b\ncategory Package\nrevision 0\nrunfiles size=0\n x/y\n\nname c\ncategory Package\nrevision 0\nsrcfiles size=0\n x/s\n x/t\nrunfiles size=0\n tlpkg/marks\n\n";

const OWNERS: &[(&str, Option<&str>)] = &[
    ("x/y", Some("a")),
    ("x/z", Some("a")),
    ("x/t", Some("c")),
    ("tlpkg/marks", None),
    ("x", None),
];

fn path(rt: &impl Abort, alloc: Global, text: &str) -> Path {
    Path::parse(alloc, text.as_bytes())
        .ok()
        .expect(rt, "a path")
}

fn file(rt: &impl Abort, alloc: Global, name: &str, bytes: &[u8]) -> FileBytes {
    let bytes = Vec::from_slice(alloc, bytes).ok().expect(rt, "memory");
    FileBytes {
        path: path(rt, alloc, name),
        bytes: Bytes::new(bytes),
    }
}

fn object(rt: &impl Abort, alloc: Global, text: &[u8]) -> Object {
    assert!(rt; text.len() < 1000);
    read_object(alloc, text).ok().expect(rt, "an entry")
}

fn host(rt: &impl Abort, alloc: Global, files: &[(&str, &[u8])]) -> MemHost {
    let mut made = Vec::new(alloc);
    for (name, bytes) in files {
        let added = made.push(file(rt, alloc, name, bytes));
        added.ok().expect(rt, "memory");
    }
    MemHost::new(alloc, made).ok().expect(rt, "a host")
}

fn planted(rt: &impl Abort, alloc: Global, host: MemHost) -> Tree<MemHost> {
    let recovered = Journal::recover(host).ok().expect(rt, "recovered");
    Tree::load(alloc, recovered.journal)
        .ok()
        .expect(rt, "a tree")
}

// A step that removes b and enters c.
fn stepped(rt: &impl Abort, alloc: Global, tree: Tree<MemHost>) -> Tree<MemHost> {
    let removed = Name::parse(alloc, b"b").ok().expect(rt, "a name");
    match of_entries(rt, alloc, removed, object(rt, alloc, ENTRY)) {
        Ok(change) => tree.step(alloc, &change).ok().expect(rt, "a step"),
        Err(_) => panic!(rt; "no memory"),
    }
}

fn holds_the_end(rt: &impl Abort, alloc: Global, host: &MemHost) {
    for (name, wanted) in END {
        assert_eq!(rt; host.file(&path(rt, alloc, name)), *wanted, "{name}");
    }
}

fn is_body(rt: &impl Abort, body: &[u8]) {
    let mut rest = body;
    for record in RECORDS {
        match rest.strip_prefix(*record) {
            Some(more) => rest = more,
            None => panic!(rt; "{rest:?}"),
        }
    }
    assert_eq!(rt; rest.len(), 0);
}

#[test]
fn a_step_changes_files_and_entries_at_once(rt: HostRuntime) {
    let alloc = rt.alloc();
    let before = planted(&rt, alloc, host(&rt, alloc, START));
    let after = stepped(&rt, alloc, before);
    assert_eq!(rt; after.db().len(), 2);
    let host = after.release().into_host();
    holds_the_end(&rt, alloc, &host);
    let body = host.file(&path(&rt, alloc, BODY));
    is_body(&rt, body.unwrap_or(b""));
    assert_eq!(rt; host.said(), b"step 1/1 edit done\n".as_slice());
    assert_eq!(rt; host.syncs(), 3);
    assert_eq!(rt; host.short(), 0);
}

fn loose(rt: &impl Abort, alloc: Global) -> Loose {
    Loose {
        written: file(rt, alloc, "texmf-var/note.txt", b"notes"),
        erased: path(rt, alloc, "texmf-dist/gone.txt"),
        later: path(rt, alloc, "texmf-var/later.txt"),
    }
}

// Opens a step of files one of which comes later, gives it a part of that file, and gives the step up.
fn abandoned(rt: &impl Abort, alloc: Global, tree: Tree<MemHost>) -> Tree<MemHost> {
    match of_files(rt, alloc, &tree, loose(rt, alloc)) {
        Ok(change) => {
            let opened = tree.open_step(alloc, &change).ok().expect(rt, "a step");
            let later = path(rt, alloc, "texmf-var/later.txt");
            let begun = opened.file(&later, 4).ok().expect(rt, "a file");
            begun.piece(b"la").ok().expect(rt, "bytes").abandon()
        }
        Err(_) => panic!(rt; "no memory"),
    }
}

#[test]
fn a_step_that_is_given_up_leaves_the_tree(rt: HostRuntime) {
    let alloc = rt.alloc();
    let before = planted(&rt, alloc, host(&rt, alloc, START));
    let after = abandoned(&rt, alloc, before);
    assert_eq!(rt; after.db().len(), 3);
    let host = after.release().into_host();
    for (name, bytes) in START {
        let name = path(&rt, alloc, name);
        assert_eq!(rt; host.file(&name), Some(*bytes));
    }
    assert_eq!(rt; host.file(&path(&rt, alloc, "texmf-var/note.txt")), None);
    assert_eq!(rt; host.said(), b"".as_slice());
}

fn has_owners(rt: &impl Abort, alloc: Global, tree: &Tree<MemHost>) {
    for (name, owner) in OWNERS {
        let found = tree.owner(&path(rt, alloc, name));
        assert_eq!(rt; found.map(|name| name.text()), *owner, "{name}");
    }
}

// The file's size, whether it is there, and what is read of it from its second byte on.
fn looks(rt: &impl Abort, tree: &mut Tree<MemHost>, path: &Path, size: Option<u64>, read: &[u8]) {
    assert_eq!(rt; tree.size(path.view()).ok(), Some(size));
    assert_eq!(rt; tree.present(path).ok(), Some(size.is_some()));
    let mut into = [0; 4];
    let count = tree.read(path.view(), 1, &mut into).ok();
    assert_eq!(rt; count, Some(read.len()));
    assert!(rt; into.starts_with(read));
}

// The least name of all, and that there is none after the last.
fn has_names(rt: &impl Abort, tree: &mut Tree<MemHost>) {
    let mut name = [0; 1024];
    let first = tree.next_name(None, &mut name).ok();
    assert_eq!(rt; first, Some(Some(11)));
    assert!(rt; name.starts_with(b"tlpkg/marks"));
    let last = PathRef::known(DATABASE);
    let none = tree.next_name(Some(last), &mut name).ok();
    assert_eq!(rt; none, Some(None));
}

#[test]
fn a_tree_tells_its_names_and_their_owners(rt: HostRuntime) {
    let alloc = rt.alloc();
    let files = [
        (DATABASE, LISTED),
        (BODY, b"E".as_slice()),
        ("tlpkg/marks", b"123"),
    ];
    let mut tree = planted(&rt, alloc, host(&rt, alloc, &files));
    assert_eq!(rt; tree.db().len(), 3);
    has_owners(&rt, alloc, &tree);
    let marks = path(&rt, alloc, "tlpkg/marks");
    looks(&rt, &mut tree, &marks, Some(3), b"23");
    looks(&rt, &mut tree, &path(&rt, alloc, BODY), None, b"");
    has_names(&rt, &mut tree);
    assert!(rt; tree.say(b"done\n").is_ok());
    let host = tree.release().into_host();
    assert_eq!(rt; host.said(), b"done\n".as_slice());
}

// The database that a host holds, in its canonical form.
fn canonical(rt: &impl Abort, alloc: Global, text: &[u8]) -> Result<Vec<u8>, TreeError> {
    let host = host(rt, alloc, &[(DATABASE, text)]);
    let mut recovered = Journal::recover(host).ok().expect(rt, "recovered");
    canonical_database(alloc, &mut recovered.journal)
}

#[test]
fn a_database_is_given_in_its_canonical_form(rt: HostRuntime) {
    let alloc = rt.alloc();
    for text in [LISTED, LISTED_AS_WRITTEN] {
        let given = canonical(&rt, alloc, text).ok().expect(&rt, "a text");
        assert_eq!(rt; given.as_slice(), LISTED_AS_WRITTEN);
    }
    let empty = canonical(&rt, alloc, b"").ok().expect(&rt, "a text");
    assert!(rt; empty.is_empty());
    let bad = TreeError::BadDatabase {
        line: 2,
        kind: LineKind::Key,
    };
    assert!(rt; canonical(&rt, alloc, b"name a\ncolour red\n").err() == Some(bad));
}
