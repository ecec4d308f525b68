//! Commands over repositories, and what they say: pins, damage, absent files and failing calls.
use crate::hosts::{carry_out_over, host, shelf, words};

const DATABASE: &str = "tlpkg/texlive.tlpdb";

const DIGEST: &str = "tlpkg/texlive.tlpdb.sha512";

struct Row {
    // The files of the tree.
    files: &'static [(&'static str, &'static [u8])],
    // Those of each repository.
    repos: &'static [&'static [(&'static str, &'static [u8])]],
    // The calls of the shelf that fail.
    failing: &'static [u64],
    words: &'static [&'static str],
    said: &'static str,
    status: u8,
}

// foo at 9, and foo2 at 4.
const MAIN: [(&str, &[u8]); 2] = [
    (
        DATABASE,
        b"name foo\ncategory Package\nrevision 9\n\nname foo2\ncategory Package\nrevision 4\n\n",
    ),
    (
        DIGEST,
        b"60404073b7db4c358a23520c8dabf24b14ef742a15c3b2a5d8a8d3fc9da014f92a7f8ea6c4f897c43573d262c207b117a374437b18fb1ded716c78fa88ca4fad  texlive.tlpdb\n",
    ),
];

// baz at 1, and foo at 3.
const TUG: [(&str, &[u8]); 2] = [
    (
        DATABASE,
        b"name baz\ncategory Package\nrevision 1\n\nname foo\ncategory Package\nrevision 3\nshortdesc Of the group\n\n",
    ),
    (
        DIGEST,
        b"588290a060119422e7f904c5c6850488db00ff8a55728dac9e3dc8538350e71849423f6cff8cf14c16914ba041cf49b8b244a48a3cda17ba11a47407b1be7816  texlive.tlpdb\n",
    ),
];

// As TeX Live's own tools make it.
const TEX_LIVE: [(&str, &[u8]); 2] = [
    (
        DATABASE,
        b"name 00texlive.config\ncategory TLCore\nrevision 60000\ndepend container_format/xz\ndepend release/2024\n\nname bar\ncategory Package\nrevision 15878\ncatalogue bar-ctan\nshortdesc Sets in a bar\nrelocated 1\nlongdesc First line of the text.\ncontainersize 2004\ncontainerchecksum ddaf35a193617abacc417349ae20413112e6fa4e89a97ea20a9eeee64b55d39a2192992a274fc1a836ba3c23a3feebbd454d4423643ce80e2a9ac94fa54ca49f\nrunfiles size=1\n RELOC/tex/latex/bar/bar.sty\n\n",
    ),
    (
        DIGEST,
        b"21b0823c6000702e019d4c13118a2474de2d0946b4b895ad0937089d9f906c9c230005bb25db744cd7daa6599dbaae8bcd26034af0a99f1bcee320a8a7290cd1  texlive.tlpdb\n",
    ),
];

// Its database has another digest than is stated.
const DAMAGED: [(&str, &[u8]); 2] = [
    (
        DATABASE,
        b"name foo\ncategory Package\nrevision 8\n\nname foo2\ncategory Package\nrevision 4\n\n",
    ),
    (
        DIGEST,
        b"60404073b7db4c358a23520c8dabf24b14ef742a15c3b2a5d8a8d3fc9da014f92a7f8ea6c4f897c43573d262c207b117a374437b18fb1ded716c78fa88ca4fad  texlive.tlpdb\n",
    ),
];

// Its database doesn't read.
const UNREADABLE: [(&str, &[u8]); 2] = [
    (
        DATABASE,
        b"name foo\ncategory Package\nrevision 9\ncolour red\n\n",
    ),
    (
        DIGEST,
        b"58ea87c066edf0c9213c414c50b0ac243e4cd4619bd948505f6e14daa6953cfd9b3caa942ed29fc31c3e7bc4c482c503aba4f7547820e62354371d430d66ca8d  texlive.tlpdb\n",
    ),
];

// A digit of its digest is missing.
const SHORT: [(&str, &[u8]); 2] = [
    (
        DATABASE,
        b"name foo\ncategory Package\nrevision 9\n\nname foo2\ncategory Package\nrevision 4\n\n",
    ),
    (
        DIGEST,
        b"60404073b7db4c358a23520c8dabf24b14ef742a15c3b2a5d8a8d3fc9da014f92a7f8ea6c4f897c43573d262c207b117a374437b18fb1ded716c78fa88ca4fa\n",
    ),
];

// A database without a digest.
const WITHOUT_DIGEST: [(&str, &[u8]); 1] = [(DATABASE, b"")];

const PINS: (&str, &[u8]) = ("tlpkg/pinning.txt", b"tug:foo*\n");

const NO_SUCH_TAG: (&str, &[u8]) = ("tlpkg/pinning.txt", b"other:*\nmain:foo\n");

const BAD_PINS: (&str, &[u8]) = ("tlpkg/pinning.txt", b"tug:foo*\nnonsense\n");

const ROWS: [Row; 20] = [
    Row {
        files: &[PINS],
        repos: &[&MAIN, &TUG],
        failing: &[],
        words: &[
            "T",
            "-repository=M",
            "-repository=tug=G",
            "candidates",
            "foo",
        ],
        said: "main r9\ntug r3 *\n",
        status: 0,
    },
    Row {
        files: &[PINS],
        repos: &[&MAIN, &TUG],
        failing: &[],
        words: &[
            "T",
            "-repository=M",
            "-repository=tug=G",
            "candidates",
            "foo2",
        ],
        said: "main r4 *\n",
        status: 0,
    },
    Row {
        files: &[PINS],
        repos: &[&MAIN, &TUG],
        failing: &[],
        words: &[
            "T",
            "-repository=M",
            "-repository=tug=G",
            "candidates",
            "baz",
        ],
        said: "tug r1\n",
        status: 0,
    },
    Row {
        files: &[PINS],
        repos: &[&MAIN, &TUG],
        failing: &[],
        words: &["T", "-repository=M", "-repository=tug=G", "info", "foo"],
        said: "package foo\ncategory Package\nshortdesc Of the group\ninstalled no\ncandidate tug r3\n",
        status: 0,
    },
    Row {
        files: &[PINS],
        repos: &[&MAIN, &TUG],
        failing: &[],
        words: &["T", "-repository=M", "-repository=tug=G", "info"],
        said: "- foo: Of the group\n- foo2: \n",
        status: 0,
    },
    Row {
        files: &[PINS],
        repos: &[&MAIN, &TUG],
        failing: &[],
        words: &["T", "-repository=M", "-repository=tug=G", "search", "group"],
        said: "foo - Of the group\n",
        status: 0,
    },
    Row {
        files: &[],
        repos: &[&MAIN, &TUG],
        failing: &[],
        words: &[
            "T",
            "-repository=M",
            "-repository=tug=G",
            "candidates",
            "foo",
        ],
        said: "main r9 *\ntug r3\n",
        status: 0,
    },
    Row {
        files: &[NO_SUCH_TAG],
        repos: &[&MAIN, &TUG],
        failing: &[],
        words: &[
            "T",
            "-repository=M",
            "-repository=tug=G",
            "candidates",
            "foo",
        ],
        said: "main r9 *\ntug r3\n",
        status: 0,
    },
    Row {
        files: &[],
        repos: &[&MAIN, &TUG],
        failing: &[],
        words: &["T", "-repository=M", "-repository=tug=G", "info", "baz"],
        said: "tlmgr: UnknownPackage name=baz\n",
        status: 1,
    },
    Row {
        files: &[],
        repos: &[&MAIN, &TUG],
        failing: &[],
        words: &[
            "T",
            "-repository=M",
            "-repository=tug=G",
            "candidates",
            "zz",
        ],
        said: "tlmgr: UnknownPackage name=zz\n",
        status: 1,
    },
    Row {
        files: &[BAD_PINS],
        repos: &[&MAIN, &TUG],
        failing: &[0],
        words: &["T", "-repository=M", "-repository=tug=G", "info"],
        said: "tlmgr: BadPins line=2\n",
        status: 1,
    },
    Row {
        files: &[],
        repos: &[&TEX_LIVE],
        failing: &[],
        words: &["T", "-repository=M", "info", "bar"],
        said: "package bar\ncategory Package\nshortdesc Sets in a bar\ninstalled no\ncandidate main r15878\n",
        status: 0,
    },
    Row {
        files: &[],
        repos: &[&[]],
        failing: &[],
        words: &["T", "-repository=M", "info"],
        said: "tlmgr: Absent repo=main name=tlpkg/texlive.tlpdb\n",
        status: 1,
    },
    Row {
        files: &[],
        repos: &[&MAIN, &WITHOUT_DIGEST],
        failing: &[],
        words: &["T", "-repository=M", "-repository=tug=G", "info"],
        said: "tlmgr: Absent repo=tug name=tlpkg/texlive.tlpdb.sha512\n",
        status: 1,
    },
    Row {
        files: &[],
        repos: &[&DAMAGED],
        failing: &[],
        words: &["T", "-repository=M", "info"],
        said: "tlmgr: RepoDigest repo=main want=60404073b7db4c358a23520c8dabf24b14ef742a15c3b2a5d8a8d3fc9da014f92a7f8ea6c4f897c43573d262c207b117a374437b18fb1ded716c78fa88ca4fad got=37e4368055d2acd11b6c426d00d064ad4e7de03b755f7d469c16de535491c649337e72f483d8fe331151c39878833c83c4156229727e351014079a96569c7990\n",
        status: 1,
    },
    Row {
        files: &[],
        repos: &[&SHORT],
        failing: &[],
        words: &["T", "-repository=M", "info"],
        said: "tlmgr: BadDigestLine repo=main\n",
        status: 1,
    },
    Row {
        files: &[],
        repos: &[&MAIN, &UNREADABLE],
        failing: &[],
        words: &["T", "-repository=M", "-repository=tug=G", "info"],
        said: "tlmgr: RepoDatabase repo=tug line=4 kind=Key\n",
        status: 1,
    },
    Row {
        files: &[],
        repos: &[&MAIN, &TUG],
        failing: &[0],
        words: &["T", "-repository=M", "-repository=tug=G", "info"],
        said: "",
        status: 3,
    },
    Row {
        files: &[],
        repos: &[&MAIN, &TUG],
        failing: &[7],
        words: &["T", "-repository=M", "-repository=tug=G", "search", "foo"],
        said: "",
        status: 3,
    },
    Row {
        files: &[],
        repos: &[&MAIN, &TUG],
        failing: &[0],
        words: &["T", "-repository=M", "-repository=tug=G", "pinning", "show"],
        said: "",
        status: 0,
    },
];

#[test]
fn a_row_says_what_its_repositories_give(rt: HostRuntime) {
    let alloc = rt.alloc();
    for row in &ROWS {
        let words = words(&rt, alloc, row.words);
        let host = host(&rt, alloc, row.files);
        let shelf = shelf(&rt, alloc, row.repos, row.failing);
        let (ending, host) = carry_out_over(&rt, alloc, &words, host, shelf);
        assert_eq!(rt; host.said(), row.said.as_bytes());
        assert!(rt; ending.status() == row.status);
    }
}
