//! Each action once, with ample memory, and what it says.
use crate::hosts::{carry_out_over, host, shelf, words};
use tl_tool::Ending;

struct Row {
    files: &'static [(&'static str, &'static [u8])],
    words: &'static [&'static str],
    said: &'static str,
}

// What the repository of each row holds, and that repository.
const OFFERED: [(&str, &[u8]); 2] = [
    (
        "tlpkg/texlive.tlpdb",
        b"name bar\ncategory Package\nrevision 9\nshortdesc Sets in a bar\n\n",
    ),
    (
        "tlpkg/texlive.tlpdb.sha512",
        b"bc6b55f672b0d4c75c35d000a71b47b03679ba57740a25e3958b28461ef9526fa9600efc8793dd5efc8f498611313e271d8a53dd5d6c8a65813adb9489354477  texlive.tlpdb\n",
    ),
];

const REPOSITORIES: [&[(&str, &[u8])]; 1] = [&OFFERED];

const INSTALLED: (&str, &[u8]) = (
    "tlpkg/texlive.tlpdb",
    b"name a\ncategory Package\nrevision 7\nshortdesc An example\nrunfiles size=1\n a.sty\n\n",
);

const LISTED: (&str, &[u8]) = (
    "texmf-dist/ls-R",
    b"% ls-R -- filename database for kpathsea; do not change this line.\n\n./:\ntex\n\n./tex:\na.sty\n\n",
);

const ROWS: [Row; 10] = [
    Row {
        files: &[],
        words: &["T", "dump-tlpdb", "-local"],
        said: "",
    },
    Row {
        files: &[INSTALLED],
        words: &["T", "check", "files"],
        said: "missing a a.sty\n",
    },
    Row {
        files: &[LISTED],
        words: &["T", "which", "a.sty"],
        said: "texmf-dist/tex/a.sty\n",
    },
    Row {
        files: &[("texmf-dist/a.sty", b"")],
        words: &["T", "lsr"],
        said: "step 1/1 lsr done\n",
    },
    Row {
        files: &[INSTALLED, ("a.sty", b"")],
        words: &["T", "remove", "-formats", "a"],
        said: "step 1/1 remove a done\n",
    },
    Row {
        files: &[INSTALLED, ("a.sty", b"")],
        words: &["T", "backup", "-all"],
        said: "step 1/1 backup a r7 done\n",
    },
    Row {
        files: &[],
        words: &["T", "pinning", "add", "tug", "foo*"],
        said: "step 1/1 pinning done\n",
    },
    Row {
        files: &[INSTALLED],
        words: &["T", "info", "-repository", "R"],
        said: "i a: An example\n- bar: Sets in a bar\n",
    },
    Row {
        files: &[INSTALLED],
        words: &["T", "search", "example"],
        said: "a - An example\n",
    },
    Row {
        files: &[],
        words: &["T", "candidates", "bar", "-repository", "R"],
        said: "main r9 *\n",
    },
];

#[test]
fn each_action_says_what_it_finds(rt: HostRuntime) {
    let alloc = rt.alloc();
    for row in &ROWS {
        let words = words(&rt, alloc, row.words);
        let host = host(&rt, alloc, row.files);
        let shelf = shelf(&rt, alloc, &REPOSITORIES, &[]);
        let (ending, host) = carry_out_over(&rt, alloc, &words, host, shelf);
        assert_eq!(rt; host.said(), row.said.as_bytes());
        assert!(rt; matches!(ending, Ending::Done));
    }
}
