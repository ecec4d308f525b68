//! The setting of an option, stopped at each of its calls, or with one of them failing.
use crate::hosts::{bytes_of, carry_out, host, path, words};
use std::alloc::Global;
use std::process::Abort;
use std::thread::Threads;
use tl_file::Bytes;
use tl_memhost::{Choice, MemHost};
use tl_tool::Ending;

const DATABASE: &str = "tlpkg/texlive.tlpdb";

const SET: [&str; 4] = ["T", "option", "autobackup", "1"];

const SHOW: [&str; 2] = ["T", "option"];

const LABEL: &str = "step 1/1 option autobackup done\n";

const KEPT: &[u8] =
    b"name 00texlive.installation\ncategory TLCore\nrevision 0\ndepend opt_autobackup:1\n\n";

// The files that are made from a database without executes.
const MADE: [(&str, &[u8]); 5] = [
    (
        "texmf-dist/web2c/fmtutil.cnf",
        b"# fmtutil.cnf, written by tlmgr\n",
    ),
    (
        "texmf-dist/web2c/updmap.cfg",
        b"# updmap.cfg, written by tlmgr\n",
    ),
    (
        "texmf-var/tex/generic/config/language.dat",
        b"% language.dat, written by tlmgr\n",
    ),
    (
        "texmf-var/tex/generic/config/language.dat.lua",
        b"-- language.dat.lua, written by tlmgr\nreturn {\n}\n",
    ),
    (
        "texmf-var/tex/generic/config/language.def",
        b"% language.def, written by tlmgr\n",
    ),
];

// Sets the option over the empty host, of which the call of a number fails, where there is one.
fn set<R: Abort + Threads + Sync>(
    rt: &R,
    alloc: Global,
    failing: Option<u64>,
) -> (Ending, MemHost) {
    let mut host = host(rt, alloc, &[]);
    if let Some(call) = failing {
        host.fail_at(call).ok().expect(rt, "memory");
    }
    carry_out(rt, alloc, &words(rt, alloc, &SET), host)
}

// What a stop leaves at each touched name.
fn choice(rt: &impl Abort, alloc: Global, number: u64) -> Choice {
    match number {
        0 => Choice::Kept,
        1 => Choice::Gone,
        2 => Choice::Synced,
        3 => Choice::Fill(Bytes::new(bytes_of(rt, alloc, b"\x01"))),
        _ => Choice::Fill(Bytes::new(bytes_of(rt, alloc, b"E"))),
    }
}

const CHOICES: u64 = 5;

// Whether a host at rest has the tree after the step, where it has that or the empty one.
fn is_after(rt: &impl Abort, alloc: Global, host: &MemHost) -> bool {
    let database = host.file(&path(rt, alloc, DATABASE));
    let after = database.is_some();
    assert_eq!(rt; database, if after { Some(KEPT) } else { None });
    for (name, bytes) in &MADE {
        let wanted = if after { Some(*bytes) } else { None };
        assert_eq!(rt; host.file(&path(rt, alloc, name)), wanted);
    }
    after
}

// Another run repairs what a stop or a fault left, to the tree before the step or after it; and which.
fn repaired<R: Abort + Threads + Sync>(rt: &R, alloc: Global, host: MemHost) -> bool {
    let (ending, host) = carry_out(rt, alloc, &words(rt, alloc, &SHOW), host);
    assert!(rt; matches!(ending, Ending::Done));
    let after = is_after(rt, alloc, &host);
    let said = if after {
        "autobackup 1\nplatforms \n"
    } else {
        "autobackup 0\nplatforms \n"
    };
    assert!(rt; host.said().ends_with(said.as_bytes()));
    after
}

// Another run repairs each image that a stop before a call could leave; how many of them to the tree after the step.
fn made_before<R: Abort + Threads + Sync>(rt: &R, alloc: Global, host: &MemHost, call: u64) -> u64 {
    let mut made = 0u64;
    for number in 0..CHOICES {
        let stop = host.stop_at(call, &choice(rt, alloc, number));
        if repaired(rt, alloc, stop.ok().expect(rt, "a stop")) {
            made = made.saturating_add(1);
        }
    }
    made
}

#[test]
fn a_stopped_setting_is_made_or_not(rt: HostRuntime) {
    let alloc = rt.alloc();
    let (ending, made) = set(&rt, alloc, None);
    assert!(rt; matches!(ending, Ending::Done));
    assert!(rt; is_after(&rt, alloc, &made));
    assert_eq!(rt; made.said(), LABEL.as_bytes());
    assert_eq!(rt; made.syncs(), 5);
    for call in 0..made.calls() {
        let count = made_before(&rt, alloc, &made, call);
        assert!(rt; count == CHOICES || made.said_before(call) == 0);
    }
}

#[test]
fn a_failing_call_ends_the_setting_and_the_next_run_repairs_the_tree(rt: HostRuntime) {
    let alloc = rt.alloc();
    let (_, made) = set(&rt, alloc, None);
    for call in 0..made.calls() {
        let (ending, host) = set(&rt, alloc, Some(call));
        assert!(rt; matches!(ending, Ending::HostFault));
        let said = host.said().len();
        assert_eq!(rt; host.calls(), call + 1);
        let after = repaired(&rt, alloc, host);
        assert!(rt; after || said == 0);
    }
}
