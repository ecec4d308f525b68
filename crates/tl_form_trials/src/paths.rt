//! Paths, names, tags and platforms.
use std::test::Fail;
use tl_path::{
    Name, NameError, Path, PathError, PathKind, PathRef, Platform, Platforms, PlatformsError, Tag,
    TagError, is_platform,
};

// Texts, and the first fault of each as a path. First the fronts of one path, then two faults at one place or more.
static PATHS: [(&[u8], Option<(u32, PathKind)>); 19] = [
    (b"", Some((0, PathKind::Empty))),
    (b"a", None),
    (b"a/", Some((2, PathKind::Component))),
    (b"a/\xc3", Some((2, PathKind::Utf8))),
    (b"a/\xc3\xa9", None),
    (b"a/\xc3\xa9/", Some((5, PathKind::Component))),
    (b"a/\xc3\xa9/.", Some((5, PathKind::Component))),
    (b"a/\xc3\xa9/..", Some((5, PathKind::Component))),
    (b"a/\xc3\xa9/...", None),
    (b"/a", Some((0, PathKind::Component))),
    (b"a//b", Some((2, PathKind::Component))),
    (b"../\xff", Some((0, PathKind::Component))),
    (b"a b/../\xff", Some((1, PathKind::Byte))),
    (b"a/ ", Some((2, PathKind::Byte))),
    (b"a\x7f", Some((1, PathKind::Byte))),
    (b"a\"", Some((1, PathKind::Byte))),
    (b"a\\b", Some((1, PathKind::Byte))),
    (
        b"a/a/a/a/a/a/a/a/a/a/a/a/a/a/a/a/a/a/a/a/a/a/a/a/a/a/a/a/a/a/a/a/a/a/a/a/a/a/a/a/a/a/a/a/a/a/a/a/a/a/a/a/a/a/a/a/a/a/a/a/a/a/a/a",
        None,
    ),
    (
        b"a/a/a/a/a/a/a/a/a/a/a/a/a/a/a/a/a/a/a/a/a/a/a/a/a/a/a/a/a/a/a/a/a/a/a/a/a/a/a/a/a/a/a/a/a/a/a/a/a/a/a/a/a/a/a/a/a/a/a/a/a/a/a/a/a",
        Some((128, PathKind::Deep)),
    ),
];

#[test]
fn a_text_that_is_no_path_has_its_first_fault(rt: HostRuntime) {
    for (text, wanted) in &PATHS {
        let fault = PathRef::check(text).err();
        assert!(rt;
            fault.map(|fault| (fault.at, fault.kind)) == *wanted,
            "{text:?}"
        );
    }
}

// Paths, and whether they are reserved.
static RESERVED: [(&str, bool); 17] = [
    ("tlpkg", true),
    ("tlpkg/journal", true),
    ("tlpkg/journal/body2", true),
    ("tlpkg/journal0", false),
    ("tlpkg/backups/a", true),
    ("tlpkg/tlpsrc/a.tlpsrc", true),
    ("tlpkg/texlive.tlpdb", true),
    ("tlpkg/texlive.tlpdb.sha512", false),
    ("tlpkg/marks", true),
    ("tlpkg/pinning.txt", true),
    ("repository/archive/a.tlc", true),
    ("texmf-dist/web2c/updmap.cfg", true),
    ("texmf-dist/web2c/fmtutil.cnf", true),
    ("texmf-dist/web2c/texmf.cnf", false),
    ("texmf-var/tex/generic/config/language.dat", true),
    ("texmf-var/tex/generic/config/language.def", true),
    ("texmf-var/tex/generic/config/language.dat.lua", true),
];

#[test]
fn the_paths_of_the_program_are_reserved(rt: HostRuntime) -> Result<(), Fail> {
    for (text, is_reserved) in &RESERVED {
        let path = Path::parse(rt.alloc(), text.as_bytes())?;
        assert!(rt; path.is_reserved() == *is_reserved, "{text}");
    }
    Ok(())
}

#[test]
fn forms_keep_their_text(rt: HostRuntime) -> Result<(), Fail> {
    let alloc = rt.alloc();
    let path = Path::parse(alloc, b"a/\xc3\xa9.sty")?.clone()?;
    let again = path.view().to_path(alloc)?;
    let name = Name::parse(alloc, b"a.b_c-d+E")?.clone()?;
    let tag = Tag::parse(alloc, b"tug_2-X")?.clone()?;
    let platforms = Platforms::parse(alloc, b" x86_64-linux\t\twindows armhf-linux ")?.clone()?;
    let text = format!(in alloc; "{path} {again:?} {name} {name:?} {tag} {tag:?} {platforms}")?;
    let wanted =
        "a/\u{e9}.sty \"a/\u{e9}.sty\" a.b_c-d+E \"a.b_c-d+E\" tug_2-X \"tug_2-X\" armhf-linux windows x86_64-linux";
    assert!(rt; text.as_str() == wanted);
    assert!(rt; is_platform(b"m68k"));
    let platform = Platform::of(alloc, b"m68k")?.clone()?;
    assert!(rt; platform.text() == "m68k");
    Ok(())
}

#[test]
fn errors_tell_their_place(rt: HostRuntime) -> Result<(), Fail> {
    let alloc = rt.alloc();
    let kind = PathKind::Byte;
    let path = PathError::BadPath { at: 2, kind };
    let name = NameError::BadName { at: 3 };
    let platforms = PlatformsError::BadPlatforms { at: 4 };
    let text = format!(in alloc; "{path}; {name}; {}; {platforms}", TagError::NotTag)?;
    let wanted =
        "no path: Byte at byte 2; no name, from byte 3 on; no tag; no platforms: the word at byte 4";
    assert!(rt; text.as_str() == wanted);
    Ok(())
}
