//! Each call on entries that takes memory.
use std::alloc::{AllocError, Global};
use std::test::Fail;
use tl_entry::{Gathered, GatheredPaths, Paths};
use tl_object::{
    LineKind, Object, ObjectError, append_object, copies, next_entry, read_entry, read_entry_name,
    read_object, write_object,
};
use tl_path::Path;

// An entry with every field, as it is written.
const WHOLE: &str = "name bar
category TLCore
revision 15878
catalogue bar-ctan
shortdesc Sets in a bar
relocated 1
longdesc First line.
longdesc Second line.
depend foo
execute addMap bar.map
postaction shortcut
containersize 2004
containerchecksum ddaf35a193617abacc417349ae20413112e6fa4e89a97ea20a9eeee64b55d39a2192992a274fc1a836ba3c23a3feebbd454d4423643ce80e2a9ac94fa54ca49f
doccontainersize 376276
docfiles size=94
 d/README details=\"Read me\" language=\"en\"
 d/b
srccontainersize 18446744073709551615
srcfiles size=2
 s/bar.dtx
runfiles size=1
 b
 d/b
binfiles arch=linux size=2
 bin/linux/bar
 s/bar.dtx
binfiles arch=windows size=1
 a
catalogue-ctan /macros/bar
";

// What is written of it without its containers.
const LESS: &str = "name bar
category TLCore
revision 15878
catalogue bar-ctan
shortdesc Sets in a bar
relocated 1
longdesc First line.
longdesc Second line.
depend foo
execute addMap bar.map
postaction shortcut
docfiles size=94
 d/README details=\"Read me\" language=\"en\"
 d/b
srcfiles size=2
 s/bar.dtx
runfiles size=1
 b
 d/b
binfiles arch=linux size=2
 bin/linux/bar
 s/bar.dtx
binfiles arch=windows size=1
 a
catalogue-ctan /macros/bar
";

fn copied(alloc: Global, object: &Object) -> Result<Vec<u8>, AllocError> {
    let mut text = Vec::new(alloc);
    append_object(&mut text, &object.copy(alloc)?)?;
    Ok(text)
}

fn less(alloc: Global, object: &Object) -> Result<Vec<u8>, AllocError> {
    write_object(alloc, &object.less_containers(alloc)?)
}

// The paths of all its files, each with a space behind it.
fn paths(alloc: Global, object: &Object) -> Result<String, AllocError> {
    let mut all = String::new(alloc);
    for path in &object.file_paths(alloc)? {
        all.push_str(path.text())?;
        all.push_str(" ")?;
    }
    Ok(all)
}

fn has_its_longdesc(alloc: Global, object: &Object) -> Result<bool, AllocError> {
    let texts = copies(alloc, object.longdesc.as_slice())?;
    Ok(matches!(texts.as_slice(), [_, second] if second.text() == "Second line."))
}

#[test]
fn an_entry_with_every_field_goes_through_each_call(rt: HostRuntime) -> Result<(), Fail> {
    let alloc = rt.alloc();
    let object = read_object(alloc, WHOLE.as_bytes())?;
    assert!(rt; write_object(alloc, &object)?.as_slice() == WHOLE.as_bytes());
    assert!(rt; copied(alloc, &object)?.as_slice() == WHOLE.as_bytes());
    assert!(rt; less(alloc, &object)?.as_slice() == LESS.as_bytes());
    assert!(rt; paths(alloc, &object)?.as_str() == "a b bin/linux/bar d/README d/b s/bar.dtx ");
    assert!(rt; has_its_longdesc(alloc, &object)?);
    Ok(())
}

#[test]
fn an_entry_is_read_from_the_text_of_several(rt: HostRuntime) -> Result<(), Fail> {
    let text = b"\n# before\n\nname a\n# within\nrevision 7\n\nname b\n".as_slice();
    let Some((before, text)) = next_entry(0, text) else {
        panic!(rt; "an entry");
    };
    let named = read_entry_name(rt.alloc(), before, text)?;
    assert!(rt; named.name.text() == "a" && named.line == 4);
    let entry = read_entry(rt.alloc(), before, text)?;
    assert!(rt; entry.object.revision == 7 && entry.object.name.text() == "a");
    let Some((before, text)) = next_entry(entry.number, entry.rest) else {
        panic!(rt; "an entry");
    };
    assert!(rt; before == 7 && text == b"name b\n".as_slice());
    Ok(())
}

// Texts that are no entry, though a database would read one or all of them.
static NO_ENTRIES: [(&[u8], u32, LineKind); 4] = [
    (b"", 1, LineKind::Missing),
    (b"# a\n# b\n", 1, LineKind::Missing),
    (b"\nname a\n", 1, LineKind::Missing),
    (b"name a\n\nname b\n", 2, LineKind::Key),
];

#[test]
fn an_empty_line_ends_no_entry_of_its_own(rt: HostRuntime) {
    for (text, line, kind) in &NO_ENTRIES {
        assert!(rt; text.len() < 100);
        let bad = ObjectError::BadObject {
            line: *line,
            kind: *kind,
        };
        assert!(rt;
            read_object(rt.alloc(), text).err() == Some(bad),
            "{text:?}"
        );
    }
}

// Paths as they come, and in order.
static PATHS: [[&str; 2]; 4] = [
    ["", ""],
    ["a a/b b", "a a/b b"],
    ["b d/e d a d.e f c", "a b c d d.e d/e f"],
    ["b b a b a", "a b"],
];

fn joined(alloc: Global, paths: &Paths) -> Result<String, Fail> {
    let mut all = String::new(alloc);
    for path in paths.iter() {
        all.push_str(" ")?;
        all.push_str(path.text())?;
    }
    Ok(all)
}

#[test]
fn paths_are_gathered_in_any_order(rt: HostRuntime) -> Result<(), Fail> {
    let alloc = rt.alloc();
    for [come, wanted] in &PATHS {
        let mut paths = GatheredPaths::new(alloc);
        let mut others = Gathered::new(alloc);
        for word in come.split(' ').filter(|word| !word.is_empty()) {
            let path = Path::parse(alloc, word.as_bytes())?;
            let is_new = paths.add(alloc, path.view())?;
            assert!(rt; others.add(alloc, path)? == is_new);
        }
        let paths = paths.finish(alloc)?.copy(alloc)?;
        let others = Paths::of(alloc, others.finish()?.as_slice())?;
        assert!(rt; joined(alloc, &paths)?.as_str().trim_start() == *wanted);
        assert!(rt; joined(alloc, &others)?.as_str().trim_start() == *wanted);
    }
    Ok(())
}
