//! Executes, and what the generated files have of them.
use std::alloc::Global;
use std::test::Fail;
use tl_config::{
    ConfigFile, fmtutil, language_dat, language_def, language_lua, push_executes, push_lines,
    updmap,
};
use tl_db::read_db;
use tl_execute::{Execute, ExecuteError, ExecuteKind};
use tl_text::Text;

// Executes, and the kind of fault of each; none where it reads.
static FAULTS: [(&[u8], Option<ExecuteKind>); 19] = [
    (b"addMap \"a", Some(ExecuteKind::Quote)),
    (b"", Some(ExecuteKind::Word)),
    (b"\"addMap\" a", Some(ExecuteKind::Word)),
    (b"addMAP a", Some(ExecuteKind::Word)),
    (b"AddFormat name=a name=b engine", Some(ExecuteKind::Key)),
    (b"AddFormat \"name=a\" engine=b", Some(ExecuteKind::Key)),
    (b"AddFormat name=a engine=b file=c", Some(ExecuteKind::Key)),
    (b"AddHyphen name=a name=b", Some(ExecuteKind::Repeated)),
    (b"addMap", Some(ExecuteKind::Missing)),
    (b"AddFormat name= mode=x", Some(ExecuteKind::Missing)),
    (
        b"AddHyphen name= file=b lefthyphenmin=4294967296",
        Some(ExecuteKind::Number),
    ),
    (
        b"AddHyphen name=a file=b righthyphenmin=-1",
        Some(ExecuteKind::Number),
    ),
    (b"addMap \"\"", Some(ExecuteKind::Value)),
    (b"addMap a b", Some(ExecuteKind::Value)),
    (b"addMap \xff", Some(ExecuteKind::Value)),
    (b"AddFormat name=a engine=b mode=", Some(ExecuteKind::Value)),
    (b"AddHyphen name=a file=\"\"", Some(ExecuteKind::Value)),
    (b"addKanjiMap\ta\" \"b ", None),
    (
        b"AddHyphen name=a file=b lefthyphenmin= databases= fmttriggers",
        Some(ExecuteKind::Key),
    ),
];

fn fault_of(alloc: Global, text: &[u8]) -> Option<ExecuteKind> {
    if text.len() > 100 {
        return None;
    }
    match Execute::parse(alloc, text) {
        Err(ExecuteError::BadExecute { kind }) => Some(kind),
        _ => None,
    }
}

#[test]
fn an_execute_has_its_first_kind_of_fault(rt: HostRuntime) {
    for (text, kind) in &FAULTS {
        assert!(rt; fault_of(rt.alloc(), text) == *kind, "{text:?}");
    }
}

#[test]
fn a_format_has_its_triggers(rt: HostRuntime) -> Result<(), Fail> {
    let text = b"AddFormat name=foo engine=pdftex fmttriggers=a,,\"b,c\" mode=enabled";
    let Execute::Format {
        triggers,
        disabled,
        ..
    } = Execute::parse(rt.alloc(), text)?
    else {
        panic!(rt; "a format");
    };
    let [a, b, c] = triggers.as_slice() else {
        panic!(rt; "three triggers");
    };
    assert!(rt; !disabled && a.text() == "a" && b.text() == "b" && c.text() == "c");
    Ok(())
}

// Executes, and the lines that they give to a file.
static LINES: [(ConfigFile, &[u8], &[u8]); 15] = [
    (ConfigFile::Updmap, b"addMap a.map", b"Map a.map\n"),
    (
        ConfigFile::Updmap,
        b"addMixedMap \"a b\"",
        b"MixedMap a b\n",
    ),
    (
        ConfigFile::Updmap,
        b"addKanjiMap\ta.map ",
        b"KanjiMap a.map\n",
    ),
    (ConfigFile::Updmap, b"addMap", b""),
    (ConfigFile::Updmap, b"AddFormat name=a engine=b", b""),
    (
        ConfigFile::Fmtutil,
        b"AddFormat name=foo engine=pdftex options=\"-etex *foo.ini\" mode=disabled",
        b"#! foo pdftex - -etex *foo.ini\n",
    ),
    (
        ConfigFile::Fmtutil,
        b"AddFormat name=a engine=b",
        b"a b -\n",
    ),
    (
        ConfigFile::Fmtutil,
        b"AddFormat name=a engine=b patterns=c.dat",
        b"a b c.dat\n",
    ),
    (
        ConfigFile::Fmtutil,
        b"AddFormat name=a engine=b patterns= options=",
        b"a b  \n",
    ),
    (
        ConfigFile::LanguageDat,
        b"AddHyphen name=ngerman synonyms=german,deutsch file=x.tex",
        b"ngerman x.tex\n=german\n=deutsch\n",
    ),
    (
        ConfigFile::LanguageDat,
        b"AddHyphen name=a file=b databases=def,lua",
        b"",
    ),
    (
        ConfigFile::LanguageDef,
        b"AddHyphen name=ngerman synonyms=german,deutsch file=x.tex",
        b"\\addlanguage{ngerman}{x.tex}{}{2}{3}\n\\addlanguage{german}{x.tex}{}{2}{3}\n\\addlanguage{deutsch}{x.tex}{}{2}{3}\n",
    ),
    (
        ConfigFile::LanguageDef,
        b"AddHyphen name=a file=b lefthyphenmin=007 righthyphenmin= databases=all",
        b"\\addlanguage{a}{b}{}{7}{3}\n",
    ),
    (
        ConfigFile::LanguageLua,
        b"AddHyphen name=a file=b luaspecial=",
        b"",
    ),
    (
        ConfigFile::LanguageLua,
        b"AddHyphen name=a file=b lefthyphenmin=1 file_exceptions=e.txt luaspecial=d'e\\f databases=lua",
        b"\t['a'] = {\n\t\tloader = 'b',\n\t\tlefthyphenmin = 1,\n\t\trighthyphenmin = 3,\n\t\tsynonyms = { },\n\t\thyphenation = 'e.txt',\n\t\tspecial = 'd\\'e\\\\f',\n\t},\n",
    ),
];

#[test]
fn an_execute_gives_each_file_its_lines(rt: HostRuntime) -> Result<(), Fail> {
    let alloc = rt.alloc();
    for (file, text, wanted) in &LINES {
        assert!(rt; text.len() < 200);
        let mut lines = Vec::from_slice(alloc, b"\n")?;
        push_lines(alloc, *file, &mut lines, text)?;
        push_executes(alloc, *file, &mut lines, &[Text::parse(alloc, text)?])?;
        let twice = [b"\n".as_slice(), wanted, wanted].concat(alloc)?;
        assert!(rt; lines == twice, "{text:?}");
    }
    Ok(())
}

const DATABASE: &[u8] =
    b"name b\nexecute addMap b.map\nexecute addKanjiMap\nexecute AddFormat name=foo engine=bar\n\nname a\nexecute addMap a.map\nexecute AddHyphen name=ngerman synonyms=german,deutsch file=x.tex file_patterns=p.txt\n";

#[test]
fn the_files_have_the_lines_of_all_entries_in_the_order_of_names(
    rt: HostRuntime,
) -> Result<(), Fail> {
    let alloc = rt.alloc();
    let db = read_db(alloc, DATABASE)?;
    let wanted = b"# updmap.cfg, written by tlmgr\nMap a.map\nMap b.map\n".as_slice();
    assert!(rt; updmap(alloc, &db)?.as_slice() == wanted);
    let wanted = b"# fmtutil.cnf, written by tlmgr\nfoo bar -\n".as_slice();
    assert!(rt; fmtutil(alloc, &db)?.as_slice() == wanted);
    let wanted = b"% language.dat, written by tlmgr\nngerman x.tex\n=german\n=deutsch\n".as_slice();
    assert!(rt; language_dat(alloc, &db)?.as_slice() == wanted);
    let wanted =
        b"% language.def, written by tlmgr\n\\addlanguage{ngerman}{x.tex}{}{2}{3}\n\\addlanguage{german}{x.tex}{}{2}{3}\n\\addlanguage{deutsch}{x.tex}{}{2}{3}\n".as_slice();
    assert!(rt; language_def(alloc, &db)?.as_slice() == wanted);
    let wanted =
        b"-- language.dat.lua, written by tlmgr\nreturn {\n\t['ngerman'] = {\n\t\tloader = 'x.tex',\n\t\tlefthyphenmin = 2,\n\t\trighthyphenmin = 3,\n\t\tsynonyms = { 'german', 'deutsch' },\n\t\tpatterns = 'p.txt',\n\t},\n}\n".as_slice();
    assert!(rt; language_lua(alloc, &db)?.as_slice() == wanted);
    Ok(())
}
