//! The status of each ending, and the lines of refusals.
use std::test::Fail;
use tl_kind::What;
use tl_object::LineKind;
use tl_path::Name;
use tl_tool::{Ending, Refusal};
use tl_words::WordKind;

#[test]
fn an_ending_has_its_status(rt: HostRuntime) {
    let (at, kind) = (1, WordKind::Action);
    let words = Ending::Refused(Refusal::BadWords { at, kind });
    let journal = Ending::Refused(Refusal::BadJournal { at: 8 });
    assert!(rt; Ending::Done.status() == 0 && journal.status() == 1 && words.status() == 2);
    assert!(rt; Ending::HostFault.status() == 3 && Ending::NoMemory.status() == 4);
}

#[test]
fn a_refusal_is_a_line_with_its_fields(rt: HostRuntime) -> Result<(), Fail> {
    let alloc = rt.alloc();
    let words = Refusal::BadWords {
        at: 12,
        kind: WordKind::Operand,
    };
    let journal = Refusal::BadJournal {
        at: 18_446_744_073_709_551_615,
    };
    let database = Refusal::BadDatabase {
        line: 4,
        kind: LineKind::TooLong,
    };
    let name = Name::parse(alloc, b"colour")?;
    let option = Name::parse(alloc, b"autobackup")?;
    let large = Refusal::TooLarge {
        what: What::Database,
        limit: 268_435_456,
    };
    let unknown = Refusal::UnknownOption { name };
    let value = Refusal::BadValue { option };
    let lines = format!(in alloc; "{words}\n{journal}\n{database}\n{unknown}\n{value}\n{large}")?;
    let wanted = "tlmgr: BadWords at=12 kind=Operand
tlmgr: BadJournal at=18446744073709551615
tlmgr: BadDatabase line=4 kind=TooLong
tlmgr: UnknownOption name=colour
tlmgr: BadValue option=autobackup
tlmgr: TooLarge what=Database limit=268435456";
    assert!(rt; lines.as_str() == wanted);
    Ok(())
}
