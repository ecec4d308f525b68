//! Each call on a database that takes memory, but for the reader and the writer, which a slow program follows.
use std::alloc::{AllocError, Global};
use std::test::Fail;
use tl_db::{Db, DbError, What, read_db, write_db};
use tl_object::read_object;
use tl_path::Name;

#[test]
fn entries_are_replaced_and_left_out_by_name(rt: HostRuntime) -> Result<(), Fail> {
    let alloc = rt.alloc();
    let first = read_db(alloc, b"name c\n\nname a\nrevision 1\n\nname d\n")?;
    let mut db = first.copy(alloc)?;
    db.with(read_object(alloc, b"name b\nrevision 2\n")?)?;
    db.with(read_object(alloc, b"name a\nrevision 3\n")?)?;
    assert!(rt; db.without(&Name::parse(alloc, b"d")?));
    let wanted =
        b"name a\ncategory Package\nrevision 3\n\nname b\ncategory Package\nrevision 2\n\nname c\ncategory Package\nrevision 0\n\n".as_slice();
    assert!(rt; write_db(alloc, &db)?.as_slice() == wanted);
    assert!(rt; first.len() == 3);
    Ok(())
}

const MOST: u32 = 65_536;

// The text of a database with so many entries, from the last on.
fn entries_text(alloc: Global, count: u32) -> Result<Vec<u8>, AllocError> {
    let mut text = Vec::new(alloc);
    for at in 0..count {
        let entry = format!(in alloc; "name a{:05}\n\n", count - 1 - at)?;
        text.extend_from_slice(entry.as_bytes())?;
    }
    Ok(text)
}

#[test]
fn a_database_has_65536_entries_at_most(rt: HostRuntime) -> Result<(), Fail> {
    let most = entries_text(rt.alloc(), MOST)?;
    assert!(rt; read_db(rt.alloc(), most.as_slice())?.len() == 65_536);
    let more = entries_text(rt.alloc(), MOST + 1)?;
    let large = DbError::TooLarge {
        what: What::Packages,
        limit: 65_536,
    };
    assert!(rt; read_db(rt.alloc(), more.as_slice()).err() == Some(large));
    Ok(())
}
