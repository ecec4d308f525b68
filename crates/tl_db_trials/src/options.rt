//! Options of a tree.
ghost use Rattle.std.specs.Prelude.{◌<◌, ◌^◌, length};

use std::alloc::Global;
use std::test::Fail;
use tl_db::{Db, OptionError, read_db, write_db};
use tl_object::write_object;

// An option, a value that it is set to, and the value that it then has; none where it is refused.
static VALUES: [(&[u8], &[u8], Option<&[u8]>); 18] = [
    (b"autobackup", b"-1", Some(b"-1")),
    (b"autobackup", b"000", Some(b"0")),
    (b"autobackup", b"01", Some(b"1")),
    (b"autobackup", b"1000", Some(b"1000")),
    (b"autobackup", b"1001", None),
    (b"autobackup", b"-2", None),
    (b"autobackup", b"-01", None),
    (b"autobackup", b"+1", None),
    (b"autobackup", b"", None),
    (b"autobackup", b"18446744073709551617", None),
    (
        b"platforms",
        b"x86_64-linux  a-linux\t",
        Some(b"a-linux x86_64-linux"),
    ),
    (b"platforms", b"", Some(b"")),
    (b"platforms", b"linux linux", None),
    (b"platforms", b"Linux", None),
    (
        b"platforms",
        b"vf ve vd vc vb va v9 v8 v7 v6 v5 v4 v3 v2 v1 v0 uf ue ud uc ub ua u9 u8 u7 u6 u5 u4 u3 u2 u1 u0",
        Some(
            b"u0 u1 u2 u3 u4 u5 u6 u7 u8 u9 ua ub uc ud ue uf v0 v1 v2 v3 v4 v5 v6 v7 v8 v9 va vb vc vd ve vf",
        ),
    ),
    (
        b"platforms",
        b"u0 u1 u2 u3 u4 u5 u6 u7 u8 u9 ua ub uc ud ue uf v0 v1 v2 v3 v4 v5 v6 v7 v8 v9 va vb vc vd ve vf w",
        None,
    ),
    (b"colour", b"", None),
    (b"", b"", None),
];

// The value that an option has in an empty database where it was set.
fn set(alloc: Global, option: &[u8], value: &[u8]) -> Result<Vec<u8>, OptionError>
    requires { length value.now < 2 ^ 32 }
{
    let mut db = Db::new(alloc);
    db.set_option(alloc, option, value)?;
    db.option(alloc, option)
}

#[test]
fn an_option_has_the_one_spelling_of_its_value(rt: HostRuntime) {
    for (option, value, wanted) in &VALUES {
        assert!(rt; value.len() < 1000);
        match set(rt.alloc(), option, value) {
            Ok(kept) => assert!(rt; Some(kept.as_slice()) == *wanted, "{value:?}"),
            Err(error) => assert!(rt;
                wanted.is_none() && error != OptionError::NoMemory,
                "{value:?}"
            ),
        }
    }
}

#[test]
fn the_first_line_of_an_option_is_replaced_and_a_new_one_comes_last(
    rt: HostRuntime,
) -> Result<(), Fail> {
    let alloc = rt.alloc();
    let mut db = read_db(
        alloc,
        b"name 00texlive.installation\ndepend opt_autobackup:many\ndepend b\ndepend opt_autobackup:5\n",
    )?;
    assert!(rt; db.option(alloc, b"autobackup")?.as_slice() == b"0".as_slice());
    db.set_option(alloc, b"autobackup", b"03")?;
    let wanted =
        b"name 00texlive.installation\ncategory Package\nrevision 0\ndepend opt_autobackup:3\ndepend b\ndepend opt_autobackup:5\n\n".as_slice();
    assert!(rt; write_db(alloc, &db)?.as_slice() == wanted);
    let entry = db.option_entry(alloc, b"platforms", b"b a")?;
    let wanted =
        b"name 00texlive.installation\ncategory Package\nrevision 0\ndepend opt_autobackup:3\ndepend b\ndepend opt_autobackup:5\ndepend setting_available_architectures:a b\n".as_slice();
    assert!(rt; write_object(alloc, &entry)?.as_slice() == wanted);
    Ok(())
}
