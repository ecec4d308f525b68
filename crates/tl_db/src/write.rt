//! The writing of a database.
ghost use Rattle.std.specs.Prelude.{◌≡◌, ◌++◌, ◌∷◌, [], Ok, OnOk, IfOk};
ghost use Rattle.tl_model.specs.Acks.{IsPlain};
ghost use Rattle.tl_object.specs.Again.{ReadsAgain};
ghost use Rattle.tl_db.specs.Reading.{db_of};
ghost use Rattle.tl_db.specs.Text.{entry_text, db_text};

use crate::db::Db;
use std::alloc::{AllocError, Global};
use tl_object::{Object, append_object};

// Writes an entry and the empty line behind it.
pub(crate) fn append_entry(out: &mut Vec<u8>, object: &Object) -> Result<(), AllocError>
    ensures written { OnOk result (out.new.items ≡ out.old.items ++ entry_text object.now) }
    ensures plain { OnOk result (IsPlain out.old.items → IsPlain out.new.items) }
    ensures again { OnOk result (ReadsAgain object.now) }
{
    append_object(out, object)?;
    out.push(b'\n')?;
    Ok(())
}

/// The text of a database: its entries in rising order of their names, each followed by one empty line. It is whole lines,
/// of which none has the form of a line that acknowledges a step. It reads as the database again, where it is within the
/// limits of `read_db`.
pub fn write_db(alloc: Global, db: &Db) -> Result<Vec<u8>, AllocError>
    ensures text { IfOk result (λ text. text.items ≡ db_text db.now) }
    ensures plain { IfOk result (λ text. IsPlain text.items) }
    ensures reads { IfOk result (λ text. db_of text.items ≡ Ok db.now) }
{
    let mut out = Vec::new(alloc);
    for object in db.objects() {
        append_entry(&mut out, object)?;
    }
    Ok(out)
}
