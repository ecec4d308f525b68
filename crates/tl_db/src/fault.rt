//! Why a database doesn't read.

use tl_kind::What;
use tl_object::LineKind;

/// Why a database doesn't read.
#[derive(Clone, Copy, Debug, PartialEq, Eq)]
pub enum DbError {
    /// The first bad line, counted from 1, and what is wrong with it.
    BadDatabase { line: u32, kind: LineKind },
    /// The text has more bytes, or the database more entries, than this limit.
    TooLarge { what: What, limit: u64 },
    NoMemory,
}
