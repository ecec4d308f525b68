// What stands in a body before the bytes of a record.
ghost use Rattle.std.specs.Prelude.{◌≡◌, ◌+◌, ◌≤◌, ◌++◌, length, take};
ghost use Rattle.tl_journal_text.specs.Records.{Remove, head_of, text_of, write_head};

use std::marker::Model;
use tl_path::PathRef;

const MOST: usize = 1035;

/// The text of a record as far as its bytes, which is made without memory.
#[derive(Drop)]
pub struct Head {
    bytes: [u8; MOST],
    length: usize,
}

impl Model for Head {
    ghost use Rattle.std.specs.Prelude.{List, ℕ, ◌≤◌, take};

    ghost Value = { List ℕ };

    ghost view = { λ h. take h.length h.bytes };

    ghost invariant = { λ h. h.length ≤ 1035 };
}

// A buffer that begins with a record's kind and path.
fn begin(kind: u8, path: &[u8]) -> [u8; MOST]
    requires { length path.now ≤ 1024 }
    ensures { take (3 + length path.now) result ≡ head_of kind path.now }
{
    let mut bytes = [0; MOST];
    bytes[0] = kind;
    bytes[1..3].copy_from_slice(&(path.len() as u16).to_be_bytes());
    bytes[3..3 + path.len()].copy_from_slice(path);
    bytes
}

impl Head {
    /// The whole text of a record that removes a path.
    pub fn remove(path: PathRef<'_>) -> Head
        ensures { result ≡ text_of (Remove path.entry) }
    {
        let path = path.bytes();
        Head {
            bytes: begin(b'R', path),
            length: 3 + path.len(),
        }
    }

    /// The text of a record that writes so many bytes to a path, as far as the bytes.
    pub fn write(path: PathRef<'_>, size: u64) -> Head
        ensures { result ≡ write_head path.entry size }
    {
        let path = path.bytes();
        let mut bytes = begin(b'W', path);
        let end = 3 + path.len();
        bytes[end..end + 8].copy_from_slice(&size.to_be_bytes());
        Head {
            bytes,
            length: end + 8,
        }
    }

    /// The text.
    pub fn as_slice(&self) -> &[u8]
        ensures { result.now ≡ self.now }
    {
        &self.bytes[..self.length]
    }
}
