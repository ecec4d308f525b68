//! The small forms of an entry's lines.
ghost use Rattle.std.specs.Prelude.{◌≡◌};
ghost use Rattle.std.specs.List.{list_all};
ghost use Rattle.tl_entry.specs.Forms.{is_fact_byte, is_fact_key};

fn is_fact_byte(byte: u8) -> bool
    ensures { result ≡ is_fact_byte byte }
{
    byte.is_ascii_lowercase() || byte.is_ascii_digit() || byte == b'-'
}

fn all_of_fact(bytes: &[u8]) -> bool
    ensures { result ≡ list_all is_fact_byte bytes.now }
{
    bytes.iter().all(|byte| is_fact_byte(*byte))
}

/// Whether bytes are the key of a fact: 1 to 65,536 lower case letters, digits and `-`.
pub fn is_fact_key(bytes: &[u8]) -> bool
    ensures { result ≡ is_fact_key bytes.now }
{
    !bytes.is_empty() && bytes.len() <= 65_536 && all_of_fact(bytes)
}
