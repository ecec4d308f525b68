//! The values that the words of an execute give to keys.
ghost use Rattle.std.specs.Prelude.{◌≡◌, map, IfOk, length};
ghost use Rattle.std.specs.List.{find};
ghost use Rattle.std.specs.Option.{option_map, option_copied};
ghost use Rattle.tl_execute.specs.Values as the_values;

use std::alloc::{AllocError, Global};
use std::marker::Model;

/// The bytes of a value, without double quotes.
#[derive(Drop)]
pub struct Unquoted {
    bytes: Vec<u8>,
}

impl Model for Unquoted {
    ghost use Rattle.std.specs.Prelude.{ℕ, List};

    ghost Value = { List ℕ };

    ghost view = { λ v. v.bytes.items };
}

impl Unquoted {
    /// The value that these bytes stand for, without their double quotes.
    pub fn new(alloc: Global, bytes: &[u8]) -> Result<Self, AllocError>
        ensures { IfOk result (λ v. v ≡ the_values.unquoted bytes.now) }
    {
        let bytes = bytes.iter().copied().filter(|b| *b != b'"').collect(alloc)?;
        Ok(Unquoted { bytes })
    }

    /// Its bytes. Takes no memory.
    pub fn bytes(&self) -> &[u8]
        ensures { result.now ≡ self.now }
    {
        self.bytes.as_slice()
    }
}

/// Whether a word begins with a key, which ends with its equals sign. Takes no memory.
pub fn has_key(word: &[u8], key: &str) -> bool
    ensures { result ≡ the_values.has_key key.now word.now }
{
    word.starts_with(key.as_bytes())
}

fn first_with<'t>(words: &[&'t [u8]], key: &str) -> Option<&'t [u8]>
    ensures { option_copied result ≡ find (the_values.has_key key.now) (map (λ w. w.now) words.now) }
{
    for word in words {
        if has_key(word, key) {
            return Some(word);
        }
    }
    None
}

/// The value that these words give to a key, which ends with its equals sign.
pub fn value_of(alloc: Global, words: &[&[u8]], key: &str) -> Result<Option<Unquoted>, AllocError>
    ensures { IfOk result (λ v. v ≡ the_values.value_of key.now (map (λ w. w.now) words.now)) }
{
    match first_with(words, key) {
        Some(word) => Ok(Some(Unquoted::new(alloc, word.get(key.len()..).unwrap_or(&[]))?)),
        None => Ok(None),
    }
}

/// Whether two of these words begin with a key, which ends with its equals sign. Takes no memory.
pub fn is_repeated(words: &[&[u8]], key: &str) -> bool
    ensures { result ≡ the_values.is_repeated key.now (map (λ w. w.now) words.now) }
{
    words.iter().filter(|word| has_key(word, key)).count() > 1
}
