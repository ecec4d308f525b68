//! The fields of a refusal's line.
ghost use Rattle.std.specs.Prelude.{◌≡◌};
ghost use Rattle.hex.specs.Hex.{encode_lower};
ghost use Rattle.tl_model.specs.Decimal.{decimal_text};
ghost use Rattle.tl_model.specs.Lines.{IsLine};

use hex::encode_to_slice;
use std::fmt;
use std::marker::Model;
use tl_path::{Name, Path, Tag};
use tl_text::Text;

// What a field says.
#[derive(Drop)]
enum Value<'a> {
    Number(u64),
    Word(&'a str),
    Digest(&'a [u8; 64]),
}

// The digits of a digest.
fn digits_of(digest: &[u8; 64]) -> [u8; 128]
    ensures { result ≡ encode_lower digest.now }
{
    let mut digits = [0; 128];
    let _ = encode_to_slice(digest.as_slice(), &mut digits);
    digits
}

impl fmt::Display for Value<'_> {
    ghost use Rattle.std.specs.Prelude.{Some};
    ghost use Rattle.tl_refusal.specs.Values.{value_text};

    ghost output = { λ v. Some (value_text v) };

    fn fmt<W: fmt::Write>(&self, f: &mut fmt::Formatter<W>) -> fmt::Result {
        match self {
            Value::Number(number) => write!(f, "{number}"),
            Value::Word(text) => write!(f, "{text}"),
            Value::Digest(digest) => {
                let digits = digits_of(digest);
                match str::from_utf8(&digits) {
                    Ok(text) => write!(f, "{text}"),
                    Err(_) => unreachable!(),
                }
            }
        }
    }
}

// A field: its name and its value. Contracts see the two as they are said.
#[derive(Drop)]
pub(crate) struct Field<'a> {
    name: &'static str,
    value: Value<'a>,
}

impl<'a> Model for Field<'a> {
    ghost use Rattle.std.specs.Prelude.{ℕ, List};
    ghost use Rattle.tl_refusal.specs.Values.{value_text};

    ghost Value = { List ℕ × List ℕ };

    ghost view = { λ f. (f.name.now, value_text f.value) };
}

impl Field<'static> {
    // A field whose value is a word.
    pub(crate) fn word(name: &'static str, value: &'static str) -> Field<'static>
        ensures { result ≡ (name.now, value.now) }
    {
        Field {
            name,
            value: Value::Word(value),
        }
    }
}

impl fmt::Display for Field<'_> {
    ghost use Rattle.std.specs.Prelude.{Some};
    ghost use Rattle.tl_refusal.specs.Values.{field_text};

    ghost output = { λ f. Some (field_text f) };

    fn fmt<W: fmt::Write>(&self, f: &mut fmt::Formatter<W>) -> fmt::Result {
        let name = self.name;
        let value = &self.value;
        write!(f, " {name}={value}")
    }
}

// The fields of a refusal, in order.
#[derive(Drop)]
pub(crate) enum Fields<'a> {
    Zero,
    One(Field<'a>),
    Two(Field<'a>, Field<'a>),
    Three(Field<'a>, Field<'a>, Field<'a>),
    Four(Field<'a>, Field<'a>, Field<'a>, Field<'a>),
}

impl fmt::Display for Fields<'_> {
    ghost use Rattle.std.specs.Prelude.{Some};
    ghost use Rattle.std.specs.List.{flat_map};
    ghost use Rattle.tl_refusal.specs.Fields.{fields_in};
    ghost use Rattle.tl_refusal.specs.Values.{field_text};

    ghost output = { λ fields. Some (flat_map field_text (fields_in fields)) };

    fn fmt<W: fmt::Write>(&self, f: &mut fmt::Formatter<W>) -> fmt::Result {
        match self {
            Fields::Zero => Ok(()),
            Fields::One(a) => write!(f, "{a}"),
            Fields::Two(a, b) => write!(f, "{a}{b}"),
            Fields::Three(a, b, c) => write!(f, "{a}{b}{c}"),
            Fields::Four(a, b, c, d) => write!(f, "{a}{b}{c}{d}"),
        }
    }
}

// A number.
pub(crate) fn number(name: &'static str, number: u64) -> Field<'static>
    ensures field { result ≡ (name.now, decimal_text number) }
    ensures line { IsLine (decimal_text number) }
{
    Field {
        name,
        value: Value::Number(number),
    }
}

// A package's name, or an option's.
pub(crate) fn named<'a>(name: &'static str, value: &'a Name) -> Field<'a>
    ensures field { result ≡ (name.now, value.now) }
    ensures line { IsLine value.now }
{
    Field {
        name,
        value: Value::Word(value.text()),
    }
}

// A repository's tag.
pub(crate) fn tagged<'a>(name: &'static str, value: &'a Tag) -> Field<'a>
    ensures field { result ≡ (name.now, value.now) }
    ensures line { IsLine value.now }
{
    Field {
        name,
        value: Value::Word(value.text()),
    }
}

// A path.
pub(crate) fn placed<'a>(name: &'static str, value: &'a Path) -> Field<'a>
    ensures field { result ≡ (name.now, value.now) }
    ensures line { IsLine value.now }
{
    Field {
        name,
        value: Value::Word(value.text()),
    }
}

// A short text.
pub(crate) fn texted<'a>(name: &'static str, value: &'a Text) -> Field<'a>
    ensures field { result ≡ (name.now, value.now) }
    ensures line { IsLine value.now }
{
    Field {
        name,
        value: Value::Word(value.text()),
    }
}

// A digest.
pub(crate) fn digested<'a>(name: &'static str, value: &'a [u8; 64]) -> Field<'a>
    ensures field { result ≡ (name.now, encode_lower value.now) }
    ensures line { IsLine (encode_lower value.now) }
{
    Field {
        name,
        value: Value::Digest(value),
    }
}
