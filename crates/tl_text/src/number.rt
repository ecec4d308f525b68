//! Decimal numbers.
ghost use Rattle.std.specs.Prelude.{◌≡◌, ◌+◌, ◌*◌, ◌-◌, ◌<◌, ◌≤◌, ◌^◌, IfOk, IfErr, SomeIff, length};
ghost use Rattle.std.specs.Char.{is_ascii_digit};
ghost use Rattle.std.specs.List.{list_all};
ghost use Rattle.tl_model.specs.Decimal.{IsDecimal, decimal_value, is_decimal};
ghost use Rattle.tl_text.specs.Numbers.{IsNumberFault};

use thiserror::Error;

/// Why a text is no number of a type.
#[derive(Debug, Drop, Error)]
pub enum NumberError {
    /// The text isn't one or more decimal digits.
    #[error("not a number")]
    NotNumber,
    /// The number is above the type's greatest, which is `limit`.
    #[error("a number above {limit}")]
    TooLarge { limit: u64 },
}

fn has_digits_alone(text: &[u8]) -> bool
    ensures { result ≡ list_all is_ascii_digit text.now }
{
    text.iter().all(|b| b.is_ascii_digit())
}

fn is_number(text: &[u8]) -> bool
    ensures { result ≡ is_decimal text.now }
{
    !text.is_empty() && has_digits_alone(text)
}

fn next_value(value: u64, digit: u8) -> Option<u64>
    requires from { 48 ≤ digit }
    ensures { SomeIff result (value * 10 + (digit - 48) < 2 ^ 64) (value * 10 + (digit - 48)) }
{
    value.checked_mul(10)?.checked_add(u64::from(digit - b'0'))
}

/// The number that decimal digits stand for. Leading zeros are read, a sign is none. Takes no memory.
/// `NotNumber` where the text isn't one or more decimal digits, `TooLarge` where the number passes 2^64 - 1.
pub fn decimal_u64(text: &[u8]) -> Result<u64, NumberError>
    ensures number { IfOk result (λ n. IsDecimal text.now × (n ≡ decimal_value text.now)) }
    ensures fault { IfErr result (λ e. IsNumberFault 18446744073709551615 text.now e) }
{
    if !is_number(text) {
        return Err(NumberError::NotNumber);
    }
    let mut value = 0u64;
    for digit in text {
        match next_value(value, *digit) {
            Some(next) => value = next,
            None => return Err(NumberError::TooLarge { limit: u64::MAX }),
        }
    }
    Ok(value)
}

/// The number that decimal digits stand for. Leading zeros are read, a sign is none. Takes no memory.
/// `NotNumber` where the text isn't one or more decimal digits, `TooLarge` where the number passes 2^32 - 1.
pub fn decimal_u32(text: &[u8]) -> Result<u32, NumberError>
    ensures number { IfOk result (λ n. IsDecimal text.now × (n ≡ decimal_value text.now)) }
    ensures fault { IfErr result (λ e. IsNumberFault 4294967295 text.now e) }
{
    let limit = u64::from(u32::MAX);
    match decimal_u64(text) {
        Ok(value) if value <= limit => Ok(value as u32),
        Ok(_) | Err(NumberError::TooLarge { .. }) => Err(NumberError::TooLarge { limit }),
        Err(NumberError::NotNumber) => Err(NumberError::NotNumber),
    }
}
