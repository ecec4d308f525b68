// The bytes that the forms allow.
ghost use Rattle.std.specs.Prelude.{◌≡◌};
ghost use Rattle.tl_path.specs.Bytes.{is_letter_or_digit, is_of_name, is_of_tag, is_lower_or_digit, is_of_platform, is_blank, is_barred};

pub(crate) fn is_letter_or_digit(byte: u8) -> bool
    ensures { result ≡ is_letter_or_digit byte }
{
    matches!(byte, b'a'..=b'z' | b'A'..=b'Z' | b'0'..=b'9')
}

pub(crate) fn is_of_name(byte: u8) -> bool
    ensures { result ≡ is_of_name byte }
{
    is_letter_or_digit(byte) || matches!(byte, b'.' | b'_' | b'-' | b'+')
}

pub(crate) fn is_of_tag(byte: u8) -> bool
    ensures { result ≡ is_of_tag byte }
{
    is_letter_or_digit(byte) || byte == b'_' || byte == b'-'
}

pub(crate) fn is_lower_or_digit(byte: u8) -> bool
    ensures { result ≡ is_lower_or_digit byte }
{
    matches!(byte, b'a'..=b'z' | b'0'..=b'9')
}

pub(crate) fn is_of_platform(byte: u8) -> bool
    ensures { result ≡ is_of_platform byte }
{
    is_lower_or_digit(byte) || byte == b'_' || byte == b'-'
}

pub(crate) fn is_blank(byte: u8) -> bool
    ensures { result ≡ is_blank byte }
{
    byte == b' ' || byte == b'\t'
}

pub(crate) fn is_barred(byte: u8) -> bool
    ensures { result ≡ is_barred byte }
{
    (byte <= b' ') | (byte == 0x7F) | (byte == b'"') | (byte == b'\\')
}
