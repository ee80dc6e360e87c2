//! What a run of bytes means as a number.

ghost use Rattle.std.specs.Prelude.{◌≡◌, ◌≢◌, ◌^◌, ◌<◌, ◌+◌, ◌*◌, ◌∷◌, length, slice_index, SomeIff};
ghost use Rattle.std.specs.Str.Parse.{IsNumeral, digits_value};
ghost use Rattle.jnumber.specs.Spelling.{underscore};
ghost use Rattle.jnumber.specs.Reading.{IsReading};

use crate::reading::Read;

/// Reads a run as a number: decimal digits with at most one `_` before them as the sign, within
/// 64 signed bits, or `_` alone. Leading zeros are allowed (J Dictionary, "Constants").
pub fn read(run: &[u8]) -> Read
    ensures { IsReading run.now result }
{
    match run {
        [b'_'] => Read::Wide,
        [b'_', digits @ ..] => read_negative(digits),
        digits => read_plain(digits),
    }
}

fn read_negative(digits: &[u8]) -> Read
    requires { 0 < length digits.now }
    ensures { IsReading (underscore ∷ digits.now) result }
{
    match magnitude(digits).and_then(|value| 0i64.checked_sub_unsigned(value)) {
        Some(number) => Read::Number(number),
        None => Read::Not,
    }
}

fn read_plain(digits: &[u8]) -> Read
    requires { slice_index digits.now 0 ≢ underscore }
    ensures { IsReading digits.now result }
{
    match magnitude(digits).and_then(|value| 0i64.checked_add_unsigned(value)) {
        Some(number) => Read::Number(number),
        None => Read::Not,
    }
}

/// The number that decimal digits write, where there are any and it fits 64 bits.
fn magnitude(digits: &[u8]) -> Option<u64>
    ensures { SomeIff result (IsNumeral 10 digits.now × (digits_value 10 digits.now < 2 ^ 64)) (digits_value 10 digits.now) }
{
    if digits.is_empty() {
        return None;
    }
    let mut value: u64 = 0;
    for byte in digits {
        if !byte.is_ascii_digit() {
            return None;
        }
        let Some(longer) = with_digit(value, *byte - b'0') else {
            return None;
        };
        value = longer;
    }
    Some(value)
}

/// The number with one digit more at its end, where it fits 64 bits.
fn with_digit(value: u64, digit: u8) -> Option<u64>
    ensures { SomeIff result (value * 10 + digit < 2 ^ 64) (value * 10 + digit) }
{
    let tens = value.checked_mul(10)?;
    tens.checked_add(u64::from(digit))
}
