//! How a number is written.

ghost use Rattle.std.specs.Prelude.{◌≡◌, ◌++◌, OnOk, OnErr};
ghost use Rattle.jnumber.specs.Spelling.{written};

use itoa::Buffer;
use std::alloc::AllocError;

/// Appends a number's digits, with `_` before them for a negative sign, or nothing where memory is
/// missing (J Dictionary, "Constants").
pub fn write(number: i64, out: &mut Vec<u8>) -> Result<(), AllocError>
    ensures ok { OnOk result (out.new.items ≡ out.old.items ++ written number) }
    ensures err { OnErr result (out.new.items ≡ out.old.items) }
{
    let mut buffer = Buffer::new();
    let digits = buffer.format(number.unsigned_abs()).as_bytes();
    out.reserve(digits.len() + 1)?;
    if number < 0 {
        out.push(b'_')?;
    }
    out.extend_from_slice(digits)?;
    Ok(())
}
