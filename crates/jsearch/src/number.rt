//! Places as integers.

ghost use Rattle.std.specs.Prelude.{◌≡◌, ◌<◌, ◌^◌, pos};

/// A place as an integer.
pub fn integer(place: u64) -> i64
    requires { place < 2 ^ 63 }
    ensures { result ≡ pos place }
{
    place as i64
}
