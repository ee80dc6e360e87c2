//! Same, left, right and cap.

ghost use Rattle.jarray.specs.Placed.{Gives};
ghost use Rattle.jstruct.specs.Same as meant;

use jarray::Array;
use jdata::{Fault, Trouble};

/// `[ y` and `] y`: the argument. No memory.
pub fn same(y: Array) -> Result<Array, Trouble>
    ensures { Gives (meant.same y.noun) result }
{
    Ok(y)
}

/// `x [ y`: the left argument. No memory.
pub fn left(x: Array, y: Array) -> Result<Array, Trouble>
    ensures { Gives (meant.left x.noun y.noun) result }
{
    Ok(x)
}

/// `x ] y`: the right argument. No memory.
pub fn right(x: Array, y: Array) -> Result<Array, Trouble>
    ensures { Gives (meant.right x.noun y.noun) result }
{
    Ok(y)
}

/// `[: y`: a domain error, for a cap is applied to nothing. No memory.
pub fn cap(y: Array) -> Result<Array, Trouble>
    ensures { Gives (meant.capped y.noun) result }
{
    Err(Trouble::Fault(Fault::Domain))
}

/// `x [: y`: a domain error. No memory.
pub fn cap_dyad(x: Array, y: Array) -> Result<Array, Trouble>
    ensures { Gives (meant.capped_dyad x.noun y.noun) result }
{
    Err(Trouble::Fault(Fault::Domain))
}
