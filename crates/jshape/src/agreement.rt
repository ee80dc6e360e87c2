//! Agreement of frames.

ghost use Rattle.std.specs.Prelude.{◌≡◌, ◌↔◌, ◌⊎◌, ◌≤◌, length, Err, IfOk, IfErr, IsOk, IsTrue};
ghost use Rattle.jdata.specs.declared.fault.Trouble.TheVariants as trouble;
ghost use Rattle.jdata.specs.declared.fault.Fault.TheVariants as cause;
ghost use Rattle.jdata.specs.Answers.{Answers};
ghost use Rattle.jshape.specs.Agreement as agreement;
ghost use Rattle.jshape.specs.Frames.{IsPrefix, Agree, IsLonger};

use crate::shape::Shape;
use jdata::{Fault, NoMemory, Trouble};
use std::alloc::Global;

/// The frame of both of two frames, where one is a prefix of the other: the longer one. Its only
/// fault is Length: neither is a prefix of the other.
pub fn agree(alloc: Global, left: &Shape, right: &Shape) -> Result<Shape, Trouble>
    ensures value { Answers (agreement.agreed left.now right.now) result }
    ensures ok { IfOk result (IsLonger left.now right.now) }
    ensures length { (result ≡ Err (trouble.Fault cause.Length)) ↔ (¬ Agree left.now right.now) }
    ensures only { IfErr result (λ why. (why ≡ trouble.Fault cause.Length) ⊎ (why ≡ trouble.NoMemory)) }
    ensures inline { Agree left.now right.now → length left.now ≤ 4 → length right.now ≤ 4 → IsOk result }
{
    let left = left.axes();
    let right = right.axes();
    let longer = if is_prefix(left, right) {
        right
    } else if is_prefix(right, left) {
        left
    } else {
        return Err(Trouble::Fault(Fault::Length));
    };
    match Shape::of(alloc, longer) {
        Ok(shape) => Ok(shape),
        Err(NoMemory) => Err(Trouble::NoMemory),
    }
}

fn is_prefix(short: &[u64], long: &[u64]) -> bool
    ensures test { result ≡ agreement.is_prefix short.now long.now }
    ensures prefix { IsTrue result ↔ IsPrefix short.now long.now }
{
    long.starts_with(short)
}
