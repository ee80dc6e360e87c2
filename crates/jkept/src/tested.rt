//! Tests and assertions, by their values.

ghost use Rattle.std.specs.Prelude.{◌≡◌, pos, map};
ghost use Rattle.std.specs.List.{list_all};
ghost use Rattle.std.specs.Ordering.{int_eq};
ghost use Rattle.jdata.specs.declared.noun.Atom.TheVariants as atom;
ghost use Rattle.jkept.specs.Tested as meant;

use jarray::{Array, Room};
use jdata::Leaf;

/// Whether a test with this value holds.
pub fn holds(room: &Room, value: &Array) -> bool
    ensures { result ≡ meant.holds value.now.noun }
{
    match value.leaf(room) {
        Leaf::Int(numbers) => first_holds(numbers),
        Leaf::Char(_) => true,
        Leaf::Cell(_) => true,
    }
}

fn first_holds(numbers: &[i64]) -> bool
    ensures { result ≡ meant.first_holds (map atom.Int numbers.now) }
{
    match numbers {
        [] => true,
        [first, ..] => !is_zero(first),
    }
}

fn is_zero(number: &i64) -> bool
    ensures { result ≡ int_eq number.now (pos 0) }
{
    *number == 0
}

/// Whether each atom of this value is a 1.
pub fn are_ones(room: &Room, value: &Array) -> bool
    ensures { result ≡ meant.are_ones value.now.noun }
{
    match value.leaf(room) {
        Leaf::Int(numbers) => all_ones(numbers),
        Leaf::Char(bytes) => bytes.is_empty(),
        Leaf::Cell(cells) => cells.is_empty(),
    }
}

fn all_ones(numbers: &[i64]) -> bool
    ensures { result ≡ list_all (λ number. int_eq number (pos 1)) numbers.now }
{
    numbers.iter().all(|&number| number == 1)
}
