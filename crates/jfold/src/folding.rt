//! A verb between numbers, from the last on.
ghost use Rattle.std.specs.Prelude.{◌≡◌, reverse};
ghost use Rattle.jfold.specs.Folded as folded;

use jdata::Primitive;
use jscalar::{Dyad, scalar_dyads};

macro_rules! of_verb {
    (($verb:ident $numbers:ident) $($name:ident $row:ident)*) => {
        match $verb {
            $(Primitive::$name => of_row::<jscalar::dyads::$row>($numbers),)*
            _ => None,
        }
    };
}

/// The value of a scalar verb between the numbers of a list, from the last on (NuVoc, "/"). There is none without
/// numbers, of a verb that is no scalar dyad, and where the verb has a fault on the way. It takes no memory.
#[tactic(auto, unfolding(jscalar::specs::Dyads::dyad_on))]
pub fn inserted(verb: Primitive, numbers: &[i64]) -> Option<i64>
    ensures { result ≡ folded.inserted verb numbers.now }
{
    scalar_dyads!(of_verb verb numbers)
}

fn of_row<V: Dyad>(numbers: &[i64]) -> Option<i64>
    ensures { result ≡ folded.of_back V.meant (reverse numbers.now) }
{
    let (last, others) = numbers.split_last()?;
    between::<V>(others, *last)
}

fn between<V: Dyad>(numbers: &[i64], last: i64) -> Option<i64>
    ensures { result ≡ folded.between V.meant (reverse numbers.now) last }
{
    let mut value = last;
    let mut left = numbers.len();
    while left > 0 {
        left -= 1;
        let (next, refused) = V::raw(numbers[left], value);
        if refused {
            return None;
        }
        value = next;
    }
    Some(value)
}
