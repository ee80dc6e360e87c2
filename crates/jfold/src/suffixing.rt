//! A verb between the numbers of each suffix.

ghost use Rattle.std.specs.Prelude.{◌≡◌, ◌≢◌, [], Some, None, true, false, IfOk, ◌-◌, length, map, slice_get};
ghost use Rattle.std.specs.List.{Contains};
ghost use Rattle.std.specs.Option.{IfSome, IfNone};
ghost use Rattle.jfold.specs.Folded as folded;

use jdata::{IntList, NoMemory, Primitive};
use jscalar::{Dyad, scalar_dyads};
use std::alloc::Global;

macro_rules! of_verb {
    (($verb:ident $alloc:ident $numbers:ident) $($name:ident $row:ident)*) => {
        match $verb {
            $(Primitive::$name => of_row::<jscalar::dyads::$row>($alloc, $numbers),)*
            _ => Ok(None),
        }
    };
}

/// The values of a scalar verb between the numbers of each suffix of a list, from the whole list on (NuVoc, "\."), in
/// one pass. There are none without numbers, of a verb that is no scalar dyad, and where the verb has a fault in one.
#[tactic(auto, unfolding(jscalar::specs::Dyads::dyad_on))]
pub fn suffixes(
    alloc: Global,
    verb: Primitive,
    numbers: &[i64],
) -> Result<Option<IntList>, NoMemory>
    ensures some { IfOk result (λ made. IfSome made (λ values. folded.each_suffix verb numbers.now ≡ map Some values)) }
    ensures none { IfOk result (λ made. IfNone made (numbers.now ≢ [] → Contains (folded.each_suffix verb numbers.now) None)) }
{
    scalar_dyads!(of_verb verb alloc numbers)
}

fn of_row<V: Dyad>(alloc: Global, numbers: &[i64]) -> Result<Option<IntList>, NoMemory>
    ensures some { IfOk result (λ made. IfSome made (λ values. folded.suffixes_by (Some V.meant) numbers.now ≡ map Some values)) }
    ensures none { IfOk result (λ made. IfNone made (numbers.now ≢ [] → Contains (folded.suffixes_by (Some V.meant) numbers.now) None)) }
{
    let Some(last) = numbers.last() else {
        return Ok(None);
    };
    let mut values = Vec::from_slice(alloc, numbers)?;
    if from_last::<V>(*last, values.as_mut_slice()) {
        Ok(Some(IntList::of(values)))
    } else {
        Ok(None)
    }
}

/// Puts into each place the verb between the numbers from there on, and answers whether each has a value.
fn from_last<V: Dyad>(last: i64, numbers: &mut [i64]) -> bool
    requires { slice_get numbers.old (length numbers.old - 1) ≡ Some last }
    ensures some { result ≡ true → folded.suffixes_by (Some V.meant) numbers.old ≡ map Some numbers.new }
    ensures none { result ≡ false → Contains (folded.suffixes_by (Some V.meant) numbers.old) None }
{
    let mut value = last;
    let mut left = numbers.len() - 1;
    while left > 0 {
        left -= 1;
        let (next, refused) = V::raw(numbers[left], value);
        if refused {
            return false;
        }
        numbers[left] = next;
        value = next;
    }
    true
}
