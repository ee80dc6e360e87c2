//! Scalar monads on arrays.

ghost use Rattle.std.specs.Prelude.{◌≡◌, ◌≢◌, None, map, ℤ, Err};
ghost use Rattle.jarray.specs.Numbers.{integers};
ghost use Rattle.jarray.specs.Placed.{Gives};
ghost use Rattle.jdata.specs.Firsts.{all_or_first};
ghost use Rattle.jdata.specs.Limits.{IsArray};
ghost use Rattle.jdata.specs.Noun.{noun, int_atom};
ghost use Rattle.jdata.specs.declared.fault.Trouble.TheVariants as trouble;
ghost use Rattle.jdata.specs.declared.noun.Atom.TheVariants as atom;
ghost use Rattle.jdata.specs.declared.noun.Kind.TheVariants as sort;
ghost use Rattle.jmono.specs.Monads as monads;

use jarray::{Array, Room};
use jdata::{Fault, IntList, Leaves, NoMemory, Primitive, Tree, Trouble, product_of};
use jscalar::{Monad, each, scalar_monads};
use std::alloc::Global;

macro_rules! by_verb {
    (($alloc:ident $room:ident $verb:ident $y:ident) $($name:ident $row:ident)*) => {
        match $verb {
            $(Primitive::$name => each_integer::<jscalar::monads::$row>($alloc, $room, $y),)*
            _ => refused($room, $y),
        }
    };
}

/// What a scalar monad gives of each atom, as an array of the same shape, in the same buffer. Its
/// faults are Nonce for a verb that is no scalar monad, Domain for atoms that aren't integers, and
/// else that of the first atom in ravel order that has one. No memory, unless the array is in a block.
#[tactic(auto, unfolding(jscalar::specs::Monads::monad_on))]
pub fn scalar1(alloc: Global, room: &mut Room, verb: Primitive, y: Array) -> Result<Array, Trouble>
    ensures answer { Gives (monads.scalar_monad verb y.noun) result }
    ensures memory { y.block ≡ None → result ≢ Err trouble.NoMemory }
{
    scalar_monads!(by_verb alloc room verb y)
}

fn refused(room: &mut Room, y: Array) -> Result<Array, Trouble>
    ensures { result ≡ Err (trouble.Fault Fault.Nonce) }
{
    y.done(room);
    Err(Trouble::Fault(Fault::Nonce))
}

/// What the verb gives of each atom, as for `scalar1`.
pub fn each_integer<V: Monad>(alloc: Global, room: &mut Room, y: Array) -> Result<Array, Trouble>
    ensures answer { Gives (monads.each_integer V.meant y.noun) result }
    ensures memory { y.block ≡ None → result ≢ Err trouble.NoMemory }
{
    match y.integer(room) {
        Some(number) => {
            y.done(room);
            of_atom::<V>(number)
        }
        None => of_array::<V>(alloc, room, y),
    }
}

fn of_atom<V: Monad>(number: i64) -> Result<Array, Trouble>
    ensures answer { Gives (monads.each_integer V.meant (int_atom number)) result }
    ensures memory { result ≢ Err trouble.NoMemory }
{
    let (value, none) = V::raw(number);
    if none {
        Err(Trouble::Fault(Fault::Nonce))
    } else {
        Ok(Array::atom(value))
    }
}

fn of_array<V: Monad>(alloc: Global, room: &mut Room, y: Array) -> Result<Array, Trouble>
    requires { (n : ℤ) → y.noun ≢ int_atom n }
    ensures answer { Gives (monads.each_integer V.meant y.noun) result }
    ensures memory { y.block ≡ None → result ≢ Err trouble.NoMemory }
{
    match y.take_out(alloc, room) {
        Ok((tree, spot)) => match of_tree::<V>(alloc, tree) {
            Ok(tree) => Ok(spot.put_back(tree, room)),
            Err(fault) => Err(Trouble::Fault(fault)),
        },
        Err(NoMemory) => Err(Trouble::NoMemory),
    }
}

fn of_tree<V: Monad>(alloc: Global, tree: Tree) -> Result<Tree, Fault>
    ensures { result ≡ monads.each_integer V.meant tree }
{
    let is_empty = product_of(tree.shape()) == 0;
    let (axes, leaves) = tree.into_parts();
    match leaves {
        Leaves::Int(numbers) => of_numbers::<V>(axes, numbers.into_items()),
        _ => {
            if is_empty {
                Ok(jarray::integers(axes, IntList::of(Vec::new(alloc))))
            } else {
                Err(Fault::Domain)
            }
        }
    }
}

fn of_numbers<V: Monad>(axes: Vec<u64>, mut numbers: Vec<i64>) -> Result<Tree, Fault>
    requires { IsArray (noun axes.items sort.Int (map atom.Int numbers.items)) }
    ensures { result ≡ integers axes.items (all_or_first (map V.meant numbers.items)) }
{
    if each::<V>(numbers.as_mut_slice()) {
        Err(Fault::Nonce)
    } else {
        Ok(jarray::integers(axes, IntList::of(numbers)))
    }
}
