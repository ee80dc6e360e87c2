//! Two arrays in one.

ghost use Rattle.std.specs.Prelude.{◌≡◌, ◌<◌, ◌≤◌, ◌⊎◌, ◌∷◌, [], nat_le, Err, IfOk, length};
ghost use Rattle.jdata.specs.Limits.{most_axes};
ghost use Rattle.jdata.specs.Noun.{shape};
ghost use Rattle.jarray.specs.Placed.{Gives};
ghost use Rattle.jframe.specs.Assembly.{common_kind as kind_of_all};
ghost use Rattle.jframe.specs.Joining.{items_joined};
ghost use Rattle.jstruct.specs.Joins as meant;

use jarray::{Array, Room};
use jdata::{Fault, Kind, MAX_RANK, NoMemory, Tree, Trouble, filled};
use jframe::{WholeDyad, at_ranks, common_kind, join_arrays};
use std::alloc::Global;

/// `x , y`: the items of `x` and then those of `y`, filled to one shape; an atom fills one item.
/// The faults are Domain, for kinds that differ, and Limit.
pub fn join(alloc: Global, room: &mut Room, x: Array, y: Array) -> Result<Array, Trouble>
    ensures { Gives (meant.appended x.noun y.noun) result }
{
    let x = x.into_tree(alloc, room)?;
    let y = y.into_tree(alloc, room)?;
    join_two(alloc, x, y)
}

fn join_two(alloc: Global, x: Tree, y: Tree) -> Result<Array, Trouble>
    ensures { Gives (items_joined (x ∷ y ∷ [])) result }
{
    let both = two(alloc, x, y)?;
    match join_arrays(alloc, both) {
        Ok(tree) => Ok(Array::of(tree)),
        Err(trouble) => Err(trouble),
    }
}

fn two(alloc: Global, x: Tree, y: Tree) -> Result<Vec<Tree>, NoMemory>
    ensures { IfOk result (λ v. v.items ≡ x ∷ y ∷ []) }
{
    let mut both = Vec::with_capacity(alloc, 2)?;
    both.push(x)?;
    both.push(y)?;
    Ok(both)
}

/// `x ,: y`: two items, `x` and `y`, filled to one shape; an atom fills its item. The faults are
/// Domain, for kinds that differ, and Limit.
pub fn laminate(alloc: Global, room: &mut Room, x: Array, y: Array) -> Result<Array, Trouble>
    ensures { Gives (meant.laminated x.noun y.noun) result }
{
    let x = x.into_tree(alloc, room)?;
    let y = y.into_tree(alloc, room)?;
    if has_all_axes(&x) || has_all_axes(&y) {
        return match too_high(alloc, x, y) {
            Ok(fault) => Err(Trouble::Fault(fault)),
            Err(NoMemory) => Err(Trouble::NoMemory),
        };
    }
    let x = layer(alloc, x)?;
    let y = layer(alloc, y)?;
    join_two(alloc, x, y)
}

/// Whether an array has as many axes as an array may have.
fn has_all_axes(tree: &Tree) -> bool
    ensures { result ≡ nat_le most_axes (length (shape tree.now)) }
{
    tree.shape().len() >= MAX_RANK
}

/// Why two arrays are no layers, of which one has all axes already.
fn too_high(alloc: Global, x: Tree, y: Tree) -> Result<Fault, NoMemory>
    requires { (most_axes ≤ length (shape x)) ⊎ (most_axes ≤ length (shape y)) }
    ensures { IfOk result (λ why. meant.laminated x y ≡ Err why) }
{
    let both = two(alloc, x, y)?;
    match common_kind(both.as_slice()) {
        Some(_) => Ok(Fault::Limit),
        None => Ok(Fault::Domain),
    }
}

/// The array as the only item of another, unless it is an atom.
fn layer(alloc: Global, tree: Tree) -> Result<Tree, NoMemory>
    requires { length (shape tree) < most_axes }
    ensures { IfOk result (λ t. t ≡ meant.layer tree) }
{
    // as an array it has all the atoms of its shape
    let _shape = tree.shape();
    let (axes, atoms) = tree.into_parts();
    let axes = layer_axes(axes)?;
    match Tree::new(axes, atoms) {
        Ok(layer) => Ok(layer),
        Err(_) => unreachable!(),
    }
}

fn layer_axes(mut axes: Vec<u64>) -> Result<Vec<u64>, NoMemory>
    ensures { IfOk result (λ v. v.items ≡ meant.layer_axes axes.items) }
{
    if axes.len() > 0 {
        axes.insert(0, 1)?;
    }
    Ok(axes)
}

/// `,` as a verb that is applied to items.
struct Joining;

impl WholeDyad for Joining {
    ghost meant = { meant.appended };

    fn apply(alloc: Global, room: &mut Room, x: Array, y: Array) -> Result<Array, Trouble> {
        join(alloc, room, x, y)
    }
}

/// `x ,. y`: each item of `x` joined with that of `y`. The faults are Length, Domain, for kinds that
/// differ, and Limit.
pub fn join_items(alloc: Global, room: &mut Room, x: Array, y: Array) -> Result<Array, Trouble>
    ensures { Gives (meant.stitched x.noun y.noun) result }
{
    let kind = kind_of_both(room, &x, &y);
    let x = as_kind(alloc, room, kind, x)?;
    let y = as_kind(alloc, room, kind, y)?;
    at_ranks::<Joining>(alloc, room, Some(-1), Some(-1), x, y)
}

/// The kind of those with atoms or, where neither has some, of the first.
fn kind_of_both(room: &Room, x: &Array, y: &Array) -> Kind
    ensures { result ≡ kind_of_all (x.now.noun ∷ y.now.noun ∷ []) }
{
    if x.leaf(room).len() == 0 && y.leaf(room).len() > 0 {
        y.kind(room)
    } else {
        x.kind(room)
    }
}

/// The array, of this kind where it has no atoms.
fn as_kind(alloc: Global, room: &Room, kind: Kind, y: Array) -> Result<Array, NoMemory>
    ensures { IfOk result (λ a. a.noun ≡ meant.as_kind kind y.noun) }
{
    if y.leaf(room).len() > 0 {
        return Ok(y);
    }
    let axes = Vec::from_slice(alloc, y.shape(room))?;
    let none = filled(alloc, kind, 0)?;
    match Tree::new(axes, none) {
        Ok(tree) => Ok(Array::of(tree)),
        Err(_) => unreachable!(),
    }
}
