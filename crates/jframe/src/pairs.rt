//! Verbs with two arguments at their ranks.

ghost use Rattle.std.specs.Prelude.{◌≡◌, ◌≢◌, ◌/◌, ◌++◌, ℕ, List, map, Result, Ok, Err, IfOk, IfErr};
ghost use Rattle.std.specs.List.{range_with_len};
ghost use Rattle.jdata.specs.Answers.{Answers};
ghost use Rattle.jdata.specs.Firsts.{all_or_first};
ghost use Rattle.jdata.specs.Noun.{shape, product};
ghost use Rattle.jdata.specs.declared.fault.Fault.{Fault as FaultSeen};
ghost use Rattle.jdata.specs.declared.noun.Noun.{Noun};
ghost use Rattle.jarray.specs.Placed.{Gives};
ghost use Rattle.jshape.specs.Agreement.{agreed, repeated};
ghost use Rattle.jshape.specs.Frames.{frame_of, IsPrefix};
ghost use Rattle.jframe.specs.Cells.{parted, nth_cell};
ghost use Rattle.jframe.specs.Ranks as ranks;

use crate::parted::Cells;
use crate::parting::{cells, fill_cell};
use crate::ranks::{finished, for_shape};
use crate::results::Results;
use jarray::{Array, Room};
use jdata::{NoMemory, Trouble, product_of};
use jshape::{Shape, agree};
use std::alloc::Global;

/// A verb on two whole arrays: an impl is its kernel.
pub trait WholeDyad {
    /// What it gives of two nouns.
    ghost meant: { Noun → Noun → Result Noun FaultSeen };

    fn apply(alloc: Global, room: &mut Room, x: Array, y: Array) -> Result<Array, Trouble>
        ensures { Gives (meant x.noun y.noun) result };
}

/// The cells of two arrays whose frames agree, in pairs: those of the shorter frame are repeated.
#[derive(Debug, Drop)]
struct Pairs {
    frame: Shape,
    left: Cells,
    right: Cells,
}

/// The verb on each pair of cells of its ranks, the results assembled. Frames that don't agree
/// have the fault Length. Where the frame has a 0, the verb is applied once to cells of fills, for
/// the shape and the kind.
pub fn at_ranks<V: WholeDyad>(
    alloc: Global,
    room: &mut Room,
    left: Option<i64>,
    right: Option<i64>,
    x: Array,
    y: Array,
) -> Result<Array, Trouble>
    ensures { Gives (ranks.at_ranks left right V.meant x.noun y.noun) result }
{
    let pairs = match pair(alloc, room, left, right, &x, &y) {
        Ok(pairs) => pairs,
        Err(trouble) => return Err(trouble),
    };
    if pairs.frame.product() == 0 {
        let x = match fill_cell(alloc, room, &x, left) {
            Ok(fills) => fills,
            Err(NoMemory) => return Err(Trouble::NoMemory),
        };
        let y = match fill_cell(alloc, room, &y, right) {
            Ok(fills) => fills,
            Err(NoMemory) => return Err(Trouble::NoMemory),
        };
        let answer = V::apply(alloc, room, Array::of(x), Array::of(y));
        return for_shape(alloc, room, &pairs.frame, answer);
    }
    match each_pair::<V>(alloc, room, &pairs, &x, &y) {
        Ok(results) => finished(results, &pairs.frame),
        Err(trouble) => Err(trouble),
    }
}

/// The pairs of cells of two arrays at two ranks.
fn pair(
    alloc: Global,
    room: &Room,
    left: Option<i64>,
    right: Option<i64>,
    x: &Array,
    y: &Array,
) -> Result<Pairs, Trouble>
    ensures left { IfOk result (λ p. (p.left ≡ parted left (shape x.now.noun)) × (shape x.now.noun ≡ p.left.frame ++ p.left.cell)) }
    ensures right { IfOk result (λ p. (p.right ≡ parted right (shape y.now.noun)) × (shape y.now.noun ≡ p.right.frame ++ p.right.cell)) }
    ensures frame { IfOk result (λ p. agreed p.left.frame p.right.frame ≡ Ok p.frame) }
    ensures err { IfErr result (λ why. Answers {Value = List ℕ} (agreed (frame_of left (shape x.now.noun)) (frame_of right (shape y.now.noun))) (Err why)) }
{
    let left = match cells(alloc, room, x, left) {
        Ok(cells) => cells,
        Err(NoMemory) => return Err(Trouble::NoMemory),
    };
    let right = match cells(alloc, room, y, right) {
        Ok(cells) => cells,
        Err(NoMemory) => return Err(Trouble::NoMemory),
    };
    match agree(alloc, left.frame(), right.frame()) {
        Ok(frame) => Ok(Pairs { frame, left, right }),
        Err(trouble) => Err(trouble),
    }
}

/// What the verb gives of each pair, up to the first fault.
fn each_pair<V: WholeDyad>(
    alloc: Global,
    room: &mut Room,
    pairs: &Pairs,
    x: &Array,
    y: &Array,
) -> Result<Results, Trouble>
    requires left { shape x.now.noun ≡ pairs.now.left.frame ++ pairs.now.left.cell }
    requires right { shape y.now.noun ≡ pairs.now.right.frame ++ pairs.now.right.cell }
    requires agree { agreed pairs.now.left.frame pairs.now.right.frame ≡ Ok pairs.now.frame }
    requires some { product pairs.now.frame ≢ 0 }
    ensures { Answers (all_or_first (map (λ i. V.meant (nth_cell pairs.now.left.cell x.now.noun (i / repeated pairs.now.left.frame pairs.now.frame)) (nth_cell pairs.now.right.cell y.now.noun (i / repeated pairs.now.right.frame pairs.now.frame))) (range_with_len 0 (product pairs.now.frame)))) result }
{
    // a frame has no more cells than the limit says
    let _axes = pairs.frame.axes();
    let lefts = repeats(pairs.left.frame(), &pairs.frame);
    let rights = repeats(pairs.right.frame(), &pairs.frame);
    let mut results = Results::new(alloc);
    for at in 0..pairs.frame.product() {
        let left = match pairs.left.get(alloc, room, x, at / lefts) {
            Ok(cell) => cell,
            Err(NoMemory) => return Err(Trouble::NoMemory),
        };
        let right = match pairs.right.get(alloc, room, y, at / rights) {
            Ok(cell) => cell,
            Err(NoMemory) => return Err(Trouble::NoMemory),
        };
        let value = match V::apply(alloc, room, left, right) {
            Ok(value) => value,
            Err(trouble) => return Err(trouble),
        };
        match results.push(room, value) {
            Ok(()) => {}
            Err(NoMemory) => return Err(Trouble::NoMemory),
        }
    }
    Ok(results)
}

/// How many cells of the whole frame use the same cell of a part of it. No memory.
pub fn repeats(part: &Shape, whole: &Shape) -> u64
    requires { IsPrefix part.now whole.now }
    ensures { result ≡ repeated part.now whole.now }
{
    let axes = whole.axes();
    product_of(&axes[part.axes().len()..])
}
