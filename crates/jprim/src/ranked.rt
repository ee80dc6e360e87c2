//! Verbs at their ranks, where an array that is one cell is taken as it stands.

ghost use Rattle.std.specs.Prelude.{◌≡◌, true};
ghost use Rattle.jarray.specs.Placed.{Gives};
ghost use Rattle.jframe.specs.Ranks as ranks;
ghost use Rattle.jshape.specs.Frames.{frame_length};

use jarray::{Array, Room};
use jdata::Trouble;
use jframe::{WholeDyad, WholeMonad, at_rank, at_ranks};
use std::alloc::Global;

/// The verb on each cell of a rank, as `at_rank`. An only cell isn't copied, nor what comes of it.
pub fn ranked_monad<V: WholeMonad>(
    alloc: Global,
    room: &mut Room,
    rank: Option<i64>,
    y: Array,
) -> Result<Array, Trouble>
    ensures { Gives (ranks.at_rank rank V.meant y.noun) result }
{
    let axes = y.shape(room).len();
    if !is_one_cell(rank, axes) {
        return at_rank::<V>(alloc, room, rank, y);
    }
    match V::apply(alloc, room, y) {
        Ok(value) => {
            // as an array it is within the limits
            let _shape = value.shape(room);
            Ok(value)
        }
        Err(trouble) => Err(trouble),
    }
}

/// The verb on each pair of cells of its ranks, as `at_ranks`. An only pair isn't copied, nor what
/// comes of it.
pub fn ranked_dyad<V: WholeDyad>(
    alloc: Global,
    room: &mut Room,
    left: Option<i64>,
    right: Option<i64>,
    x: Array,
    y: Array,
) -> Result<Array, Trouble>
    ensures { Gives (ranks.at_ranks left right V.meant x.noun y.noun) result }
{
    let left_axes = x.shape(room).len();
    let right_axes = y.shape(room).len();
    if !is_one_cell(left, left_axes) || !is_one_cell(right, right_axes) {
        return at_ranks::<V>(alloc, room, left, right, x, y);
    }
    match V::apply(alloc, room, x, y) {
        Ok(value) => {
            // as an array it is within the limits
            let _shape = value.shape(room);
            Ok(value)
        }
        Err(trouble) => Err(trouble),
    }
}

/// Whether an array of so many axes is a cell of the rank; no where a negative rank counts the frame.
fn is_one_cell(rank: Option<i64>, axes: usize) -> bool
    ensures { result ≡ true → frame_length rank axes ≡ 0 }
{
    match rank {
        None => true,
        Some(most) => most >= 0 && axes as u64 <= most.unsigned_abs(),
    }
}
