//! The shape in which results are put.

ghost use Rattle.std.specs.Prelude.{◌≡◌, IfOk, map, get_or};
ghost use Rattle.jdata.specs.Noun.{shape, greatest};
ghost use Rattle.jframe.specs.Assembly as whole;

use jdata::{NoMemory, Tree};
use std::alloc::Global;

/// The greatest length of the results on each axis, each with leading axes of 1.
pub fn common_axes(alloc: Global, results: &[Tree]) -> Result<Vec<u64>, NoMemory>
    ensures { IfOk result (λ v. v.items ≡ whole.common_shape results.now) }
{
    let rank = greatest_rank(results);
    let mut axes = Vec::with_capacity(alloc, rank)?;
    for axis in 0..rank {
        axes.push(greatest_on(results, rank, axis))?;
    }
    Ok(axes)
}

pub fn greatest_rank(results: &[Tree]) -> usize
    ensures { result ≡ whole.greatest_rank results.now }
{
    let mut rank = 0;
    for tree in results {
        rank = rank.max(tree.shape().len());
    }
    rank
}

fn greatest_on(results: &[Tree], rank: usize, axis: usize) -> u64
    ensures { result ≡ greatest (map (λ v. get_or (whole.raised rank (shape v)) axis 1) results.now) }
{
    let mut greatest = 0;
    for tree in results {
        greatest = greatest.max(raised_axis(tree.shape(), rank, axis));
    }
    greatest
}

/// The length on an axis, with leading axes of 1 up to a rank.
pub fn raised_axis(axes: &[u64], rank: usize, axis: usize) -> u64
    ensures { result ≡ get_or (whole.raised rank axes.now) axis 1 }
{
    let leading = rank.saturating_sub(axes.len());
    if axis < leading {
        1
    } else {
        axes.get(axis - leading).copied().unwrap_or(1)
    }
}

/// The axes, with leading axes of 1 up to a rank.
pub fn raised(alloc: Global, axes: &[u64], rank: usize) -> Result<Vec<u64>, NoMemory>
    ensures { IfOk result (λ v. v.items ≡ whole.raised rank axes.now) }
{
    let leading = rank.saturating_sub(axes.len());
    let mut raised = Vec::with_capacity(alloc, rank)?;
    for _ in 0..leading {
        raised.push(1)?;
    }
    raised.extend_from_slice(axes)?;
    Ok(raised)
}
