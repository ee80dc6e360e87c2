ghost use Rattle.std.specs.Prelude.{◌≡◌, ◌<◌, ◌≤◌, MatchOption, map};
ghost use Rattle.jdata.specs.Limits.{most_atoms};
ghost use Rattle.jdata.specs.Noun.{product, extent, greatest, atom_level};
ghost use Rattle.jdata.specs.Trees.{atom_of};

use crate::tree::Cell;

/// The most axes of an array.
pub const MAX_RANK: usize = 63;

/// The greatest product of the axes of an array that aren't 0.
pub const MAX_EXTENT: u64 = 134_217_728;

/// The most levels of boxes.
pub const MAX_LEVEL: u8 = 64;

/// The product of the axes, or nothing where the product of those that aren't 0 is beyond the limit.
pub fn product_within(axes: &[u64]) -> Option<u64>
    ensures { MatchOption result (most_atoms < extent axes.now) (λ n. (n ≡ product axes.now) × (extent axes.now ≤ most_atoms)) }
{
    let mut extent = 1;
    let mut is_empty = false;
    for &axis in axes {
        if axis == 0 {
            is_empty = true;
        } else if axis > MAX_EXTENT / extent {
            return None;
        } else {
            extent *= axis;
        }
    }
    Some(if is_empty { 0 } else { extent })
}

/// The product of the axes, where that of those that aren't 0 is within the limit.
pub fn product_of(axes: &[u64]) -> u64
    requires { extent axes.now ≤ most_atoms }
    ensures { result ≡ product axes.now }
{
    let mut product = 1;
    for &axis in axes {
        product *= axis;
    }
    product
}

/// The level of an array with these cells.
pub fn greatest_level(cells: &[Cell]) -> u8
    ensures { result ≡ greatest (map atom_level (map atom_of cells.now)) }
{
    let mut greatest = 0;
    for cell in cells {
        greatest = greatest.max(cell.level());
    }
    greatest
}
