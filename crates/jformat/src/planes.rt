//! The blank rows between planes.

ghost use Rattle.std.specs.Prelude.{◌≡◌, ◌<◌, ◌≤◌, ◌%◌, ◌==◌};
ghost use Rattle.jdata.specs.Noun.{product};
ghost use Rattle.jformat.specs.Rows as rows;

use crate::axes::{last_axis, row_axes};

/// How many blank rows stand before a row of an array whose rows stand along these axes.
pub(crate) fn blanks_before_row(axes: &[u64], row: usize) -> usize
    requires some { 0 < product axes.now }
    requires within { product axes.now ≤ 134217728 }
    ensures { result ≡ rows.blanks_before_row axes.now row }
{
    let height = last_axis(axes) as usize;
    if row % height == 0 {
        blanks_before_plane(row_axes(axes), row / height)
    } else {
        0
    }
}

/// Whether a row is the first of its plane.
pub(crate) fn starts_plane(axes: &[u64], row: usize) -> bool
    requires { 0 < product axes.now }
    ensures { result ≡ (row % rows.last_axis axes.now == 0) }
{
    row % last_axis(axes) as usize == 0
}

/// How many blank rows stand before a plane: none before the first; else one, and one for each
/// axis before the last whose number is another than at the plane before.
fn blanks_before_plane(axes: &[u64], plane: usize) -> usize
    requires some { 0 < product axes.now }
    requires within { product axes.now ≤ 134217728 }
    ensures { result ≡ rows.blanks_before_plane axes.now plane }
{
    if plane == 0 {
        return 0;
    }
    let mut blanks = 1;
    // how many planes go by at one number of an axis
    let mut inner = 1;
    for at in (1..axes.len()).rev() {
        inner *= axes[at] as usize;
        let axis = axes[at - 1] as usize;
        if (plane - 1) / inner % axis != plane / inner % axis {
            blanks += 1;
        }
    }
    blanks
}
