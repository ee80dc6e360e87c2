//! How many axes of a shape are the frame of the cells of a rank.

ghost use Rattle.std.specs.Prelude.{◌≡◌, ◌≤◌};
ghost use Rattle.jshape.specs.Frames as frames;

/// How many of so many axes are the frame of the cells of a rank.
pub fn frame_length(rank: Option<i64>, axes: usize) -> usize
    ensures value { result ≡ frames.frame_length rank axes }
    ensures within { result ≤ axes }
{
    match rank {
        None => 0,
        Some(rank) => limited_frame(rank, axes),
    }
}

fn limited_frame(rank: i64, axes: usize) -> usize
    ensures { result ≡ frames.frame_length (Some rank) axes }
{
    let counted = rank.unsigned_abs() as usize;
    if rank < 0 {
        counted.min(axes)
    } else {
        axes.saturating_sub(counted)
    }
}
