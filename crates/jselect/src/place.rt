//! Places that integers name.

ghost use Rattle.std.specs.Prelude.{◌≡◌, ◌<◌, ◌≤◌, Ok, length, take, pos, slice_index, slice_index_or};
ghost use Rattle.jdata.specs.Firsts.{and_then};
ghost use Rattle.jdata.specs.Indexes.{place_at};
ghost use Rattle.jdata.specs.Limits.{most_atoms};
ghost use Rattle.jdata.specs.Noun.{extent};
ghost use Rattle.jselect.specs.Places as places;

use jdata::Fault;

/// The place that an integer names among so many, where a negative one counts from the end. Its
/// only fault is Index.
pub fn place_in(count: u64, number: i64) -> Result<u64, Fault>
    ensures { result ≡ places.place_in count number }
{
    let distance = number.unsigned_abs();
    if number >= 0 && distance < count {
        Ok(distance)
    } else if number < 0 && distance <= count {
        Ok(count - distance)
    } else {
        Err(Fault::Index)
    }
}

/// The place on one of the axes.
fn place_on(axes: &[u64], numbers: &[i64], axis: usize) -> Result<u64, Fault>
    requires axis { axis < length axes.now }
    requires number { axis < length numbers.now }
    ensures { result ≡ places.place_in (slice_index axes.now axis) (slice_index_or numbers.now axis (pos 0)) }
{
    place_in(axes[axis], numbers[axis])
}

/// Which of the cells that the first axes count is the one at the named places.
pub fn cell_number(axes: &[u64], numbers: &[i64]) -> Result<u64, Fault>
    requires few { length numbers.now ≤ length axes.now }
    requires bound { extent axes.now ≤ most_atoms }
    ensures { result ≡ and_then (places.places_in axes.now numbers.now) (λ ps. Ok (place_at (take (length numbers.now) axes.now) ps)) }
{
    let mut cell: u64 = 0;
    for axis in 0..numbers.len() {
        match place_on(axes, numbers, axis) {
            Ok(place) => cell = cell * axes[axis] + place,
            Err(fault) => return Err(fault),
        }
    }
    Ok(cell)
}
