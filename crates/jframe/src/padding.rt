//! An array's atoms in a greater shape, with fills in the places that it lacks.

ghost use Rattle.std.specs.Prelude.{◌≡◌, ◌*◌, ◌≤◌, ◌∷◌, ◌++◌, OnOk, length, take, drop};
ghost use Rattle.jdata.specs.Limits.{most_atoms};
ghost use Rattle.jdata.specs.Noun.{product, extent};
ghost use Rattle.jframe.specs.Padding.{FitsIn, spread};

use jdata::{Item, NoMemory, product_of, push_fills};
use std::alloc::Global;
use std::collections::VecDeque;

/// The items of an array of the shape `part`, which are the first of `from`, in the shape `whole`
/// at the end of `into`.
#[cycle(padding)]
pub fn pad<T: Item>(
    alloc: Global,
    whole: &[u64],
    part: &[u64],
    from: &mut VecDeque<T>,
    into: &mut Vec<T>,
) -> Result<(), NoMemory>
    requires fits { FitsIn part.now whole.now }
    requires bound { extent whole.now ≤ most_atoms }
    requires enough { product part.now ≤ length from.old.items }
    ensures into { OnOk result (into.new.items ≡ into.old.items ++ spread T.blank whole.now part.now from.old.items) }
    ensures from { OnOk result (from.new.items ≡ drop (product part.now) from.old.items) }
{
    if whole.is_empty() {
        return move_items(from, into, 1);
    }
    let fills = whole[0] - part[0];
    let whole_rest = &whole[1..];
    match pad_rows(alloc, part[0], whole_rest, &part[1..], from, into) {
        Ok(()) => push_fills(alloc, into, fills * product_of(whole_rest)),
        Err(NoMemory) => Err(NoMemory),
    }
}

/// The same of so many arrays, one after the other.
#[cycle(padding)]
fn pad_rows<T: Item>(
    alloc: Global,
    count: u64,
    whole: &[u64],
    part: &[u64],
    from: &mut VecDeque<T>,
    into: &mut Vec<T>,
) -> Result<(), NoMemory>
    requires fits { FitsIn part.now whole.now }
    requires bound { extent whole.now ≤ most_atoms }
    requires enough { count * product part.now ≤ length from.old.items }
    ensures into { OnOk result (into.new.items ≡ into.old.items ++ spread T.blank (count ∷ whole.now) (count ∷ part.now) from.old.items) }
    ensures from { OnOk result (from.new.items ≡ drop (count * product part.now) from.old.items) }
{
    if whole == part {
        return move_items(from, into, count * product_of(whole));
    }
    for _ in 0..count {
        match pad(alloc, whole, part, from, into) {
            Ok(()) => {}
            Err(NoMemory) => return Err(NoMemory),
        }
    }
    Ok(())
}

/// The first items of one list, at the end of the other.
fn move_items<T: Drop>(
    from: &mut VecDeque<T>,
    into: &mut Vec<T>,
    count: u64,
) -> Result<(), NoMemory>
    requires { count ≤ length from.old.items }
    ensures into { OnOk result (into.new.items ≡ into.old.items ++ take count from.old.items) }
    ensures from { OnOk result (from.new.items ≡ drop count from.old.items) }
{
    for _ in 0..count {
        if let Some(item) = from.pop_front() {
            into.push(item)?;
        }
    }
    Ok(())
}
