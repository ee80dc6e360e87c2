//! Key: the items at the places of equal items of another array.

ghost use Rattle.std.specs.Prelude.{◌≡◌, ◌==◌, ◌<◌, ◌++◌, ◌∷◌, [], ℕ, IfOk, OnOk, List, length, map, filter, slice_index, slice_index_or, slice_set};
ghost use Rattle.std.specs.List.{range_with_len, All};
ghost use Rattle.jdata.specs.Answers.{Answers};
ghost use Rattle.jcut.specs.Key as meant;
ghost use Rattle.jcut.specs.Grouped.{own_places, places_with};

use crate::counting::item_count;
use crate::pieces::{Pieces, PlaceList};
use jarray::{Array, Room};
use jdata::{Fault, NoMemory, Sequence, Trouble};
use std::alloc::Global;

/// The items of `y` at the places of each item of `~. x`. Its only fault is Length.
pub fn classes(alloc: Global, room: &mut Room, x: &Array, y: Array) -> Result<Pieces, Trouble>
    ensures { Answers (meant.classes x.now.noun y.noun) result }
{
    if item_count(room, x) != item_count(room, &y) {
        y.done(room);
        return Err(Trouble::Fault(Fault::Length));
    }
    match class_places(alloc, room, x) {
        Ok(lists) => Ok(Pieces::listed(y, lists)),
        Err(NoMemory) => {
            y.done(room);
            Err(Trouble::NoMemory)
        }
    }
}

/// The places of the items that match each new item.
fn class_places(alloc: Global, room: &Room, x: &Array) -> Result<Sequence<PlaceList>, NoMemory>
    ensures { IfOk result (λ l. l ≡ map (meant.places_like x.now.noun) (meant.new_places x.now.noun)) }
{
    let firsts = jsearch::first_places(alloc, room, x)?;
    let lists = grouped(alloc, firsts.as_slice())?;
    own_lists(alloc, firsts.as_slice(), lists)
}

/// For each number below their length, the places where it stands among the numbers.
fn grouped(alloc: Global, numbers: &[usize]) -> Result<Sequence<PlaceList>, NoMemory>
    requires { All (λ n. n < length numbers.now) numbers.now }
    ensures { IfOk result (λ l. l ≡ map (places_with numbers.now (length numbers.now)) (range_with_len 0 (length numbers.now))) }
{
    let mut lists = empty_lists(alloc, numbers.len())?;
    for place in 0..numbers.len() {
        push_into(&mut lists, numbers[place], place as u64)?;
    }
    Ok(Sequence::of(lists))
}

fn empty_lists(alloc: Global, count: usize) -> Result<Vec<PlaceList>, NoMemory>
    ensures { IfOk result (λ l. l.items ≡ map (λ _. []) (range_with_len 0 count)) }
{
    let mut lists = Vec::with_capacity(alloc, count)?;
    for _ in 0..count {
        lists.push(Sequence::of(Vec::new(alloc)))?;
    }
    Ok(lists)
}

fn push_into(lists: &mut Vec<PlaceList>, at: usize, place: u64) -> Result<(), NoMemory>
    requires { at < length lists.old.items }
    ensures { OnOk result (lists.new.items ≡ slice_set lists.old.items at (slice_index_or lists.old.items at [] ++ place ∷ [])) }
{
    lists[at].push(place)
}

/// The lists of those numbers that stand in their own place.
fn own_lists(
    alloc: Global,
    numbers: &[usize],
    mut lists: Sequence<PlaceList>,
) -> Result<Sequence<PlaceList>, NoMemory>
    requires { length lists ≡ length numbers.now }
    ensures { IfOk result (λ l. l ≡ map (λ i. slice_index_or lists i []) (own_places numbers.now (length numbers.now))) }
{
    let mut own = Sequence::of(Vec::new(alloc));
    for place in 0..numbers.len() {
        if numbers[place] == place {
            own.push(lists.replace(place, Sequence::of(Vec::new(alloc))))?;
        }
    }
    Ok(own)
}
