//! Frets: the items at which an array is cut.

ghost use Rattle.std.specs.Prelude.{◌≡◌, ◌==◌, ◌<◌, IfOk, length, map, slice_index};
ghost use Rattle.std.specs.List.{list_all};
ghost use Rattle.jdata.specs.Answers.{Answers};
ghost use Rattle.jcut.specs.Frets as meant;

use crate::cutting::Cutting;
use jarray::{Array, Room};
use jdata::{Fault, NoMemory, Sequence, Trouble};
use std::alloc::Global;

/// Whether there is a fret at each item.
pub type FretList = Sequence<bool>;

/// The frets of an array: the items that match its first or its last one.
pub fn own_frets(
    alloc: Global,
    room: &Room,
    cutting: Cutting,
    y: &Array,
) -> Result<FretList, NoMemory>
    ensures { IfOk result (λ l. l ≡ meant.own_frets cutting y.now.noun) }
{
    let firsts = jsearch::first_places(alloc, room, y)?;
    let places = firsts.as_slice();
    let marker = marker(cutting, places.len());
    equal_to(alloc, places, marker)
}

/// The place of the item that frets match.
fn marker(cutting: Cutting, count: usize) -> usize
    ensures { result ≡ meant.marker cutting count }
{
    match cutting {
        Cutting::Begin | Cutting::BeginAfter => 0,
        Cutting::End | Cutting::EndBefore => count.saturating_sub(1),
    }
}

/// Which of the numbers are equal to the one in a place.
fn equal_to(alloc: Global, numbers: &[usize], place: usize) -> Result<FretList, NoMemory>
    requires { 0 < length numbers.now → place < length numbers.now }
    ensures { IfOk result (λ l. l ≡ map (λ n. slice_index numbers.now place == n) numbers.now) }
{
    let mut frets = Vec::with_capacity(alloc, numbers.len())?;
    for number in numbers {
        frets.push(numbers[place] == *number)?;
    }
    Ok(Sequence::of(frets))
}

/// The frets that an argument gives, by zeros and ones. Its only fault is Domain.
pub fn given_frets(alloc: Global, room: &Room, x: &Array) -> Result<FretList, Trouble>
    ensures { Answers (meant.given_frets x.now.noun) result }
{
    let numbers = match x.numbers(room) {
        Some(numbers) => numbers,
        None => return Err(Trouble::Fault(Fault::Domain)),
    };
    if !are_flags(numbers) {
        return Err(Trouble::Fault(Fault::Domain));
    }
    match ones(alloc, numbers) {
        Ok(frets) => Ok(frets),
        Err(NoMemory) => Err(Trouble::NoMemory),
    }
}

fn are_flags(numbers: &[i64]) -> bool
    ensures { result ≡ list_all meant.is_flag numbers.now }
{
    numbers.iter().all(|&number| number == 0 || number == 1)
}

/// Which of the numbers are 1.
fn ones(alloc: Global, numbers: &[i64]) -> Result<FretList, NoMemory>
    ensures { IfOk result (λ l. l ≡ map meant.is_one numbers.now) }
{
    let mut frets = Vec::with_capacity(alloc, numbers.len())?;
    for number in numbers {
        frets.push(is_one(number))?;
    }
    Ok(Sequence::of(frets))
}

fn is_one(number: &i64) -> bool
    ensures { result ≡ meant.is_one number.now }
{
    *number == 1
}

/// The places of the frets, in their order.
pub fn fret_places(alloc: Global, frets: &[bool]) -> Result<Vec<u64>, NoMemory>
    ensures { IfOk result (λ v. v.items ≡ meant.fret_places frets.now) }
{
    let mut places = Vec::new(alloc);
    for (place, &fret) in frets.iter().enumerate() {
        if fret {
            places.push(place as u64)?;
        }
    }
    Ok(places)
}
