//! Cut: the items between frets.

ghost use Rattle.std.specs.Prelude.{◌≡◌, ◌<◌, ◌≤◌, ◌+◌, ◌-◌, ◌==◌, if◌then◌else◌, ℕ, IfOk, length, map, slice_index};
ghost use Rattle.std.specs.List.{range_with_len, All};
ghost use Rattle.jdata.specs.Answers.{Answers};
ghost use Rattle.jselect.specs.Items.{item_count as items_of};
ghost use Rattle.jcut.specs.Cut as meant;
ghost use Rattle.jcut.specs.Frets as frets_of;
ghost use Rattle.jcut.specs.Runs.{run_places, Fits};

use crate::counting::item_count;
use crate::cutting::Cutting;
use crate::frets::{fret_places, given_frets, own_frets};
use crate::pieces::Pieces;
use crate::run::{Run, between};
use jarray::{Array, Room};
use jdata::{Fault, NoMemory, Sequence, Trouble};
use std::alloc::Global;

/// The intervals of `y` by these frets, one for each item.
fn cut(
    alloc: Global,
    room: &mut Room,
    cutting: Cutting,
    frets: &[bool],
    y: Array,
) -> Result<Pieces, NoMemory>
    requires { length frets.now ≡ items_of y.noun }
    ensures { IfOk result (λ p. p ≡ meant.cut cutting frets.now y.noun) }
{
    match intervals_by(alloc, cutting, frets) {
        Ok(runs) => Ok(Pieces::within(y, runs)),
        Err(NoMemory) => {
            y.done(room);
            Err(NoMemory)
        }
    }
}

/// The intervals of `y`, where the items that match its first or last one are frets.
pub fn cut_alone(
    alloc: Global,
    room: &mut Room,
    cutting: Cutting,
    y: Array,
) -> Result<Pieces, NoMemory>
    ensures { IfOk result (λ p. p ≡ meant.cut_alone cutting y.noun) }
{
    match own_frets(alloc, room, cutting, &y) {
        Ok(frets) => cut(alloc, room, cutting, frets.items(), y),
        Err(NoMemory) => {
            y.done(room);
            Err(NoMemory)
        }
    }
}

/// The intervals of `y`, where the ones of `x` are frets. Faults: Domain, Length.
pub fn cut_by(
    alloc: Global,
    room: &mut Room,
    cutting: Cutting,
    x: &Array,
    y: Array,
) -> Result<Pieces, Trouble>
    ensures { Answers (meant.cut_by cutting x.now.noun y.noun) result }
{
    let frets = match given_frets(alloc, room, x) {
        Ok(frets) => frets,
        Err(trouble) => {
            y.done(room);
            return Err(trouble);
        }
    };
    if frets.items().len() as u64 != item_count(room, &y) {
        y.done(room);
        return Err(Trouble::Fault(Fault::Length));
    }
    match cut(alloc, room, cutting, frets.items(), y) {
        Ok(pieces) => Ok(pieces),
        Err(NoMemory) => Err(Trouble::NoMemory),
    }
}

/// The intervals by these frets.
fn intervals_by(alloc: Global, cutting: Cutting, frets: &[bool]) -> Result<Sequence<Run>, NoMemory>
    ensures value { IfOk result (λ l. map run_places l ≡ meant.intervals cutting (frets_of.fret_places frets.now) (length frets.now)) }
    ensures within { IfOk result (All (Fits (length frets.now))) }
{
    let places = fret_places(alloc, frets)?;
    intervals(alloc, cutting, places.as_slice(), frets.len() as u64)
}

fn intervals(
    alloc: Global,
    cutting: Cutting,
    frets: &[u64],
    count: u64,
) -> Result<Sequence<Run>, NoMemory>
    requires { All (λ p. p < count) frets.now }
    ensures value { IfOk result (λ l. map run_places l ≡ meant.intervals cutting frets.now count) }
    ensures within { IfOk result (All (Fits count)) }
{
    let mut runs = Vec::with_capacity(alloc, frets.len())?;
    for number in 0..frets.len() {
        runs.push(interval(cutting, frets, count, number))?;
    }
    Ok(Sequence::of(runs))
}

/// The interval of one fret.
fn interval(cutting: Cutting, frets: &[u64], count: u64, number: usize) -> Run
    requires number { number < length frets.now }
    requires frets { All (λ p. p < count) frets.now }
    ensures value { run_places result ≡ meant.interval cutting frets.now count number }
    ensures within { Fits count result }
{
    let fret = frets[number];
    match cutting {
        Cutting::Begin => between(fret, next(frets, count, number)),
        Cutting::BeginAfter => between(fret + 1, next(frets, count, number)),
        Cutting::End => between(behind(frets, count, number), fret + 1),
        Cutting::EndBefore => between(behind(frets, count, number), fret),
    }
}

/// The fret behind one, or the end.
fn next(frets: &[u64], count: u64, number: usize) -> u64
    requires number { number < length frets.now }
    requires frets { All (λ p. p < count) frets.now }
    ensures value { result ≡ meant.next frets.now count number }
    ensures within { result ≤ count }
{
    match frets.get(number + 1) {
        Some(fret) => *fret,
        None => count,
    }
}

/// The place behind the fret before one, or the first place.
fn behind(frets: &[u64], count: u64, number: usize) -> u64
    requires number { number < length frets.now }
    requires frets { All (λ p. p < count) frets.now }
    ensures value { result ≡ meant.behind frets.now number }
    ensures within { result ≤ count }
{
    if number == 0 {
        0
    } else {
        frets[number - 1] + 1
    }
}
