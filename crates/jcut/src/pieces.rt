//! Pieces of an array, made one at a time.

ghost use Rattle.std.specs.Prelude.{◌≡◌, ◌<◌, IfOk, Some, length, map, slice_get};
ghost use Rattle.std.specs.List.{All};
ghost use Rattle.jselect.specs.Items.{item_count as items_of};
ghost use Rattle.jselect.specs.Picking.{items_at};
ghost use Rattle.jcut.specs.Parted as meant;
ghost use Rattle.jcut.specs.Picks.{Picks};
ghost use Rattle.jcut.specs.Runs.{outside as places_outside, run_places, Fits};

use crate::picking::{items_listed, items_outside, items_within};
use crate::run::Run;
use jarray::{Array, Room};
use jdata::{NoMemory, Sequence};
use std::alloc::Global;
use std::marker::Model;

/// Places of items.
pub type PlaceList = Sequence<u64>;

/// Which items each piece has.
#[derive(Debug, Drop)]
enum Parts {
    /// Those of a run.
    Within(Sequence<Run>),
    /// Those outside a run.
    Outside(Sequence<Run>),
    /// Those at these places.
    Listed(Sequence<PlaceList>),
}

/// Pieces of an array, each with some of its items. They are kept as places, and each is made when
/// it is asked for: together they can have far more atoms than the array.
#[derive(Debug, Drop)]
pub struct Pieces {
    whole: Array,
    parts: Parts,
}

impl Model for Pieces {
    ghost use Rattle.jcut.specs.Parted.{Parted};

    ghost Value = { Parted };

    ghost use Rattle.jdata.specs.contracts.noun.Noun as noun;
    ghost use Rattle.std.specs.Coded.{codes};

    ghost coded = { Prim.hlevel (codes, noun.the_row.coded) };

    ghost use Rattle.jcut.specs.Kept.{parted, IsKept};

    ghost view = { parted };

    ghost invariant = { IsKept };
}

impl Pieces {
    /// A piece for each run, with the items of the run. No memory.
    pub fn within(whole: Array, runs: Sequence<Run>) -> Pieces
        requires { All (Fits (items_of whole.noun)) runs }
        ensures { result ≡ record { whole = whole.noun; places = map run_places runs } }
    {
        Pieces {
            whole,
            parts: Parts::Within(runs),
        }
    }

    /// A piece for each run, with the items outside the run. No memory.
    pub fn outside(whole: Array, runs: Sequence<Run>) -> Pieces
        requires { All (Fits (items_of whole.noun)) runs }
        ensures { result ≡ record { whole = whole.noun; places = map (places_outside (items_of whole.noun)) runs } }
    {
        Pieces {
            whole,
            parts: Parts::Outside(runs),
        }
    }

    /// A piece for each list of places. No memory.
    pub fn listed(whole: Array, lists: Sequence<PlaceList>) -> Pieces
        requires { All (Picks (items_of whole.noun)) lists }
        ensures { result ≡ record { whole = whole.noun; places = lists } }
    {
        Pieces {
            whole,
            parts: Parts::Listed(lists),
        }
    }

    /// How many pieces there are.
    pub fn count(&self) -> usize
        ensures { result ≡ length (meant.pieces self.now) }
    {
        match &self.parts {
            Parts::Within(runs) => runs.items().len(),
            Parts::Outside(runs) => runs.items().len(),
            Parts::Listed(lists) => lists.items().len(),
        }
    }

    /// The piece with this number, counted from 0.
    pub fn piece(&self, alloc: Global, room: &Room, number: usize) -> Result<Array, NoMemory>
        requires { number < length (meant.pieces self.now) }
        ensures { IfOk result (λ a. slice_get (meant.pieces self.now) number ≡ Some a.noun) }
    {
        match &self.parts {
            Parts::Within(runs) => piece_within(alloc, room, &self.whole, runs.items(), number),
            Parts::Outside(runs) => piece_outside(alloc, room, &self.whole, runs.items(), number),
            Parts::Listed(lists) => piece_listed(alloc, room, &self.whole, lists.items(), number),
        }
    }

    /// A piece without items.
    pub fn no_items(&self, alloc: Global, room: &Room) -> Result<Array, NoMemory>
        ensures { IfOk result (λ a. a.noun ≡ meant.no_items self.now) }
    {
        let none = items_within(alloc, room, &self.whole, Run { start: 0, count: 0 })?;
        Ok(Array::of(none))
    }

    /// Spends them. No memory.
    pub fn done(self, room: &mut Room) {
        let Pieces { whole, parts: _ } = self;
        whole.done(room);
    }
}

fn nth_run(runs: &[Run], number: usize) -> Run
    requires { number < length runs.now }
    ensures { slice_get runs.now number ≡ Some result }
{
    runs[number]
}

fn nth_list(lists: &[PlaceList], number: usize) -> &PlaceList
    requires { number < length lists.now }
    ensures { slice_get lists.now number ≡ Some result.now }
{
    &lists[number]
}

fn piece_within(
    alloc: Global,
    room: &Room,
    whole: &Array,
    runs: &[Run],
    number: usize,
) -> Result<Array, NoMemory>
    requires number { number < length runs.now }
    requires within { All (Fits (items_of whole.now.noun)) runs.now }
    ensures { IfOk result (λ a. slice_get (map (λ places. items_at places whole.now.noun) (map run_places runs.now)) number ≡ Some a.noun) }
{
    let run = nth_run(runs, number);
    let piece = items_within(alloc, room, whole, run)?;
    Ok(Array::of(piece))
}

fn piece_outside(
    alloc: Global,
    room: &Room,
    whole: &Array,
    runs: &[Run],
    number: usize,
) -> Result<Array, NoMemory>
    requires number { number < length runs.now }
    requires within { All (Fits (items_of whole.now.noun)) runs.now }
    ensures { IfOk result (λ a. slice_get (map (λ places. items_at places whole.now.noun) (map (places_outside (items_of whole.now.noun)) runs.now)) number ≡ Some a.noun) }
{
    let run = nth_run(runs, number);
    let piece = items_outside(alloc, room, whole, run)?;
    Ok(Array::of(piece))
}

fn piece_listed(
    alloc: Global,
    room: &Room,
    whole: &Array,
    lists: &[PlaceList],
    number: usize,
) -> Result<Array, NoMemory>
    requires number { number < length lists.now }
    requires within { All (Picks (items_of whole.now.noun)) lists.now }
    ensures { IfOk result (λ a. slice_get (map (λ places. items_at places whole.now.noun) lists.now) number ≡ Some a.noun) }
{
    let list = nth_list(lists, number);
    let piece = items_listed(alloc, room, whole, list.items())?;
    Ok(Array::of(piece))
}
