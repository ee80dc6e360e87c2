//! The arguments of a verb, in cells of its ranks.
ghost use Rattle.std.specs.Prelude.{◌≡◌, ◌≢◌, ◌++◌, ◌<◌, ◌/◌, ℕ, List, Option, None, Some, Err, IfOk, IfErr};
ghost use Rattle.jdata.specs.Answers.{Answers};
ghost use Rattle.jdata.specs.Noun.{shape, product};
ghost use Rattle.jframe.specs.Cells.{nth_cell, parted, filled_cell};
ghost use Rattle.jshape.specs.Agreement.{agreed, repeated};
ghost use Rattle.jshape.specs.Frames.{IsPrefix, frame_of};
ghost use Rattle.jplan.specs.Arguments as arguments;

use jarray::{Array, Room};
use jdata::{NoMemory, Trouble};
use jframe::{Cells, cells, fill_cell, repeats};
use jshape::{Shape, agree};
use jterm::Datum;
use std::alloc::Global;

/// An argument, and the cells that it is parted into.
#[derive(Debug, Drop)]
struct Argument {
    value: Datum,
    cells: Cells,
    // how many cells of the frame of all arguments use the same cell
    repeats: u64,
}

/// The arguments of a verb in cells of its ranks.
#[derive(Debug, Drop)]
pub struct Arguments {
    left: Option<i64>,
    right: Option<i64>,
    frame: Shape,
    x: Option<Argument>,
    y: Argument,
    ghost parted: { arguments.AreParted left right frame x y },
}

impl Argument {
    // An argument that has a frame of its own.
    fn alone(value: Datum, cells: Cells) -> Argument
        requires { shape value ≡ cells.frame ++ cells.cell }
        ensures value { result.value ≡ value }
        ensures cells { result.cells ≡ cells }
        ensures repeats { result.repeats ≡ repeated cells.frame cells.frame }
    {
        Argument {
            value,
            cells,
            repeats: 1,
        }
    }

    // An argument whose frame begins another.
    fn within(value: Datum, cells: Cells, whole: &Shape) -> Argument
        requires { IsPrefix cells.frame whole.now }
        ensures value { result.value ≡ value }
        ensures cells { result.cells ≡ cells }
        ensures repeats { result.repeats ≡ repeated cells.frame whole.now }
    {
        let repeats = repeats(cells.frame(), whole);
        Argument {
            value,
            cells,
            repeats,
        }
    }

    // The cell that goes with a cell of the frame of all arguments.
    fn cell(&self, alloc: Global, room: &Room, at: u64) -> Result<Datum, NoMemory>
        requires parted { shape self.now.value ≡ self.now.cells.frame ++ self.now.cells.cell }
        requires some { self.now.repeats ≢ 0 }
        requires within { at / self.now.repeats < product self.now.cells.frame }
        ensures { IfOk result (λ d. d ≡ nth_cell self.now.cells.cell self.now.value (at / self.now.repeats)) }
    {
        let cell = self
            .cells
            .get(alloc, room, self.value.array(), at / self.repeats)?;
        Ok(Datum::of(cell))
    }
}

// The cell of fills of an argument.
fn fills(alloc: Global, room: &Room, value: &Datum, rank: Option<i64>) -> Result<Datum, NoMemory>
    ensures { IfOk result (λ d. d ≡ filled_cell rank value.now) }
{
    let cell = fill_cell(alloc, room, value.array(), rank)?;
    Ok(Datum::of(Array::of(cell)))
}

// Another shape like it.
fn another(alloc: Global, shape: &Shape) -> Result<Shape, NoMemory>
    ensures { IfOk result (λ s. s ≡ shape.now) }
{
    match Shape::new(alloc, shape.axes()) {
        Ok(shape) => Ok(shape),
        Err(Trouble::NoMemory) => Err(NoMemory),
        Err(Trouble::Fault(_)) => unreachable!(),
    }
}

// One argument, at the rank of the monad; that of a left one counts for nothing.
fn one(
    alloc: Global,
    room: &Room,
    left: Option<i64>,
    right: Option<i64>,
    y: Datum,
) -> Result<Arguments, NoMemory>
    ensures { IfOk result (λ a. (a.left ≡ left) × (a.right ≡ right) × (arguments.x_in a.x ≡ None) × (a.y.value ≡ y)) }
{
    let cells = cells(alloc, room, y.array(), right)?;
    let frame = another(alloc, cells.frame())?;
    Ok(Arguments {
        left,
        right,
        frame,
        x: None,
        y: Argument::alone(y, cells),
    })
}

// Two arguments, at the ranks of the dyad.
fn two(
    alloc: Global,
    room: &Room,
    left: Option<i64>,
    right: Option<i64>,
    x: Datum,
    y: Datum,
) -> Result<Arguments, Trouble>
    ensures ok { IfOk result (λ a. (a.left ≡ left) × (a.right ≡ right) × (arguments.x_in a.x ≡ Some x) × (a.y.value ≡ y)) }
    ensures err { IfErr result (λ why. Answers {Value = List ℕ} (arguments.frame left right (Some x) y) (Err why)) }
{
    let Ok(of_x) = cells(alloc, room, x.array(), left) else {
        return Err(Trouble::NoMemory);
    };
    let Ok(of_y) = cells(alloc, room, y.array(), right) else {
        return Err(Trouble::NoMemory);
    };
    let frame = agree(alloc, of_x.frame(), of_y.frame())?;
    let x = Argument::within(x, of_x, &frame);
    let y = Argument::within(y, of_y, &frame);
    Ok(Arguments {
        left,
        right,
        frame,
        x: Some(x),
        y,
    })
}

impl Arguments {
    /// Arguments in cells of these ranks; without a left one, the right rank is the monad's. None is no limit. Frames
    /// that don't agree have the fault Length.
    pub fn of(
        alloc: Global,
        room: &Room,
        left: Option<i64>,
        right: Option<i64>,
        x: Option<Datum>,
        y: Datum,
    ) -> Result<Arguments, Trouble>
        ensures ok { IfOk result (λ a. (a.left ≡ left) × (a.right ≡ right) × (arguments.x_in a.x ≡ x) × (a.y.value ≡ y)) }
        ensures err { IfErr result (λ why. Answers {Value = List ℕ} (arguments.frame left right x y) (Err why)) }
    {
        match x {
            Some(x) => two(alloc, room, left, right, x, y),
            None => match one(alloc, room, left, right, y) {
                Ok(arguments) => Ok(arguments),
                Err(NoMemory) => Err(Trouble::NoMemory),
            },
        }
    }

    /// The axes along which the cells stand.
    pub fn frame(&self) -> &Shape
        ensures { result.now ≡ self.now.frame }
    {
        &self.frame
    }

    /// The axes along which the cells stand, of arguments that are done with.
    pub(crate) fn into_frame(self) -> Shape
        ensures { result ≡ self.frame }
    {
        let Arguments {
            left: _,
            right: _,
            frame,
            x: _,
            y: _,
        } = self;
        frame
    }

    /// The arguments of cell `at`, in ravel order.
    pub fn get(
        &self,
        alloc: Global,
        room: &Room,
        at: u64,
    ) -> Result<(Option<Datum>, Datum), NoMemory>
        requires { at < product self.now.frame }
        ensures x { IfOk result (λ p. p.0 ≡ arguments.x_of_cell self.now.left (arguments.x_in self.now.x) self.now.frame at) }
        ensures y { IfOk result (λ p. p.1 ≡ arguments.y_of_cell self.now.right self.now.y.value self.now.frame at) }
    {
        let y = self.y.cell(alloc, room, at)?;
        match &self.x {
            Some(x) => {
                let x = x.cell(alloc, room, at)?;
                Ok((Some(x), y))
            }
            None => Ok((None, y)),
        }
    }

    /// Arguments of fills, of the shapes of the cells and of the kinds of the arguments.
    pub fn fills(&self, alloc: Global, room: &Room) -> Result<(Option<Datum>, Datum), NoMemory>
        ensures x { IfOk result (λ p. p.0 ≡ arguments.x_of_fills self.now.left (arguments.x_in self.now.x)) }
        ensures y { IfOk result (λ p. p.1 ≡ arguments.y_of_fills self.now.right self.now.y.value) }
    {
        let y = fills(alloc, room, &self.y.value, self.right)?;
        match &self.x {
            Some(x) => {
                let x = fills(alloc, room, &x.value, self.left)?;
                Ok((Some(x), y))
            }
            None => Ok((None, y)),
        }
    }
}
