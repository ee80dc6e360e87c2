//! What a verb is applied to several times.
ghost use Rattle.std.specs.Prelude.{◌≡◌, ◌<◌, IfOk};
ghost use Rattle.jdata.specs.Noun.{product};
ghost use Rattle.jplan.specs.Several as meant;

use crate::arguments::Arguments;
use crate::counted::Counted;
use jarray::Room;
use jdata::NoMemory;
use jshape::Shape;
use jterm::Datum;
use std::alloc::Global;

/// What a verb is applied to several times.
#[derive(Debug, Drop)]
pub(crate) enum Parts {
    /// The cells of its arguments.
    Cells(Arguments),
    Pieces(Counted),
}

impl Parts {
    pub(crate) fn frame(&self) -> &Shape
        ensures { result.now ≡ (meant.several_of self.now).frame }
    {
        match self {
            Parts::Cells(cells) => cells.frame(),
            Parts::Pieces(cut) => &cut.frame,
        }
    }

    pub(crate) fn into_frame(self) -> Shape
        ensures { result ≡ (meant.several_of self).frame }
    {
        match self {
            Parts::Cells(cells) => cells.into_frame(),
            Parts::Pieces(cut) => {
                let Counted { pieces: _, frame } = cut;
                frame
            }
        }
    }

    /// The arguments of an application.
    pub(crate) fn get(
        &self,
        alloc: Global,
        room: &Room,
        at: u64,
    ) -> Result<(Option<Datum>, Datum), NoMemory>
        requires { at < product (meant.several_of self.now).frame }
        ensures { IfOk result (λ p. p ≡ (meant.several_of self.now).part at) }
    {
        match self {
            Parts::Cells(cells) => cells.get(alloc, room, at),
            Parts::Pieces(cut) => {
                let piece = cut.pieces.piece(alloc, room, at as usize)?;
                Ok((None, Datum::of(piece)))
            }
        }
    }

    /// The arguments where there is no application.
    pub(crate) fn none(
        &self,
        alloc: Global,
        room: &Room,
    ) -> Result<(Option<Datum>, Datum), NoMemory>
        ensures { IfOk result (λ p. p ≡ (meant.several_of self.now).none) }
    {
        match self {
            Parts::Cells(cells) => cells.fills(alloc, room),
            Parts::Pieces(cut) => {
                let none = cut.pieces.no_items(alloc, room)?;
                Ok((None, Datum::of(none)))
            }
        }
    }
}
