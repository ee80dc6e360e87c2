//! Shapes.

ghost use Rattle.std.specs.Prelude.{◌≡◌, ◌↔◌, ◌⊎◌, ◌<◌, ◌≤◌, length, Err, IfOk, IfErr, IsOk};
ghost use Rattle.jdata.specs.Noun.{product, extent};

use crate::rank::frame_length;
use jdata::{Fault, MAX_RANK, NoMemory, Trouble, product_of, product_within};
use smallvec::SmallVec;
use std::alloc::Global;
use std::marker::Model;

/// The lengths of an array along its axes, the first axis first. Up to four axes take no memory.
#[derive(Debug, Drop)]
pub struct Shape {
    axes: SmallVec<u64, 4>,
}

impl Model for Shape {
    ghost use Rattle.std.specs.Prelude.{List, ℕ};
    ghost use Rattle.jdata.specs.Limits.{IsShape};

    ghost Value = { List ℕ };

    ghost view = { λ s. s.axes.items };

    ghost invariant = { λ s. IsShape s.axes.items };
}

impl Shape {
    ghost use Rattle.jdata.specs.declared.fault.Trouble.TheVariants as trouble;
    ghost use Rattle.jdata.specs.declared.fault.Fault.TheVariants as cause;
    ghost use Rattle.jdata.specs.Limits.{IsShape, most_axes, most_atoms};
    ghost use Rattle.jshape.specs.Frames.{frame_of, cell_of};

    /// The shape of these axes. Its only fault is Limit: more than 63 axes, or a product of the
    /// axes that aren't 0 above 2^27.
    pub fn new(alloc: Global, axes: &[u64]) -> Result<Shape, Trouble>
        ensures ok { IfOk result (λ shape. shape ≡ axes.now) }
        ensures limit { (result ≡ Err (trouble.Fault cause.Limit)) ↔ ((most_axes < length axes.now) ⊎ (most_atoms < extent axes.now)) }
        ensures only { IfErr result (λ why. (why ≡ trouble.Fault cause.Limit) ⊎ (why ≡ trouble.NoMemory)) }
        ensures inline { length axes.now ≤ 4 → IsShape axes.now → IsOk result }
    {
        if axes.len() > MAX_RANK || product_within(axes).is_none() {
            return Err(Trouble::Fault(Fault::Limit));
        }
        match Shape::of(alloc, axes) {
            Ok(shape) => Ok(shape),
            Err(NoMemory) => Err(Trouble::NoMemory),
        }
    }

    /// The shape of axes that are within the limits.
    pub(crate) fn of(alloc: Global, axes: &[u64]) -> Result<Shape, NoMemory>
        requires { IsShape axes.now }
        ensures ok { IfOk result (λ shape. shape ≡ axes.now) }
        ensures inline { length axes.now ≤ 4 → IsOk result }
    {
        match SmallVec::from_slice(alloc, axes) {
            Ok(axes) => Ok(Shape { axes }),
            Err(_) => Err(NoMemory),
        }
    }

    /// How many atoms an array of this shape has.
    pub fn product(&self) -> u64
        ensures { result ≡ product self.now }
    {
        product_of(self.axes())
    }

    pub fn axes(&self) -> &[u64]
        ensures axes { result.now ≡ self.now }
        ensures shape { IsShape result.now }
    {
        self.axes.as_slice()
    }

    /// The frame of the cells of a rank: a negative rank counts axes of the frame, and without a
    /// rank the whole array is one cell.
    pub fn frame(&self, alloc: Global, rank: Option<i64>) -> Result<Shape, NoMemory>
        ensures ok { IfOk result (λ frame. frame ≡ frame_of rank self.now) }
        ensures inline { length self.now ≤ 4 → IsOk result }
    {
        let axes = self.axes();
        Shape::of(alloc, &axes[..frame_length(rank, axes.len())])
    }

    /// The shape of the cells of a rank.
    pub fn cell(&self, alloc: Global, rank: Option<i64>) -> Result<Shape, NoMemory>
        ensures ok { IfOk result (λ cell. cell ≡ cell_of rank self.now) }
        ensures inline { length self.now ≤ 4 → IsOk result }
    {
        let axes = self.axes();
        Shape::of(alloc, &axes[frame_length(rank, axes.len())..])
    }
}
