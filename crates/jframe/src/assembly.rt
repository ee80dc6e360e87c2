//! The assembly of results into one array.

ghost use Rattle.std.specs.Prelude.{◌≡◌, ◌≤◌, ◌++◌, ◌*◌, ◌⊎◌, max, true, IfOk, length, map};
ghost use Rattle.std.specs.List.{range_with_len};
ghost use Rattle.jdata.specs.Noun.{product, extent, greatest, atom_level};
ghost use Rattle.jdata.specs.Trees.{noun_of, kind_of, atoms_of};
ghost use Rattle.jdata.specs.Answers.{Answers};
ghost use Rattle.jdata.specs.Limits.{limited as in_limits, most_atoms, most_levels, IsShape};
ghost use Rattle.jframe.specs.Alike.{alike};
ghost use Rattle.jframe.specs.Assembly.{assembled, AreResults};
ghost use Rattle.jframe.specs.Assembly as whole;

use crate::common::common_axes;
use crate::joining::join;
use crate::kinds::common_kind;
use jdata::{Cell, Fault, Kind, Leaves, NoMemory, Tree, Trouble, filled, product_within};
use jshape::Shape;
use std::alloc::Global;

/// The results of the cells of a frame in one array: results of lower rank get leading axes of 1,
/// and shorter axes are filled. Where the frame has a 0, the one result is that of the cell of
/// fills, which gives the shape and the kind. The faults are Domain, for kinds that differ, and
/// then Limit.
pub fn assemble(alloc: Global, frame: &Shape, results: Vec<Tree>) -> Result<Tree, Trouble>
    requires { AreResults frame.now results.items }
    ensures { Answers (assembled frame.now results.items) result }
{
    match common_kind(results.as_slice()) {
        Some(kind) => put_together(alloc, frame, kind, results),
        None => Err(Trouble::Fault(Fault::Domain)),
    }
}

fn put_together(
    alloc: Global,
    frame: &Shape,
    kind: Kind,
    results: Vec<Tree>,
) -> Result<Tree, Trouble>
    requires count { AreResults frame.now results.items }
    requires kind { kind ≡ whole.common_kind results.items }
    requires agree { whole.kinds_agree results.items ≡ true }
    ensures { Answers (in_limits (whole.whole frame.now results.items)) result }
{
    let common = match common_axes(alloc, results.as_slice()) {
        Ok(common) => common,
        Err(NoMemory) => return Err(Trouble::NoMemory),
    };
    let axes = match whole_axes(alloc, frame.axes(), common.as_slice()) {
        Ok(axes) => axes,
        Err(NoMemory) => return Err(Trouble::NoMemory),
    };
    let Some(count) = product_within(axes.as_slice()) else {
        return Err(Trouble::Fault(Fault::Limit));
    };
    match atoms_of_all(alloc, kind, common.as_slice(), results, count) {
        Ok(atoms) => limited(axes, atoms),
        Err(NoMemory) => Err(Trouble::NoMemory),
    }
}

/// Results that are all of one shape and kind in one array, from their atoms one after the other.
pub fn assemble_alike(
    alloc: Global,
    frame: &Shape,
    axes: &[u64],
    atoms: Leaves,
    count: u64,
) -> Result<Tree, Trouble>
    requires shape { IsShape axes.now }
    requires whole { length (atoms_of atoms) ≡ count * product axes.now }
    requires levels { greatest (map atom_level (atoms_of atoms)) ≤ most_levels }
    requires count { count ≡ max (product frame.now) 1 }
    ensures { Answers (assembled frame.now (alike axes.now (kind_of atoms) (atoms_of atoms) count)) result }
{
    let whole = match whole_axes(alloc, frame.axes(), axes) {
        Ok(whole) => whole,
        Err(NoMemory) => return Err(Trouble::NoMemory),
    };
    if frame.product() > 0 {
        return limited(whole, atoms);
    }
    match filled(alloc, atoms.kind(), 0) {
        Ok(none) => limited(whole, none),
        Err(NoMemory) => Err(Trouble::NoMemory),
    }
}

fn whole_axes(alloc: Global, first: &[u64], second: &[u64]) -> Result<Vec<u64>, NoMemory>
    ensures { IfOk result (λ v. v.items ≡ first.now ++ second.now) }
{
    let mut axes = Vec::with_capacity(alloc, first.len())?;
    axes.extend_from_slice(first)?;
    axes.extend_from_slice(second)?;
    Ok(axes)
}

fn atoms_of_all(
    alloc: Global,
    kind: Kind,
    common: &[u64],
    results: Vec<Tree>,
    count: u64,
) -> Result<Leaves, NoMemory>
    requires kind { kind ≡ whole.common_kind results.items }
    requires agree { whole.kinds_agree results.items ≡ true }
    requires common { common.now ≡ whole.common_shape results.items }
    requires bound { extent common.now ≤ most_atoms }
    requires count { (count ≡ 0) ⊎ (count ≡ length results.items * product common.now) }
    ensures kind { IfOk result (λ l. kind_of l ≡ kind) }
    ensures atoms { IfOk result (λ l. atoms_of l ≡ map (whole.whole_atom results.items) (range_with_len 0 count)) }
{
    if count == 0 {
        return filled(alloc, kind, 0);
    }
    match kind {
        Kind::Int => join::<i64>(alloc, common, results, count),
        Kind::Char => join::<u8>(alloc, common, results, count),
        Kind::Boxed => join::<Cell>(alloc, common, results, count),
    }
}

/// The array of these atoms; its only fault is Limit.
pub fn limited(axes: Vec<u64>, atoms: Leaves) -> Result<Tree, Trouble>
    requires { length (atoms_of atoms) ≡ product axes.items }
    ensures { Answers (in_limits (noun_of axes.items atoms)) result }
{
    match Tree::limited(axes, atoms) {
        Ok(array) => Ok(array),
        Err(fault) => Err(Trouble::Fault(fault)),
    }
}
