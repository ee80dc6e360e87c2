//! The atoms of an array along changed axes.

ghost use Rattle.std.specs.Prelude.{◌≡◌, ◌≤◌, ◌++◌, IfOk, OnOk, length, map, slice_index};
ghost use Rattle.jdata.specs.Fills.{fill_of};
ghost use Rattle.jdata.specs.Leaf.{kind_in, atoms_in};
ghost use Rattle.jdata.specs.Limits.{most_atoms};
ghost use Rattle.jdata.specs.Noun.{product, extent};
ghost use Rattle.jdata.specs.Trees.{kind_of, atoms_of};
ghost use Rattle.jstruct.specs.Layouts.{Lies, AllLie, laid_axes, laid as laid_anew, stretch_laid};

use crate::change::{Layout, Stretch};
use jdata::{Item, Leaf, Leaves, NoMemory, product_of, push_fills};
use std::alloc::Global;

/// The atoms of an array in these axes along axes that are laid anew, which then are `whole`.
pub fn laid(
    alloc: Global,
    layouts: &[Layout],
    axes: &[u64],
    whole: &[u64],
    atoms: Leaf<'_>,
) -> Result<Leaves, NoMemory>
    requires lies { AllLie layouts.now axes.now }
    requires whole { whole.now ≡ laid_axes layouts.now axes.now }
    requires old { extent axes.now ≤ most_atoms }
    requires new { extent whole.now ≤ most_atoms }
    requires enough { product axes.now ≤ length (atoms_in atoms) }
    ensures kind { IfOk result (λ l. kind_of l ≡ kind_in atoms.entry) }
    ensures atoms { IfOk result (λ l. atoms_of l ≡ laid_anew (fill_of (kind_in atoms.entry)) layouts.now axes.now (atoms_in atoms.entry)) }
{
    match atoms {
        Leaf::Int(numbers) => laid_items(alloc, layouts, axes, whole, numbers),
        Leaf::Char(bytes) => laid_items(alloc, layouts, axes, whole, bytes),
        Leaf::Cell(cells) => laid_items(alloc, layouts, axes, whole, cells),
    }
}

fn laid_items<T: Item>(
    alloc: Global,
    layouts: &[Layout],
    axes: &[u64],
    whole: &[u64],
    items: &[T],
) -> Result<Leaves, NoMemory>
    requires lies { AllLie layouts.now axes.now }
    requires whole { whole.now ≡ laid_axes layouts.now axes.now }
    requires old { extent axes.now ≤ most_atoms }
    requires new { extent whole.now ≤ most_atoms }
    requires enough { product axes.now ≤ length items.now }
    ensures kind { IfOk result (λ l. kind_of l ≡ T.kind) }
    ensures atoms { IfOk result (λ l. atoms_of l ≡ laid_anew (fill_of T.kind) layouts.now axes.now (map T.atom items.now)) }
{
    let mut into = Vec::with_capacity(alloc, product_of(whole) as usize)?;
    lay(alloc, layouts, axes, whole, items, &mut into)?;
    Ok(T::leaves_of(into))
}

/// The items of an array in these axes, laid anew, at the end of others.
#[cycle(laying)]
fn lay<T: Item>(
    alloc: Global,
    layouts: &[Layout],
    axes: &[u64],
    whole: &[u64],
    items: &[T],
    into: &mut Vec<T>,
) -> Result<(), NoMemory>
    requires lies { AllLie layouts.now axes.now }
    requires whole { whole.now ≡ laid_axes layouts.now axes.now }
    requires old { extent axes.now ≤ most_atoms }
    requires new { extent whole.now ≤ most_atoms }
    requires enough { product axes.now ≤ length items.now }
    ensures { OnOk result (into.new.items ≡ into.old.items ++ laid_anew T.blank layouts.now axes.now items.now) }
{
    if layouts.is_empty() {
        return T::push_copies(alloc, &items[..product_of(axes) as usize], into);
    }
    let first = layouts[0].first;
    let second = layouts[0].second;
    match lay_stretch(alloc, first, layouts, axes, whole, items, into) {
        Ok(()) => lay_stretch(alloc, second, layouts, axes, whole, items, into),
        Err(NoMemory) => Err(NoMemory),
    }
}

/// One stretch of the first axis, the axes behind it laid anew.
#[cycle(laying)]
fn lay_stretch<T: Item>(
    alloc: Global,
    stretch: Stretch,
    layouts: &[Layout],
    axes: &[u64],
    whole: &[u64],
    items: &[T],
    into: &mut Vec<T>,
) -> Result<(), NoMemory>
    requires some { 1 ≤ length layouts.now }
    requires on_axis { Lies stretch (slice_index axes.now 0) }
    requires lies { AllLie layouts.now axes.now }
    requires whole { whole.now ≡ laid_axes layouts.now axes.now }
    requires old { extent axes.now ≤ most_atoms }
    requires new { extent whole.now ≤ most_atoms }
    requires fits { stretch.count ≤ slice_index whole.now 0 }
    requires enough { product axes.now ≤ length items.now }
    ensures { OnOk result (into.new.items ≡ into.old.items ++ stretch_laid T.blank stretch layouts.now axes.now items.now) }
{
    let inner = &axes[1..];
    if stretch.start >= axes[0] {
        return push_fills(alloc, into, stretch.count * product_of(&whole[1..]));
    }
    let size = product_of(inner);
    if layouts.len() == 1 {
        let start = (stretch.start * size) as usize;
        let end = ((stretch.start + stretch.count) * size) as usize;
        return T::push_copies(alloc, &items[start..end], into);
    }
    for i in stretch.start..stretch.start + stretch.count {
        let rest = &items[(i * size) as usize..];
        match lay(alloc, &layouts[1..], inner, &whole[1..], rest, into) {
            Ok(()) => {}
            Err(NoMemory) => return Err(NoMemory),
        }
    }
    Ok(())
}
