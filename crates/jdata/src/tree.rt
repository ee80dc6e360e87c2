ghost use Rattle.std.specs.Prelude.{◌≡◌, ◌≢◌, ◌≤◌, ◌++◌, IfOk, OnOk, OnErr, IfSome, IfNone, length, map, ℤ};
ghost use Rattle.jdata.specs.Noun.{shape, kind, atoms, level, product, int_atom};

use crate::fault::{Fault, NoMemory};
use crate::leaf::Leaf;
use crate::measure::{MAX_LEVEL, MAX_RANK, greatest_level, product_within};
use crate::noun::Kind;
use crate::path::PyxId;
use crate::sequence::{Axes, Bytes, IntList, Sequence};
use std::alloc::Global;
use std::marker::Model;

mod copies;
mod matches;
mod pyxes;

/// An atom of a boxed array.
#[cycle(tree)]
#[derive(Debug, Drop)]
pub enum Cell {
    Boxed(Tree),
    Pyx(PyxId),
}

/// The atoms of a boxed array.
pub type CellList = Sequence<Cell>;

/// The atoms of an array in ravel order.
#[cycle(tree)]
#[derive(Debug, Drop)]
pub enum Leaves {
    Int(IntList),
    Char(Bytes),
    Cell(CellList),
}

/// An array, within the limits of the language: at most 63 axes, a product of at most 134,217,728
/// of the axes that aren't 0, and at most 64 levels of boxes.
#[cycle(tree)]
#[derive(Debug, Drop)]
pub struct Tree {
    axes: Axes,
    leaves: Leaves,
    // how deep boxes are nested in it
    depth: u8,
}

/// Why a shape and atoms aren't an array.
#[derive(Clone, Copy, Debug, PartialEq, Eq)]
pub enum BadTree {
    /// It would be beyond the limits of the language.
    Limit,
    /// An array of the shape has `product` atoms, and `items` were given.
    Length { product: u64, items: u64 },
}

impl Model for Tree {
    ghost use Rattle.jdata.specs.declared.noun.Noun.{Noun};

    ghost Value = { Noun };

    ghost use Rattle.jdata.specs.contracts.noun.Noun as noun;
    ghost use Rattle.std.specs.Coded.{codes};

    ghost coded = { Prim.hlevel (codes, noun.the_row.coded) };

    ghost use Rattle.jdata.specs.Trees.{value_of, IsKept};

    ghost view = { value_of };

    ghost invariant = { IsKept };

    ghost use Rattle.jdata.specs.declared.noun.Noun.{size-Noun};

    ghost size = { size-Noun };

    ghost use Rattle.jdata.specs.Falls.{falls};

    ghost size_decreases = { λ a h. falls a };
}

impl Tree {
    ghost use Rattle.jdata.specs.Trees.{noun_of, kind_of, atoms_of};
    ghost use Rattle.jdata.specs.Leaf.{kind_in, atoms_in};
    ghost use Rattle.jdata.specs.Limits.{checked, limited, most_levels, IsArray};

    /// The array of this shape with these atoms.
    pub fn new(shape: Vec<u64>, items: Leaves) -> Result<Tree, BadTree>
        ensures { result ≡ checked (noun_of shape.items items) }
    {
        let depth = items.level();
        if depth > MAX_LEVEL {
            return Err(BadTree::Limit);
        }
        if shape.len() > MAX_RANK {
            return Err(BadTree::Limit);
        }
        let Some(product) = product_within(shape.as_slice()) else {
            return Err(BadTree::Limit);
        };
        let count = items.len();
        if count != product {
            return Err(BadTree::Length {
                product,
                items: count,
            });
        }
        Ok(Tree {
            axes: Axes::of(shape),
            leaves: items,
            depth,
        })
    }

    /// The array of this shape with as many atoms as it wants. Its only fault is Limit.
    pub fn limited(shape: Vec<u64>, items: Leaves) -> Result<Tree, Fault>
        requires { length (atoms_of items) ≡ product shape.items }
        ensures { result ≡ limited (noun_of shape.items items) }
    {
        match Tree::new(shape, items) {
            Ok(tree) => Ok(tree),
            Err(BadTree::Limit) => Err(Fault::Limit),
            Err(BadTree::Length { .. }) => unreachable!(),
        }
    }

    /// An integer that stands alone.
    pub fn atom(alloc: Global, number: i64) -> Result<Tree, NoMemory>
        ensures { IfOk result (λ t. t ≡ int_atom number) }
    {
        let numbers = Vec::from_slice(alloc, &[number])?;
        Ok(Tree {
            axes: Axes::of(Vec::new(alloc)),
            leaves: Leaves::Int(IntList::of(numbers)),
            depth: 0,
        })
    }

    /// The lengths along the axes, the first axis first.
    pub fn shape(&self) -> &[u64]
        ensures value { result.now ≡ shape self.now }
        ensures array { IsArray self.now }
    {
        self.axes.items()
    }

    pub fn items(&self) -> &Leaves
        ensures kind { kind_of result.now ≡ kind self.now }
        ensures atoms { atoms_of result.now ≡ atoms self.now }
    {
        &self.leaves
    }

    /// The atoms in ravel order, where they lie.
    pub fn leaf(&self) -> Leaf<'_>
        ensures kind { kind_in result ≡ kind self.now }
        ensures atoms { atoms_in result ≡ atoms self.now }
    {
        self.leaves.leaf()
    }

    pub fn kind(&self) -> Kind
        ensures { result ≡ kind self.now }
    {
        self.leaves.kind()
    }

    /// The shape and the atoms, in the same buffers.
    pub fn into_parts(self) -> (Vec<u64>, Leaves)
        ensures { noun_of result.0.items result.1 ≡ self }
    {
        let Tree {
            axes,
            leaves,
            depth: _,
        } = self;
        (axes.into_items(), leaves)
    }

    /// How deep boxes are nested in it: 0 where it has no boxes.
    pub fn level(&self) -> u8
        ensures value { result ≡ level self.now }
        ensures at_most { result ≤ most_levels }
    {
        self.depth
    }

    /// The number, where it is an integer that stands alone.
    pub fn integer(&self) -> Option<i64>
        ensures some { IfSome result (λ n. self.now ≡ int_atom n) }
        ensures none { IfNone result ((n : ℤ) → self.now ≢ int_atom n) }
    {
        match (self.axes.items(), &self.leaves) {
            ([], Leaves::Int(numbers)) => numbers.items().first().copied(),
            _ => None,
        }
    }
}

impl Leaves {
    ghost use Rattle.jdata.specs.Leaf.{kind_in, atoms_in};
    ghost use Rattle.jdata.specs.Noun.{greatest, atom_level};
    ghost use Rattle.jdata.specs.Trees.{kind_of, atoms_of};

    /// The atoms, where they lie.
    pub fn leaf(&self) -> Leaf<'_>
        ensures kind { kind_in result ≡ kind_of self.now }
        ensures atoms { atoms_in result ≡ atoms_of self.now }
    {
        match self {
            Leaves::Int(numbers) => Leaf::Int(numbers.items()),
            Leaves::Char(bytes) => Leaf::Char(bytes.items()),
            Leaves::Cell(cells) => Leaf::Cell(cells.items()),
        }
    }

    pub fn kind(&self) -> Kind
        ensures { result ≡ kind_of self.now }
    {
        match self {
            Leaves::Int(_) => Kind::Int,
            Leaves::Char(_) => Kind::Char,
            Leaves::Cell(_) => Kind::Boxed,
        }
    }

    /// How many atoms they are.
    pub fn len(&self) -> u64
        ensures { result ≡ length (atoms_of self.now) }
    {
        match self {
            Leaves::Int(numbers) => numbers.items().len() as u64,
            Leaves::Char(bytes) => bytes.items().len() as u64,
            Leaves::Cell(cells) => cells.items().len() as u64,
        }
    }

    /// Other atoms of the same kind, at the end. Without memory they stay as they were.
    pub fn append(&mut self, other: Leaves) -> Result<(), NoMemory>
        requires { kind_of other ≡ kind_of self.old }
        ensures kind { kind_of self.new ≡ kind_of self.old }
        ensures ok { OnOk result (atoms_of self.new ≡ atoms_of self.old ++ atoms_of other) }
        ensures err { OnErr result (atoms_of self.new ≡ atoms_of self.old) }
    {
        match (self, other) {
            (Leaves::Int(numbers), Leaves::Int(more)) => numbers.append(more),
            (Leaves::Char(bytes), Leaves::Char(more)) => bytes.append(more),
            (Leaves::Cell(cells), Leaves::Cell(more)) => cells.append(more),
            _ => unreachable!(),
        }
    }

    // at most one level above the deepest content
    fn level(&self) -> u8
        ensures { result ≡ greatest (map atom_level (atoms_of self.now)) }
    {
        match self {
            Leaves::Int(_) => 0,
            Leaves::Char(_) => 0,
            Leaves::Cell(cells) => greatest_level(cells.items()),
        }
    }
}

impl Cell {
    ghost use Rattle.jdata.specs.Trees.{atom_of};
    ghost use Rattle.jdata.specs.Noun.{atom_level};

    pub(crate) fn level(&self) -> u8
        ensures value { result ≡ atom_level (atom_of self.now) }
        ensures at_most { result ≤ 65 }
    {
        match self {
            Cell::Boxed(content) => content.level() + 1,
            Cell::Pyx(_) => 1,
        }
    }
}
