//! Results of cells, as they come.

ghost use Rattle.std.specs.Prelude.{◌≡◌, ◌<◌, ◌≤◌, ◌*◌, ◌++◌, ◌∷◌, [], true, IfOk, OnOk, OnErr, length, map};
ghost use Rattle.jdata.specs.Answers.{Answers};
ghost use Rattle.jdata.specs.Leaf.{kind_in, atoms_in};
ghost use Rattle.jdata.specs.Limits.{most_atoms, most_levels, IsShape};
ghost use Rattle.jdata.specs.Noun.{shape, kind, int_atom, product, greatest, atom_level};
ghost use Rattle.jdata.specs.Trees.{kind_of, atoms_of};
ghost use Rattle.jdata.specs.declared.noun.Kind.TheVariants as sort;
ghost use Rattle.jdata.specs.declared.noun.Atom.TheVariants as atom;
ghost use Rattle.jframe.specs.Alike.{alike};
ghost use Rattle.jframe.specs.Assembly.{assembled, AreResults};

use crate::assembly::{assemble, assemble_alike};
use crate::parted::cell_of;
use jarray::{Array, Room};
use jdata::{Axes, IntList, Kind, Leaf, Leaves, NoMemory, Sequence, Tree, Trouble, product_of};
use jshape::Shape;
use std::alloc::Global;
use std::marker::Model;

/// Results so far, which contracts see as the list of their nouns. While shape and kind stay the
/// same, their atoms are kept one after the other, without a tree for each.
#[derive(Debug, Drop)]
pub struct Results {
    alloc: Global,
    // the first results, all of this shape and of one kind
    axes: Axes,
    atoms: Leaves,
    count: u64,
    // from the first on that is of another shape or kind
    others: Sequence<Tree>,
}

impl Model for Results {
    ghost use Rattle.std.specs.Prelude.{List};
    ghost use Rattle.jdata.specs.declared.noun.Noun.{Noun};

    ghost Value = { List Noun };

    ghost use Rattle.jdata.specs.contracts.noun.Noun as noun;
    ghost use Rattle.std.specs.Coded.{codes};

    ghost coded = { Prim.hlevel (codes, noun.the_row.coded) };

    ghost use Rattle.jframe.specs.Kept.{results_of, AreKept};

    ghost view = { results_of };

    ghost invariant = { AreKept };
}

impl Results {
    /// No results yet. No memory.
    pub fn new(alloc: Global) -> Results
        ensures { result ≡ [] }
    {
        Results {
            alloc,
            axes: Axes::of(Vec::new(alloc)),
            atoms: Leaves::Int(IntList::of(Vec::new(alloc))),
            count: 0,
            others: Sequence::of(Vec::new(alloc)),
        }
    }

    /// One more result. Without memory they stay as they were.
    pub fn push(&mut self, room: &mut Room, value: Array) -> Result<(), NoMemory>
        requires few { length self.old < most_atoms }
        ensures ok { OnOk result (self.new ≡ self.old ++ value.noun ∷ []) }
        ensures err { OnErr result (self.new ≡ self.old) }
    {
        if let Some(number) = value.integer(room) {
            value.done(room);
            return self.push_integer(number);
        }
        match value.into_tree(self.alloc, room) {
            Ok(tree) => self.push_tree(tree),
            Err(NoMemory) => Err(NoMemory),
        }
    }

    fn push_integer(&mut self, number: i64) -> Result<(), NoMemory>
        requires few { length self.old < most_atoms }
        ensures ok { OnOk result (self.new ≡ self.old ++ int_atom number ∷ []) }
        ensures err { OnErr result (self.new ≡ self.old) }
    {
        if are_integers(&self.axes, &self.atoms, &self.others) {
            push_number(&mut self.atoms, number)?;
            self.count += 1;
            return Ok(());
        }
        let tree = Tree::atom(self.alloc, number)?;
        self.push_tree(tree)
    }

    fn push_tree(&mut self, tree: Tree) -> Result<(), NoMemory>
        requires few { length self.old < most_atoms }
        ensures ok { OnOk result (self.new ≡ self.old ++ tree ∷ []) }
        ensures err { OnErr result (self.new ≡ self.old) }
    {
        if self.count == 0 && self.others.items().is_empty() {
            let _shape = tree.shape();
            let (axes, leaves) = tree.into_parts();
            self.axes = Axes::of(axes);
            self.atoms = leaves;
            self.count = 1;
            return Ok(());
        }
        if goes_with(&self.axes, &self.atoms, &self.others, &tree) {
            let _shape = tree.shape();
            let (_, leaves) = tree.into_parts();
            self.atoms.append(leaves)?;
            self.count += 1;
            return Ok(());
        }
        self.others.push(tree)
    }

    /// The results of the cells of a frame in one array, as `assemble` answers.
    pub fn finish(self, frame: &Shape) -> Result<Tree, Trouble>
        requires { AreResults frame.now self }
        ensures { Answers (assembled frame.now self) result }
    {
        let Results {
            alloc,
            axes,
            atoms,
            count,
            others,
        } = self;
        if others.items().is_empty() {
            return assemble_alike(alloc, frame, axes.items(), atoms, count);
        }
        // a frame has no more cells than the limit says
        let _axes = frame.axes();
        match all_trees(alloc, &axes, &atoms, count, others) {
            Ok(results) => assemble(alloc, frame, results),
            Err(NoMemory) => Err(Trouble::NoMemory),
        }
    }
}

/// Whether the results are all integers that stand alone.
fn are_integers(axes: &Axes, atoms: &Leaves, others: &Sequence<Tree>) -> bool
    ensures { result ≡ true → (axes.now ≡ []) × (kind_of atoms.now ≡ sort.Int) × (others.now ≡ []) }
{
    axes.items().is_empty() && atoms.kind() == Kind::Int && others.items().is_empty()
}

/// Whether all results are of the shape and the kind of the tree.
fn goes_with(axes: &Axes, atoms: &Leaves, others: &Sequence<Tree>, tree: &Tree) -> bool
    ensures { result ≡ true → (axes.now ≡ shape tree.now) × (kind_of atoms.now ≡ kind tree.now) × (others.now ≡ []) }
{
    others.items().is_empty() && atoms.kind() == tree.kind() && axes.items() == tree.shape()
}

fn push_number(atoms: &mut Leaves, number: i64) -> Result<(), NoMemory>
    requires { kind_of atoms.old ≡ sort.Int }
    ensures kind { kind_of atoms.new ≡ sort.Int }
    ensures ok { OnOk result (atoms_of atoms.new ≡ atoms_of atoms.old ++ atom.Int number ∷ []) }
    ensures err { OnErr result (atoms_of atoms.new ≡ atoms_of atoms.old) }
{
    match atoms {
        Leaves::Int(numbers) => numbers.push(number),
        Leaves::Char(_) => unreachable!(),
        Leaves::Cell(_) => unreachable!(),
    }
}

/// Each result as a tree.
fn all_trees(
    alloc: Global,
    axes: &Axes,
    atoms: &Leaves,
    count: u64,
    others: Sequence<Tree>,
) -> Result<Vec<Tree>, NoMemory>
    requires shape { IsShape axes.now }
    requires whole { length (atoms_of atoms.now) ≡ count * product axes.now }
    requires levels { greatest (map atom_level (atoms_of atoms.now)) ≤ most_levels }
    requires few { count ≤ most_atoms }
    ensures { IfOk result (λ v. v.items ≡ alike axes.now (kind_of atoms.now) (atoms_of atoms.now) count ++ others) }
{
    let mut trees = alike_trees(alloc, axes.items(), atoms.leaf(), count)?;
    trees.append(&mut others.into_items())?;
    Ok(trees)
}

fn alike_trees(
    alloc: Global,
    axes: &[u64],
    atoms: Leaf<'_>,
    count: u64,
) -> Result<Vec<Tree>, NoMemory>
    requires shape { IsShape axes.now }
    requires whole { length (atoms_in atoms) ≡ count * product axes.now }
    requires levels { greatest (map atom_level (atoms_in atoms)) ≤ most_levels }
    requires few { count ≤ most_atoms }
    ensures { IfOk result (λ v. v.items ≡ alike axes.now (kind_in atoms.entry) (atoms_in atoms.entry) count) }
{
    let size = product_of(axes);
    let mut trees = Vec::new(alloc);
    for at in 0..count {
        trees.push(cell_of(alloc, axes, atoms, at * size, size)?)?;
    }
    Ok(trees)
}
