//! Arrays.

ghost use Rattle.std.specs.Prelude.{◌≡◌, ◌↔◌, ◌≢◌, ◌<◌, [], IfOk, IsOk, IfSome, IfNone, IsTrue, None, false, true, ℤ, length, map};
ghost use Rattle.jdata.specs.Leaf.{kind_in, atoms_in};
ghost use Rattle.jdata.specs.Limits.{IsArray};
ghost use Rattle.jdata.specs.Match.{IsMatch};
ghost use Rattle.jdata.specs.Noun.{shape, kind, atoms, int_atom};
ghost use Rattle.jdata.specs.declared.noun.Atom.TheVariants as atom;
ghost use Rattle.jarray.specs.Numbers.{is_integers};
ghost use Rattle.jarray.specs.Placed.{own};

use crate::room::{Room, Spot};
use jdata::{Kind, Leaf, NoMemory, Tree};
use std::alloc::Global;
use std::marker::Model;
use std::slice;

/// How an array is kept.
#[derive(Debug, Drop)]
enum Form {
    /// An integer that stands alone.
    Atom(i64),
    /// An array in memory of its own.
    Own(Tree),
}

/// An array, which contracts see as its noun and the block that it stands in.
#[derive(Debug, Drop)]
pub struct Array {
    form: Form,
}

impl Model for Array {
    ghost use Rattle.jarray.specs.Placed.{Placed};

    ghost Value = { Placed };

    ghost use Rattle.jdata.specs.contracts.noun.Noun as noun;
    ghost use Rattle.std.specs.Coded.{codes};

    ghost coded = { Prim.hlevel (codes, noun.the_row.coded) };

    ghost use Rattle.jarray.specs.Arrays.{seen};

    ghost view = { λ a. seen a.form };
}

impl Array {
    /// An integer that stands alone. No memory.
    pub fn atom(number: i64) -> Array
        ensures { result ≡ own (int_atom number) }
    {
        Array {
            form: Form::Atom(number),
        }
    }

    /// This tree as an array. No memory.
    pub fn of(tree: Tree) -> Array
        ensures { result ≡ own tree }
    {
        Array {
            form: Form::Own(tree),
        }
    }

    pub fn kind(&self, _room: &Room) -> Kind
        ensures { result ≡ kind self.now.noun }
    {
        match &self.form {
            Form::Atom(_) => Kind::Int,
            Form::Own(tree) => tree.kind(),
        }
    }

    /// The lengths along the axes, the first axis first.
    pub fn shape<'a>(&'a self, _room: &Room) -> &'a [u64]
        ensures value { result.now ≡ shape self.now.noun }
        ensures array { IsArray self.now.noun }
    {
        match &self.form {
            Form::Atom(_) => &[],
            Form::Own(tree) => tree.shape(),
        }
    }

    /// The atoms in ravel order, where they lie.
    pub fn leaf<'a>(&'a self, _room: &Room) -> Leaf<'a>
        ensures kind { kind_in result ≡ kind self.now.noun }
        ensures atoms { atoms_in result ≡ atoms self.now.noun }
    {
        match &self.form {
            Form::Atom(number) => Leaf::Int(slice::from_ref(number)),
            Form::Own(tree) => tree.leaf(),
        }
    }

    /// The integers in ravel order, where they lie, if it counts as an array of integers: one
    /// without atoms does.
    pub fn numbers<'a>(&'a self, room: &Room) -> Option<&'a [i64]>
        ensures some { IfSome result (λ l. map atom.Int l.now ≡ atoms self.now.noun) }
        ensures integers { IfSome result (λ l. is_integers self.now.noun ≡ true) }
        ensures none { IfNone result (is_integers self.now.noun ≡ false) }
    {
        let leaf = self.leaf(room);
        match leaf {
            Leaf::Int(numbers) => Some(numbers),
            _ => no_numbers(leaf.len()),
        }
    }

    /// The number, where it is an integer that stands alone.
    pub fn integer(&self, _room: &Room) -> Option<i64>
        ensures some { IfSome result (λ n. self.now.noun ≡ int_atom n) }
        ensures none { IfNone result ((n : ℤ) → self.now.noun ≢ int_atom n) }
    {
        match &self.form {
            Form::Atom(number) => Some(*number),
            Form::Own(tree) => tree.integer(),
        }
    }

    /// A tree equal to it, in memory of its own.
    pub fn tree(&self, alloc: Global, _room: &Room) -> Result<Tree, NoMemory>
        ensures { IfOk result (λ t. t ≡ self.now.noun) }
    {
        match &self.form {
            Form::Atom(number) => Tree::atom(alloc, *number),
            Form::Own(tree) => tree.copy(alloc),
        }
    }

    /// The tree that it is: an array in memory of its own is given as it is, with no copy. No memory
    /// for such an array, unless it is an integer that stands alone.
    pub fn into_tree(self, alloc: Global, _room: &mut Room) -> Result<Tree, NoMemory>
        ensures value { IfOk result (λ t. t ≡ self.noun) }
        ensures own { self.block ≡ None → ((n : ℤ) → self.noun ≢ int_atom n) → IsOk result }
    {
        let Array { form } = self;
        match form {
            Form::Atom(number) => Tree::atom(alloc, number),
            Form::Own(tree) => Ok(tree),
        }
    }

    /// The tree that it is, to be written in, and the place where the tree then goes back: no copy
    /// where nobody else holds it.
    pub fn take_out(self, alloc: Global, room: &mut Room) -> Result<(Tree, Spot), NoMemory>
        ensures tree { IfOk result (λ r. r.0 ≡ self.noun) }
        ensures spot { IfOk result (λ r. r.1 ≡ self.block) }
        ensures own { self.block ≡ None → ((n : ℤ) → self.noun ≢ int_atom n) → IsOk result }
    {
        match self.into_tree(alloc, room) {
            Ok(tree) => Ok((tree, Spot::none())),
            Err(NoMemory) => Err(NoMemory),
        }
    }

    /// Puts it where several owners can hold it, if the room has such a place. No memory.
    pub fn place(self, _room: &mut Room) -> Array
        ensures { result.noun ≡ self.noun }
    {
        self
    }

    /// A second array equal to this one, which stays as it was. An integer that stands alone takes
    /// no memory.
    pub fn dup(&mut self, alloc: Global, room: &Room) -> Result<Array, NoMemory>
        ensures equal { IfOk result (λ a. a.noun ≡ self.old.noun) }
        ensures kept { self.new ≡ self.old }
        ensures alone { (n : ℤ) → self.old.noun ≡ int_atom n → IsOk result }
    {
        if let Some(number) = self.integer(room) {
            return Ok(Array::atom(number));
        }
        match self.tree(alloc, room) {
            Ok(copy) => Ok(Array::of(copy)),
            Err(NoMemory) => Err(NoMemory),
        }
    }

    /// An array equal to this one, which nobody else holds. No memory where it is in no block.
    pub fn into_sole(self, _alloc: Global, _room: &mut Room) -> Result<Array, NoMemory>
        ensures equal { IfOk result (λ a. a.noun ≡ self.noun) }
        ensures block { IfOk result (λ a. a.block ≡ self.block) }
        ensures own { self.block ≡ None → IsOk result }
    {
        Ok(self)
    }

    /// Whether the two match: their shapes and atoms are equal, and where they have no atoms their
    /// shapes alone. No memory.
    pub fn match_with(&self, _room: &Room, other: &Array) -> bool
        ensures { IsTrue result ↔ IsMatch self.now.noun other.now.noun }
    {
        match (&self.form, &other.form) {
            (Form::Atom(left), Form::Atom(right)) => equal(left, right),
            (Form::Atom(left), Form::Own(right)) => is_atom(right, left),
            (Form::Own(left), Form::Atom(right)) => is_atom(left, right),
            (Form::Own(left), Form::Own(right)) => left.same(right),
        }
    }

    /// Spends it. No memory.
    pub fn done(self, _room: &mut Room) {}
}

// what a view of other atoms than integers gives: nothing, where there is one
fn no_numbers<'a>(count: usize) -> Option<&'a [i64]>
    ensures some { IfSome result (λ l. (l.now ≡ []) × (count ≡ 0)) }
    ensures none { IfNone result (0 < count) }
{
    if count == 0 { Some(&[]) } else { None }
}

fn equal(left: &i64, right: &i64) -> bool
    ensures { IsTrue result ↔ (left.now ≡ right.now) }
{
    left == right
}

/// Whether the tree is this integer, alone.
fn is_atom(tree: &Tree, number: &i64) -> bool
    ensures { IsTrue result ↔ (tree.now ≡ int_atom number.now) }
{
    match tree.integer() {
        Some(other) => other == *number,
        None => false,
    }
}
