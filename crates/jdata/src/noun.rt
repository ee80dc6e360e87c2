use crate::path::PyxId;
use sqlite_items::Items;

/// What the atoms of an array are.
#[derive(Clone, Copy, Debug, PartialEq, Eq)]
pub enum Kind {
    Int,
    Char,
    Boxed,
}

/// What contracts see of an array: its shape, its kind and its atoms in ravel order.
/// No value of it is made.
#[cycle(noun)]
#[derive(Drop)]
pub struct Noun {
    pub shape: Items<u64>,
    pub kind: Kind,
    pub atoms: Items<Atom>,
}

/// What contracts see of an atom of an array. No value of it is made.
#[cycle(noun)]
#[derive(Drop)]
pub enum Atom {
    Int(i64),
    Char(u8),
    Box(Noun),
    Pyx(PyxId),
}
