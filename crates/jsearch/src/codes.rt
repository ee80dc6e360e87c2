//! Codes of arrays: a list of numbers for each, equal exactly where they match.

ghost use Rattle.std.specs.Prelude.{◌≡◌, ◌<◌, ◌≤◌, ◌^◌, ◌++◌, ◌∷◌, [], pos, OnOk, length, map};
ghost use Rattle.jdata.specs.Leaf.{kind_in, atoms_in};
ghost use Rattle.jdata.specs.Limits.{IsArray, most_atoms};
ghost use Rattle.jdata.specs.Noun.{noun, extent};
ghost use Rattle.jdata.specs.Trees.{atom_of};
ghost use Rattle.jdata.specs.declared.noun.Atom.TheVariants as atom;
ghost use Rattle.jsearch.specs.Codes as codes;

use crate::number::integer;
use jdata::{Cell, Kind, Leaf, NoMemory, PyxId};

/// The code of the array of this shape with these atoms, at the end of other numbers.
#[cycle(codes)]
pub fn push_code(axes: &[u64], atoms: Leaf<'_>, into: &mut Vec<i64>) -> Result<(), NoMemory>
    requires { IsArray (noun axes.now (kind_in atoms) (atoms_in atoms)) }
    ensures { OnOk result (into.new.items ≡ into.old.items ++ codes.code (noun axes.now (kind_in atoms.entry) (atoms_in atoms.entry))) }
{
    push_head(axes, atoms.kind(), atoms.len(), into)?;
    match atoms {
        Leaf::Int(numbers) => push_integers(numbers, into),
        Leaf::Char(bytes) => push_characters(bytes, into),
        Leaf::Cell(cells) => push_cells(cells, into),
    }
}

#[cycle(codes)]
fn push_cells(cells: &[Cell], into: &mut Vec<i64>) -> Result<(), NoMemory>
    ensures { OnOk result (into.new.items ≡ into.old.items ++ codes.joined (map codes.atom_code (map atom_of cells.now))) }
{
    for cell in cells {
        push_cell(cell, into)?;
    }
    Ok(())
}

#[cycle(codes)]
fn push_cell(cell: &Cell, into: &mut Vec<i64>) -> Result<(), NoMemory>
    ensures { OnOk result (into.new.items ≡ into.old.items ++ codes.atom_code (atom_of cell.now)) }
{
    match cell {
        Cell::Boxed(content) => {
            into.push(2)?;
            push_code(content.shape(), content.leaf(), into)
        }
        Cell::Pyx(name) => push_pyx(name, into),
    }
}

fn push_pyx(name: &PyxId, into: &mut Vec<i64>) -> Result<(), NoMemory>
    ensures { OnOk result (into.new.items ≡ into.old.items ++ codes.atom_code (atom.Pyx name.now)) }
{
    into.push(3)?;
    into.push(i64::from(name.number))?;
    name.path.known();
    let parts = name.path.parts();
    into.push(integer(parts.len() as u64))?;
    for part in parts {
        into.push(i64::from(*part))?;
    }
    Ok(())
}

fn push_integers(numbers: &[i64], into: &mut Vec<i64>) -> Result<(), NoMemory>
    ensures { OnOk result (into.new.items ≡ into.old.items ++ codes.joined (map codes.atom_code (map atom.Int numbers.now))) }
{
    for number in numbers {
        push_integer(number, into)?;
    }
    Ok(())
}

fn push_integer(number: &i64, into: &mut Vec<i64>) -> Result<(), NoMemory>
    ensures { OnOk result (into.new.items ≡ into.old.items ++ pos 0 ∷ number.now ∷ []) }
{
    into.push(0)?;
    into.push(*number)?;
    Ok(())
}

fn push_characters(bytes: &[u8], into: &mut Vec<i64>) -> Result<(), NoMemory>
    ensures { OnOk result (into.new.items ≡ into.old.items ++ codes.joined (map codes.atom_code (map atom.Char bytes.now))) }
{
    for byte in bytes {
        push_character(*byte, into)?;
    }
    Ok(())
}

fn push_character(byte: u8, into: &mut Vec<i64>) -> Result<(), NoMemory>
    ensures { OnOk result (into.new.items ≡ into.old.items ++ pos 1 ∷ pos byte ∷ []) }
{
    into.push(1)?;
    into.push(i64::from(byte))?;
    Ok(())
}

/// What stands in front of the atoms: the shape, the kind and how many they are.
fn push_head(axes: &[u64], kind: Kind, count: usize, into: &mut Vec<i64>) -> Result<(), NoMemory>
    requires axes { extent axes.now ≤ most_atoms }
    requires rank { length axes.now < 2 ^ 63 }
    requires count { count ≤ most_atoms }
    ensures { OnOk result (into.new.items ≡ into.old.items ++ codes.head_code axes.now kind count) }
{
    push_axes(axes, into)?;
    into.push(kind_number(kind, count))?;
    into.push(integer(count as u64))?;
    Ok(())
}

fn push_axes(axes: &[u64], into: &mut Vec<i64>) -> Result<(), NoMemory>
    requires axes { extent axes.now ≤ most_atoms }
    requires rank { length axes.now < 2 ^ 63 }
    ensures { OnOk result (into.new.items ≡ into.old.items ++ codes.counted_code axes.now) }
{
    into.push(integer(axes.len() as u64))?;
    for axis in axes {
        into.push(integer(*axis))?;
    }
    Ok(())
}

/// The number of the kind, where there are atoms.
fn kind_number(kind: Kind, count: usize) -> i64
    ensures { result ≡ pos (codes.kind_number kind count) }
{
    if count == 0 {
        return 0;
    }
    match kind {
        Kind::Int => 0,
        Kind::Char => 1,
        Kind::Boxed => 2,
    }
}
