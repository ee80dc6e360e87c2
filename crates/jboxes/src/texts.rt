//! The words of a text.

ghost use Rattle.std.specs.Prelude.{◌≡◌, ◌≤◌, ◌<◌, false, Ok, IfOk, length, map};
ghost use Rattle.jdata.specs.Limits.{limited};
ghost use Rattle.jdata.specs.Limits.{most_atoms};
ghost use Rattle.jdata.specs.Kinds.{is_of_kind};
ghost use Rattle.jdata.specs.Noun.{atoms};
ghost use Rattle.jdata.specs.Trees.{atom_of};
ghost use Rattle.jdata.specs.declared.noun.Atom.TheVariants as atom;
ghost use Rattle.jdata.specs.declared.noun.Noun.{Noun};
ghost use Rattle.jdata.specs.declared.noun.Kind.TheVariants as sort;
ghost use Rattle.jarray.specs.Placed.{Gives};
ghost use Rattle.jwords.specs.Formed.{spans_of};
ghost use Rattle.jboxes.specs.Worded as meant;

use crate::made::array_of;
use jarray::{Array, Room};
use jdata::{Bytes, Cell, CellList, Fault, Leaf, Leaves, NoMemory, Tree, Trouble};
use jwords::{SpanFault, Word, spans};
use std::alloc::Global;

/// `;: y` at its rank 1: the words of the text, each as a list in a box. Faults: Domain, OpenQuote.
pub fn words(alloc: Global, room: &mut Room, y: Array) -> Result<Array, Trouble>
    ensures { Gives (meant.worded y.noun) result }
{
    let boxes = words_of(alloc, room, &y);
    y.done(room);
    boxes
}

fn words_of(alloc: Global, room: &Room, y: &Array) -> Result<Array, Trouble>
    ensures { Gives (meant.worded y.now.noun) result }
{
    // as an array it has no more atoms than the limit says
    let _axes = y.shape(room);
    match y.leaf(room) {
        Leaf::Char(text) => words_in(alloc, text),
        Leaf::Int(numbers) => words_of_others(alloc, numbers.len()),
        Leaf::Cell(cells) => words_of_others(alloc, cells.len()),
    }
}

/// Other atoms have no words. Without atoms, it is a text of none.
fn words_of_others(alloc: Global, count: usize) -> Result<Array, Trouble>
    ensures { (y : Noun) → length (atoms y) ≡ count → (0 < count → is_of_kind sort.Char y ≡ false) → Gives (meant.worded y) result }
{
    if count == 0 {
        words_in(alloc, &[])
    } else {
        Err(Trouble::Fault(Fault::Domain))
    }
}

fn words_in(alloc: Global, text: &[u8]) -> Result<Array, Trouble>
    requires { length text.now ≤ most_atoms }
    ensures { Gives (meant.words_boxed text.now (spans_of text.now)) result }
{
    match spans(alloc, text) {
        Ok(words) => boxed(alloc, text, words.as_slice()),
        Err(SpanFault::OpenQuote { .. }) => Err(Trouble::Fault(Fault::OpenQuote)),
        Err(SpanFault::NoMemory) => Err(Trouble::NoMemory),
    }
}

fn boxed(alloc: Global, text: &[u8], words: &[Word]) -> Result<Array, Trouble>
    requires few { length text.now ≤ most_atoms }
    ensures { Gives (limited (meant.boxed_texts (map (meant.word_text text.now) words.now))) result }
{
    let mut cells = Vec::with_capacity(alloc, words.len())?;
    for word in words {
        let cell = boxed_word(alloc, text, word)?;
        cells.push(cell)?;
    }
    let shape = Vec::from_slice(alloc, &[cells.len() as u64])?;
    array_of(shape, Leaves::Cell(CellList::of(cells)))
}

fn boxed_word(alloc: Global, text: &[u8], word: &Word) -> Result<Cell, NoMemory>
    requires { length text.now ≤ most_atoms }
    ensures { IfOk result (λ c. atom_of c ≡ atom.Box (meant.text_list (meant.word_text text.now word.now))) }
{
    let list = text_list(alloc, bytes_of(text, word))?;
    Ok(Cell::Boxed(list))
}

/// The bytes of a word, of those that are there.
fn bytes_of<'a>(text: &'a [u8], word: &Word) -> &'a [u8]
    ensures { result.now ≡ meant.word_text text.entry.now word.now }
{
    let start = (word.start as usize).min(text.len());
    let end = (word.end as usize).min(text.len()).max(start);
    &text[start..end]
}

fn text_list(alloc: Global, bytes: &[u8]) -> Result<Tree, NoMemory>
    requires { length bytes.now ≤ most_atoms }
    ensures { IfOk result (λ t. t ≡ meant.text_list bytes.now) }
{
    let shape = Vec::from_slice(alloc, &[bytes.len() as u64])?;
    let bytes = Bytes::of(Vec::from_slice(alloc, bytes)?);
    match Tree::new(shape, Leaves::Char(bytes)) {
        Ok(tree) => Ok(tree),
        Err(_) => unreachable!(),
    }
}
