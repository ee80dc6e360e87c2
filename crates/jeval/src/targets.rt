//! Quoted targets: the names in them, and what each takes of a value.
ghost use Rattle.std.specs.Prelude.{◌≡◌, ◌++◌, ◌∷◌, [], IfOk, Ok, filter, map, option_map, replicate};
ghost use Rattle.std.specs.List.{list_all, range_with_len};
ghost use Rattle.jdata.specs.Firsts.{all_or_first};
ghost use Rattle.jdata.specs.Noun.{shape, product};
ghost use Rattle.jframe.specs.Cells.{nth_cell};
ghost use Rattle.jwords.specs.Formed.{is_named_word, is_plain_name};
ghost use Rattle.jeval.specs.Made.{Answers};
ghost use Rattle.jeval.specs.Makings as makings;
ghost use Rattle.jeval.specs.Targets as targets;

use crate::building::term_of;
use crate::end::{EvalEnd, NO_MEMORY};
use crate::stack::Stack;
use crate::verbs::primitive;
use jarray::{Array, Room};
use jdata::{Fault, Leaf, Name, NoMemory, Primitive, Sequence};
use jframe::{Cells, cells};
use jterm::{Datum, Part, Term};
use jwords::{is_blank, is_name, is_plain};
use std::alloc::Global;

// The bytes of a target: characters in a list or alone. An array without atoms counts as characters.
fn text_of<'a>(room: &Room, target: &'a Array) -> Option<&'a [u8]>
    ensures { option_map (λ text. text.now) result ≡ targets.text_of target.now.noun }
{
    let leaf = target.leaf(room);
    let axes = target.shape(room).len();
    if leaf.len() == 0 {
        return Some(&[]);
    }
    match leaf {
        Leaf::Char(bytes) if axes < 2 => Some(bytes),
        _ => None,
    }
}

// A run of a target is a name, unless it is empty.
fn with_run(alloc: Global, mut names: Vec<Name>, run: &[u8]) -> Result<Vec<Name>, NoMemory>
    ensures { IfOk result (λ given. given.items ≡ names.items ++ filter targets.is_some_run (run.now ∷ [])) }
{
    if run.is_empty() {
        return Ok(names);
    }
    let Ok(bytes) = Vec::from_slice(alloc, run) else {
        return Err(NoMemory);
    };
    match names.push(Name::of(bytes)) {
        Ok(()) => Ok(names),
        Err(_) => Err(NoMemory),
    }
}

// The runs of a target that aren't empty, where blanks part them.
fn runs(alloc: Global, text: &[u8]) -> Result<Vec<Name>, NoMemory>
    ensures { IfOk result (λ names. names.items ≡ targets.runs text.now) }
{
    let mut names = Vec::new(alloc);
    let mut start = 0;
    for (i, byte) in text.iter().enumerate() {
        if !is_blank(*byte) {
            continue;
        }
        names = with_run(alloc, names, &text[start..i])?;
        start = i + 1;
    }
    with_run(alloc, names, &text[start..])
}

fn is_spelled(name: &Name) -> bool
    ensures { result ≡ is_named_word name.now }
{
    is_name(name.items())
}

fn stands_alone(name: &Name) -> bool
    ensures { result ≡ is_plain_name name.now }
{
    is_plain(name.items())
}

fn are_spelled(names: &[Name]) -> bool
    ensures { result ≡ list_all is_named_word names.now }
{
    for name in names {
        if !is_spelled(name) {
            return false;
        }
    }
    true
}

fn are_plain(names: &[Name]) -> bool
    ensures { result ≡ list_all is_plain_name names.now }
{
    for name in names {
        if !stands_alone(name) {
            return false;
        }
    }
    true
}

// All are spelled as names before one in a locale is refused.
fn plain_names(names: Vec<Name>) -> Result<Stack<Name>, EvalEnd>
    ensures { Answers (targets.plain_names names.items) result }
{
    if !are_spelled(&names) {
        return Err(EvalEnd::Fault(Fault::Spelling));
    }
    if !are_plain(&names) {
        return Err(EvalEnd::Fault(Fault::Nonce));
    }
    Ok(Stack::of(names))
}

// The names of a target.
fn names_in(alloc: Global, room: &Room, target: &Array) -> Result<Stack<Name>, EvalEnd>
    ensures { Answers (targets.names_in (targets.text_of target.now.noun)) result }
{
    match text_of(room, target) {
        Some(text) => match runs(alloc, text) {
            Ok(names) => plain_names(names),
            Err(NoMemory) => Err(NO_MEMORY),
        },
        None => Err(EvalEnd::Fault(Fault::Domain)),
    }
}

// An item opened, in memory of its own; one that isn't boxed is itself.
fn opened(alloc: Global, room: &mut Room, item: Array) -> Result<Term, EvalEnd>
    ensures { Answers (targets.opened item.noun) result }
{
    match primitive(alloc, room, Primitive::Greater, None, Datum::of(item)) {
        Ok(value) => match value.into_array().into_tree(alloc, room) {
            Ok(tree) => Ok(Term::Noun(tree)),
            Err(NoMemory) => Err(NO_MEMORY),
        },
        Err(end) => Err(end),
    }
}

// The cells of an array, each opened, up to the first fault.
fn each_opened(
    alloc: Global,
    room: &mut Room,
    cells: &Cells,
    y: &Array,
) -> Result<Stack<Term>, EvalEnd>
    requires { shape y.now.noun ≡ cells.now.frame ++ cells.now.cell }
    ensures { Answers (all_or_first (map (λ i. targets.opened (nth_cell cells.now.cell y.now.noun i)) (range_with_len 0 (product cells.now.frame)))) result }
{
    let mut values = Sequence::of(Vec::new(alloc));
    for at in 0..cells.count() {
        let item = match cells.get(alloc, room, y, at) {
            Ok(item) => item,
            Err(NoMemory) => return Err(NO_MEMORY),
        };
        let value = match opened(alloc, room, item) {
            Ok(value) => value,
            Err(end) => return Err(end),
        };
        match values.push(value) {
            Ok(()) => {}
            Err(NoMemory) => return Err(NO_MEMORY),
        }
    }
    Ok(Stack::of(values.into_items()))
}

fn opened_items(alloc: Global, room: &mut Room, y: &Array) -> Result<Stack<Term>, EvalEnd>
    ensures { Answers (targets.opened_items y.now.noun) result }
{
    match cells(alloc, room, y, Some(-1)) {
        Ok(cells) => each_opened(alloc, room, &cells, y),
        Err(NoMemory) => Err(NO_MEMORY),
    }
}

// A value so many times.
fn copies(alloc: Global, value: &Term, count: usize) -> Result<Vec<Term>, NoMemory>
    ensures { IfOk result (λ values. values.items ≡ replicate count value.now) }
{
    let mut values = Sequence::of(Vec::new(alloc));
    for _at in 0..count {
        let value = value.copy(alloc)?;
        values.push(value)?;
    }
    Ok(values.into_items())
}

// An atom opened, for each of so many names.
fn copies_of(
    alloc: Global,
    room: &mut Room,
    count: usize,
    y: &Array,
) -> Result<Stack<Term>, EvalEnd>
    ensures { Answers (targets.copies count (targets.opened y.now.noun)) result }
{
    let Ok(tree) = y.tree(alloc, room) else {
        return Err(NO_MEMORY);
    };
    match opened(alloc, room, Array::of(tree)) {
        Ok(value) => match copies(alloc, &value, count) {
            Ok(values) => Ok(Stack::of(values)),
            Err(NoMemory) => Err(NO_MEMORY),
        },
        Err(end) => Err(end),
    }
}

fn first_axis(axes: &[u64]) -> Option<u64>
    ensures { result ≡ targets.first_axis axes.now }
{
    axes.first().copied()
}

// What each of so many names takes of an array.
fn shares_of(
    alloc: Global,
    room: &mut Room,
    count: usize,
    y: &Array,
) -> Result<Stack<Term>, EvalEnd>
    ensures { Answers (targets.shares_by (targets.first_axis (shape y.now.noun)) count y.now.noun) result }
{
    match first_axis(y.shape(room)) {
        None => copies_of(alloc, room, count, y),
        Some(items) => {
            if items != count as u64 {
                return Err(EvalEnd::Fault(Fault::Length));
            }
            opened_items(alloc, room, y)
        }
    }
}

fn single(alloc: Global, term: Term) -> Result<Stack<Term>, EvalEnd>
    ensures { Answers (Ok (term ∷ [])) result }
{
    let mut values = Stack::new(alloc);
    match values.push(term) {
        Ok(()) => Ok(values),
        Err(NoMemory) => Err(NO_MEMORY),
    }
}

// One name takes the whole value.
fn whole(alloc: Global, room: &Room, value: &Part) -> Result<Stack<Term>, EvalEnd>
    ensures { Answers (targets.alone (makings.or_syntax (makings.term_of value.now))) result }
{
    match term_of(alloc, room, value) {
        Ok(Some(term)) => single(alloc, term),
        Ok(None) => Err(EvalEnd::Fault(Fault::Syntax)),
        Err(NoMemory) => Err(NO_MEMORY),
    }
}

// What each of several names takes.
fn several(
    alloc: Global,
    room: &mut Room,
    count: usize,
    value: &Part,
) -> Result<Stack<Term>, EvalEnd>
    ensures { Answers (targets.shares_of count (targets.spread_noun value.now)) result }
{
    match value {
        Part::Noun(value) => shares_of(alloc, room, count, value.array()),
        Part::Ranks(_) => Err(EvalEnd::Fault(Fault::Nonce)),
        _ => Err(EvalEnd::Fault(Fault::Domain)),
    }
}

fn shares(
    alloc: Global,
    room: &mut Room,
    count: usize,
    value: &Part,
) -> Result<Stack<Term>, EvalEnd>
    ensures { Answers (targets.shares count value.now) result }
{
    if count == 1 {
        whole(alloc, room, value)
    } else {
        several(alloc, room, count, value)
    }
}

/// What a quoted target with a value assigns: the names, and what each takes.
pub(crate) fn spread(
    alloc: Global,
    room: &mut Room,
    target: &Array,
    value: &Part,
) -> Result<(Stack<Name>, Stack<Term>), EvalEnd>
    ensures { Answers (targets.spread target.now.noun value.now) result }
{
    match names_in(alloc, room, target) {
        Ok(names) => match shares(alloc, room, names.len(), value) {
            Ok(values) => Ok((names, values)),
            Err(end) => Err(end),
        },
        Err(end) => Err(end),
    }
}
