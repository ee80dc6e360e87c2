//! The plans of adverbs and conjunctions with their operands.
ghost use Rattle.std.specs.Prelude.{◌≡◌, ◌++◌, IfOk, None, Some, map, reverse};
ghost use Rattle.std.specs.List.{range_with_len};
ghost use Rattle.jdata.specs.Noun.{shape, product};
ghost use Rattle.jframe.specs.Cells.{nth_cell};
ghost use Rattle.jplan.specs.Derivations.{refused as refused_by};
ghost use Rattle.jplan.specs.Inserting as inserting;
ghost use Rattle.jplan.specs.Modifiers as modifiers;
ghost use Rattle.jplan.specs.Plans.{rest};
ghost use Rattle.jplan.specs.Trains.{noun_in as meant_noun};
ghost use Rattle.jsplit.specs.Identities.{identity as meant_identity};
ghost use Rattle.jsplit.specs.Undoing.{obverse as meant_obverse};
ghost use Rattle.jterm.specs.Ranks.{ranks_of};
ghost use Rattle.juses.specs.Program.{Return};

use crate::copies::{datum, left_twice, noun_in, twice};
use crate::pieces::{cut, keyed, prefixed, suffixed};
use crate::plan::{After, Plan, inserted, last};
use crate::repeating::power;
use crate::several::several_cells;
use crate::trains::{fork, hook};
use jamend::amend;
use jarray::{Array, Room};
use jdata::{Fault, NoMemory, Tree, Trouble};
use jframe::{Cells, cells};
use jsplit::{identity, obverse};
use jterm::{Adv, Con, Datum, Stack, Term, ranks};
use std::alloc::Global;

// `u~`
fn reflex<'a>(
    alloc: Global,
    room: &Room,
    verb: &'a Term,
    x: Option<Datum>,
    y: Datum,
) -> Result<Plan<'a>, NoMemory>
    ensures { IfOk result (λ plan. rest plan ≡ modifiers.reflex verb.now x y) }
{
    match x {
        Some(x) => Ok(last(verb, Some(y), x)),
        None => {
            let (left, right) = twice(alloc, room, y)?;
            Ok(last(verb, Some(left), right))
        }
    }
}

// `u@v`, `u@:v`
fn atop<'a>(left: &'a Term, right: &'a Term, x: Option<Datum>, y: Datum) -> Plan<'a>
    ensures { rest result ≡ modifiers.atop left.now right.now x y }
{
    Plan::Apply {
        verb: right,
        x,
        y,
        after: After::AsRight {
            verb: left,
            left: None,
        },
    }
}

// `u&v`, `u&:v`
fn compose<'a>(left: &'a Term, right: &'a Term, x: Option<Datum>, y: Datum) -> Plan<'a>
    ensures { rest result ≡ modifiers.compose left.now right.now x y }
{
    match x {
        None => atop(left, right, None, y),
        Some(x) => Plan::Apply {
            verb: right,
            x: None,
            y,
            after: After::Right {
                left: right,
                mid: left,
                x: None,
                y: x,
            },
        },
    }
}

// `u&.v y`, with the verb that undoes `v`
fn under_one<'a>(left: &'a Term, right: &'a Term, undo: Box<Term>, y: Datum) -> Plan<'a>
    ensures { rest result ≡ modifiers.under left.now right.now undo.value None y }
{
    Plan::Apply {
        verb: right,
        x: None,
        y,
        after: After::Under { verb: left, undo },
    }
}

// `x u&.v y`, with the verb that undoes `v`
fn under_two<'a>(left: &'a Term, right: &'a Term, undo: Box<Term>, x: Datum, y: Datum) -> Plan<'a>
    ensures { rest result ≡ modifiers.under left.now right.now undo.value (Some x) y }
{
    Plan::Apply {
        verb: right,
        x: None,
        y,
        after: After::UnderRight {
            verb: left,
            other: right,
            x,
            undo,
        },
    }
}

fn under_with<'a>(
    alloc: Global,
    left: &'a Term,
    right: &'a Term,
    undo: Term,
    x: Option<Datum>,
    y: Datum,
) -> Result<Plan<'a>, NoMemory>
    ensures { IfOk result (λ plan. rest plan ≡ modifiers.under left.now right.now undo x y) }
{
    let undo = Box::new(alloc, undo)?;
    match x {
        None => Ok(under_one(left, right, undo, y)),
        Some(x) => Ok(under_two(left, right, undo, x, y)),
    }
}

// `u&.v`, `u&.:v`
fn under<'a>(
    alloc: Global,
    left: &'a Term,
    right: &'a Term,
    x: Option<Datum>,
    y: Datum,
) -> Result<Plan<'a>, NoMemory>
    ensures { IfOk result (λ plan. rest plan ≡ modifiers.under_by (meant_obverse right.now) left.now right.now x y) }
{
    match obverse(alloc, right) {
        Ok(undo) => under_with(alloc, left, right, undo, x, y),
        Err(Trouble::Fault(fault)) => Ok(refused(fault)),
        Err(Trouble::NoMemory) => Err(NoMemory),
    }
}

fn refused<'a>(fault: Fault) -> Plan<'a>
    ensures { rest result ≡ refused_by fault }
{
    Plan::Done(Err(fault))
}

// `m&v`
fn bond_left<'a>(
    alloc: Global,
    left: &Tree,
    verb: &'a Term,
    x: Option<Datum>,
    y: Datum,
) -> Result<Plan<'a>, NoMemory>
    ensures { IfOk result (λ plan. rest plan ≡ modifiers.bond_left left.now verb.now x y) }
{
    match x {
        None => {
            let left = datum(alloc, left)?;
            Ok(last(verb, Some(left), y))
        }
        Some(_) => Ok(refused(Fault::Nonce)),
    }
}

// `u&n`
fn bond_right<'a>(
    alloc: Global,
    verb: &'a Term,
    right: &Tree,
    x: Option<Datum>,
    y: Datum,
) -> Result<Plan<'a>, NoMemory>
    ensures { IfOk result (λ plan. rest plan ≡ modifiers.bond_right verb.now right.now x y) }
{
    match x {
        None => {
            let right = datum(alloc, right)?;
            Ok(last(verb, Some(y), right))
        }
        Some(_) => Ok(refused(Fault::Nonce)),
    }
}

// `m&v`, `u&n`, `u&v`
fn bond<'a>(
    alloc: Global,
    left: &'a Term,
    right: &'a Term,
    x: Option<Datum>,
    y: Datum,
) -> Result<Plan<'a>, NoMemory>
    ensures { IfOk result (λ plan. rest plan ≡ modifiers.bond (meant_noun left.now) (meant_noun right.now) left.now right.now x y) }
{
    match noun_in(left) {
        Some(noun) => bond_left(alloc, noun, right, x, y),
        None => match noun_in(right) {
            Some(noun) => bond_right(alloc, left, noun, x, y),
            None => Ok(compose(left, right, x, y)),
        },
    }
}

// `m"n`, `u"n`
fn ranked<'a>(
    alloc: Global,
    left: &'a Term,
    x: Option<Datum>,
    y: Datum,
) -> Result<Plan<'a>, NoMemory>
    ensures { IfOk result (λ plan. rest plan ≡ modifiers.ranked (meant_noun left.now) left.now x y) }
{
    match noun_in(left) {
        Some(noun) => {
            let value = datum(alloc, noun)?;
            Ok(Plan::Done(Ok(value)))
        }
        None => Ok(last(left, x, y)),
    }
}

// `u : v`
fn ambivalent<'a>(left: &'a Term, right: &'a Term, x: Option<Datum>, y: Datum) -> Plan<'a>
    ensures { rest result ≡ modifiers.ambivalent left.now right.now x y }
{
    match x {
        None => last(left, None, y),
        Some(x) => last(right, Some(x), y),
    }
}

// `u :: v`
fn adverse<'a>(
    alloc: Global,
    room: &Room,
    left: &'a Term,
    right: &'a Term,
    x: Option<Datum>,
    y: Datum,
) -> Result<Plan<'a>, NoMemory>
    ensures { IfOk result (λ plan. rest plan ≡ modifiers.adverse left.now right.now x y) }
{
    let (x, other_x) = left_twice(alloc, room, x)?;
    let (y, other_y) = twice(alloc, room, y)?;
    Ok(Plan::Apply {
        verb: left,
        x,
        y,
        after: After::Else {
            verb: right,
            x: other_x,
            y: other_y,
        },
    })
}

// The cells of an array, the last in front.
fn cells_back(
    alloc: Global,
    room: &Room,
    cells: &Cells,
    y: &Array,
) -> Result<Stack<Datum>, NoMemory>
    requires { shape y.now.noun ≡ cells.now.frame ++ cells.now.cell }
    ensures { IfOk result (λ items. items ≡ reverse (map (nth_cell cells.now.cell y.now.noun) (range_with_len 0 (product cells.now.frame)))) }
{
    let mut items = Stack::new(alloc);
    for at in 0..cells.count() {
        let item = cells.get(alloc, room, y, at)?;
        items.push(Datum::of(item))?;
    }
    Ok(items)
}

// The items of an array, the last in front.
fn items_back(alloc: Global, room: &Room, y: &Array) -> Result<Stack<Datum>, NoMemory>
    ensures { IfOk result (λ items. items ≡ inserting.items_back y.now.noun) }
{
    let cells = cells(alloc, room, y, Some(-1))?;
    cells_back(alloc, room, &cells, y)
}

fn left_rank(verb: &Term) -> Option<i64>
    ensures { result ≡ (ranks_of verb.now).left }
{
    let [_, left, _] = ranks(verb);
    left
}

// What a verb leaves of no items.
fn identity_plan<'a>(
    alloc: Global,
    room: &Room,
    verb: &Term,
    y: &Array,
) -> Result<Plan<'a>, NoMemory>
    ensures { IfOk result (λ plan. rest plan ≡ Return (meant_identity verb.now y.now.noun)) }
{
    match identity(alloc, room, verb, y) {
        Ok(tree) => Ok(Plan::Done(Ok(Datum::of(Array::of(tree))))),
        Err(Trouble::Fault(fault)) => Ok(refused(fault)),
        Err(Trouble::NoMemory) => Err(NoMemory),
    }
}

// `u/` with one argument
fn insert_in<'a>(
    alloc: Global,
    room: &Room,
    verb: &'a Term,
    y: &Array,
) -> Result<Plan<'a>, NoMemory>
    ensures { IfOk result (λ plan. rest plan ≡ inserting.insert verb.now None y.now.noun) }
{
    let mut items = items_back(alloc, room, y)?;
    match items.pop() {
        Some(item) => Ok(inserted(verb, items, item)),
        None => identity_plan(alloc, room, verb, y),
    }
}

// `u/`
fn insert<'a>(
    alloc: Global,
    room: &Room,
    verb: &'a Term,
    x: Option<Datum>,
    y: Datum,
) -> Result<Plan<'a>, NoMemory>
    ensures { IfOk result (λ plan. rest plan ≡ inserting.insert verb.now x y) }
{
    match x {
        None => insert_in(alloc, room, verb, y.array()),
        Some(x) => several_cells(alloc, room, verb, left_rank(verb), None, Some(x), y),
    }
}

// `m}`
fn amended<'a>(
    alloc: Global,
    room: &mut Room,
    left: &Term,
    x: Option<Datum>,
    y: Datum,
) -> Result<Plan<'a>, NoMemory>
    ensures { IfOk result (λ plan. rest plan ≡ modifiers.amend (meant_noun left.now) x y) }
{
    let (Some(at), Some(x)) = (noun_in(left), x) else {
        return Ok(refused(Fault::Nonce));
    };
    match amend(alloc, room, x.into_array(), at, y.into_array()) {
        Ok(value) => Ok(Plan::Done(Ok(Datum::of(value)))),
        Err(Trouble::Fault(fault)) => Ok(refused(fault)),
        Err(Trouble::NoMemory) => Err(NoMemory),
    }
}

// An adverb with its operand.
fn modified<'a>(
    alloc: Global,
    room: &mut Room,
    word: Adv,
    verb: &'a Term,
    x: Option<Datum>,
    y: Datum,
) -> Result<Plan<'a>, NoMemory>
    ensures { IfOk result (λ plan. rest plan ≡ modifiers.modified word verb.now x y) }
{
    match word {
        Adv::Slash => insert(alloc, room, verb, x, y),
        Adv::Tilde => reflex(alloc, room, verb, x, y),
        Adv::Backslash => prefixed(alloc, room, verb, x, y),
        Adv::BackslashDot => suffixed(alloc, room, verb, x, y),
        Adv::SlashDot => keyed(alloc, room, verb, x, y),
        Adv::RightBrace => amended(alloc, room, verb, x, y),
    }
}

// A conjunction with its operands.
fn joined<'a>(
    alloc: Global,
    room: &mut Room,
    word: Con,
    left: &'a Term,
    right: &'a Term,
    x: Option<Datum>,
    y: Datum,
) -> Result<Plan<'a>, NoMemory>
    ensures { IfOk result (λ plan. rest plan ≡ modifiers.joined word left.now right.now x y) }
{
    match word {
        Con::Quote => ranked(alloc, left, x, y),
        Con::PowerColon => power(alloc, room, left, right, x, y),
        Con::At => Ok(atop(left, right, x, y)),
        Con::AtColon => Ok(atop(left, right, x, y)),
        Con::Ampersand => bond(alloc, left, right, x, y),
        Con::AmpersandColon => Ok(compose(left, right, x, y)),
        Con::AmpersandDot => under(alloc, left, right, x, y),
        Con::AmpersandDotColon => under(alloc, left, right, x, y),
        Con::Colon => Ok(ambivalent(left, right, x, y)),
        Con::ColonColon => adverse(alloc, room, left, right, x, y),
        Con::SemicolonDot => cut(alloc, room, left, right, x, y),
        _ => Ok(refused(Fault::Nonce)),
    }
}

/// The plan of a verb that is made of others, on one cell of its ranks.
pub fn derived<'a>(
    alloc: Global,
    room: &mut Room,
    verb: &'a Term,
    x: Option<Datum>,
    y: Datum,
) -> Result<Plan<'a>, NoMemory>
    ensures { IfOk result (λ plan. rest plan ≡ modifiers.derived verb.now x y) }
{
    match verb {
        Term::With1 { word, left } => modified(alloc, room, *word, left.get(), x, y),
        Term::With2 { word, left, right } => {
            joined(alloc, room, *word, left.get(), right.get(), x, y)
        }
        Term::Hook { left, right } => hook(alloc, room, left.get(), right.get(), x, y),
        Term::Fork { left, mid, right } => {
            fork(alloc, room, left.get(), mid.get(), right.get(), x, y)
        }
        _ => Ok(refused(Fault::Domain)),
    }
}
