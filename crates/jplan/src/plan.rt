//! Derived verbs as plans: what is applied next, and what becomes of its answer. A plan makes no use and applies nothing,
//! so what applies verbs is one loop over plain data.
ghost use Rattle.std.specs.Prelude.{◌≤◌, ◌≡◌, IfOk, Ok, Err, length};
ghost use Rattle.jplan.specs.Derivations.{applying_last};
ghost use Rattle.jplan.specs.Inserting.{inserted as meant_inserted};
ghost use Rattle.jplan.specs.Plans as plans;

use crate::counted::Nowhere;
use crate::repeating::{Repetition, by_value};
use crate::series::Series;
use crate::several::alone;
use jarray::Room;
use jdata::{Fault, NoMemory};
use jterm::{Datum, Stack, Term};
use std::alloc::Global;

/// How far a derived verb has come.
#[derive(Drop)]
pub enum Plan<'a> {
    /// A verb is to be applied, and something is to be done with its answer.
    Apply {
        verb: &'a Term,
        x: Option<Datum>,
        y: Datum,
        after: After<'a>,
    },
    /// A verb that the plan made is to be applied, and its answer is that of the derived verb.
    Undo {
        verb: Box<Term>,
        y: Datum,
    },
    /// A verb that the plan made is to be applied once more, which takes a turn, and the run goes on with its answer.
    Again {
        run: Box<Repetition>,
        y: Datum,
    },
    /// The value of the derived verb, or its fault.
    Done(Result<Datum, Fault>),
}

/// What becomes of the answer of an application. A fault is that of the derived verb, unless another verb is tried.
#[derive(Drop)]
pub enum After<'a> {
    /// It is the answer of the derived verb.
    Given,
    /// The value is the right argument of this verb, beside this left one.
    AsRight {
        verb: &'a Term,
        left: Option<Datum>,
    },
    /// The value is the left argument of this verb, beside this right one.
    AsLeft {
        verb: &'a Term,
        right: Datum,
    },
    /// The value is the right argument of a verb whose left argument is what another verb gives next.
    Right {
        left: &'a Term,
        mid: &'a Term,
        x: Option<Datum>,
        y: Datum,
    },
    /// The value is the right argument of the same verb again, beside the next of these items.
    Insert {
        verb: &'a Term,
        items: Stack<Datum>,
    },
    /// Where there is a fault, this verb is applied.
    Else {
        verb: &'a Term,
        x: Option<Datum>,
        y: Datum,
    },
    /// The value is the argument of this verb, whose value the other one undoes.
    Under {
        verb: &'a Term,
        undo: Box<Term>,
    },
    /// The value is the right argument of a verb whose left argument is what another verb gives next.
    UnderRight {
        verb: &'a Term,
        other: &'a Term,
        x: Datum,
        undo: Box<Term>,
    },
    /// The value is the left argument of this verb, beside this right one.
    UnderLeft {
        verb: &'a Term,
        right: Datum,
        undo: Box<Term>,
    },
    /// The value is the argument of this verb.
    Undo(Box<Term>),
    /// The value is one of several results, and the same verb is applied to what comes next.
    Each {
        verb: &'a Term,
        series: Box<Series>,
    },
    /// Of the answer only the shape and the kind count: it is for no items, where the results would have this frame.
    Alone(Nowhere),
    /// The value says how often this verb is applied.
    Power {
        verb: &'a Term,
        x: Option<Datum>,
        y: Datum,
    },
}

impl<'a> After<'a> {
    /// The plan once the application gave this answer.
    pub fn resume(
        self,
        alloc: Global,
        room: &mut Room,
        answer: Result<Datum, Fault>,
    ) -> Result<Plan<'a>, NoMemory>
        ensures rest { IfOk result (λ plan. plans.rest plan ≡ plans.rest_after self.entry answer) }
        ensures left { IfOk result (λ plan. plans.left_of plan ≤ plans.left_after self.entry) }
    {
        match answer {
            Ok(value) => self.go_on(alloc, room, value),
            Err(fault) => self.recover(alloc, room, fault),
        }
    }

    fn go_on(self, alloc: Global, room: &mut Room, value: Datum) -> Result<Plan<'a>, NoMemory>
        ensures rest { IfOk result (λ plan. plans.rest plan ≡ plans.rest_after self.entry (Ok value)) }
        ensures left { IfOk result (λ plan. plans.left_of plan ≤ plans.left_after self.entry) }
    {
        match self {
            After::Given => Ok(Plan::Done(Ok(value))),
            After::AsRight { verb, left } => Ok(last(verb, left, value)),
            After::AsLeft { verb, right } => Ok(last(verb, Some(value), right)),
            After::Right { left, mid, x, y } => Ok(Plan::Apply {
                verb: left,
                x,
                y,
                after: After::AsLeft {
                    verb: mid,
                    right: value,
                },
            }),
            After::Insert { verb, items } => Ok(inserted(verb, items, value)),
            After::Else { .. } => Ok(Plan::Done(Ok(value))),
            After::Under { verb, undo } => Ok(Plan::Apply {
                verb,
                x: None,
                y: value,
                after: After::Undo(undo),
            }),
            After::UnderRight {
                verb,
                other,
                x,
                undo,
            } => Ok(Plan::Apply {
                verb: other,
                x: None,
                y: x,
                after: After::UnderLeft {
                    verb,
                    right: value,
                    undo,
                },
            }),
            After::UnderLeft { verb, right, undo } => Ok(Plan::Apply {
                verb,
                x: Some(value),
                y: right,
                after: After::Undo(undo),
            }),
            After::Undo(verb) => Ok(Plan::Undo { verb, y: value }),
            After::Each { verb, series } => Box::into_inner(series).resume(
                alloc, room, verb, value,
            ),
            After::Alone(none) => alone(alloc, room, &none, Ok(value)),
            After::Power { verb, x, y } => by_value(alloc, room, verb, x, y, value.array()),
        }
    }

    fn recover(self, alloc: Global, room: &mut Room, fault: Fault) -> Result<Plan<'a>, NoMemory>
        ensures rest { IfOk result (λ plan. plans.rest plan ≡ plans.rest_after self.entry (Err fault)) }
        ensures left { IfOk result (λ plan. plans.left_of plan ≤ plans.left_after self.entry) }
    {
        match self {
            After::Else { verb, x, y } => Ok(last(verb, x, y)),
            After::Alone(none) => alone(alloc, room, &none, Err(fault)),
            _ => Ok(Plan::Done(Err(fault))),
        }
    }
}

/// A verb whose answer is that of the derived verb.
pub(crate) fn last<'a>(verb: &'a Term, x: Option<Datum>, y: Datum) -> Plan<'a>
    ensures rest { plans.rest result ≡ applying_last verb.now x y }
    ensures left { plans.left_of result ≡ 1 }
{
    Plan::Apply {
        verb,
        x,
        y,
        after: After::Given,
    }
}

/// A verb between the items that are left, the next of them in front, and a value.
pub(crate) fn inserted<'a>(verb: &'a Term, mut items: Stack<Datum>, value: Datum) -> Plan<'a>
    ensures rest { plans.rest result ≡ meant_inserted verb.now items value }
    ensures left { plans.left_of result ≤ length items }
{
    match items.pop() {
        Some(item) => Plan::Apply {
            verb,
            x: Some(item),
            y: value,
            after: After::Insert { verb, items },
        },
        None => Plan::Done(Ok(value)),
    }
}
