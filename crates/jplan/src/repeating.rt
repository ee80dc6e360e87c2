//! A verb again and again, each time on the value before.
ghost use Rattle.std.specs.Prelude.{◌≡◌, ◌≤◌, suc, IfOk, if◌then◌else◌, Ok};
ghost use Rattle.jarray.specs.Matches.{matches as meant_matches};
ghost use Rattle.jdata.specs.Answers.{Answers};
ghost use Rattle.juses.specs.Program.{Return, Ask};
ghost use Rattle.jplan.specs.Derivations.{again as meant_again, given, on_value};
ghost use Rattle.jplan.specs.Plans as plans;
ghost use Rattle.jplan.specs.Repeating as meant;
ghost use Rattle.jsplit.specs.Undoing.{obverse as meant_obverse};

use crate::climbing::{climb, listed};
use crate::copies::{datum, left_twice, twice};
use crate::pieces::integer;
use crate::plan::{After, Plan};
use crate::steps::Steps;
use jarray::{Array, Room};
use jdata::{Fault, NoMemory, Sequence, Trouble};
use jsplit::obverse;
use jterm::{Con, Datum, RankList, Term, conj};
use std::alloc::Global;

/// A verb that is applied again and again, and how far it has come. A repetition is waited for.
#[derive(Drop)]
pub struct Repetition {
    pub(crate) verb: Box<Term>,
    pub(crate) goal: Goal,
}

/// Where the repetitions of a verb end.
#[derive(Drop)]
pub enum Goal {
    /// After so many more.
    Times(u64),
    /// Where a value matches the one before, in so many more at most.
    Match {
        before: Datum,
        left: u64,
    },
    /// After so many more, where the values at some numbers of repetitions are put together.
    Climb {
        steps: Steps,
        values: Sequence<Datum>,
        left: u64,
    },
}

impl Repetition {
    /// The verb that is repeated.
    pub fn verb(&self) -> &Term
        ensures { result.now ≡ self.now.verb.value }
    {
        &self.verb
    }

    /// The plan once the repetition gave this answer.
    pub fn resume<'a>(
        self,
        alloc: Global,
        room: &mut Room,
        answer: Result<Datum, Fault>,
    ) -> Result<Plan<'a>, NoMemory>
        ensures rest { IfOk result (λ plan. plans.rest plan ≡ on_value (plans.rest_repeated self.verb.value self.goal) answer) }
        ensures left { IfOk result (λ plan. plans.left_of plan ≤ plans.left_repeated self.goal) }
    {
        let Repetition { verb, goal } = self;
        match answer {
            Ok(value) => goal.go_on(alloc, room, verb, value),
            Err(fault) => Ok(Plan::Done(Err(fault))),
        }
    }
}

impl Goal {
    fn go_on<'a>(
        self,
        alloc: Global,
        room: &mut Room,
        verb: Box<Term>,
        value: Datum,
    ) -> Result<Plan<'a>, NoMemory>
        ensures rest { IfOk result (λ plan. plans.rest plan ≡ plans.rest_repeated verb.value self value) }
        ensures left { IfOk result (λ plan. plans.left_of plan ≤ plans.left_repeated self) }
    {
        match self {
            Goal::Times(left) => times(alloc, verb, left, value),
            Goal::Match { before, left } => compared(alloc, room, verb, before, left, value),
            Goal::Climb {
                steps,
                values,
                left,
            } => climb(alloc, room, verb, steps, left, values, value),
        }
    }
}

/// Once more, with what becomes of the value.
pub(crate) fn again<'a>(
    alloc: Global,
    verb: Box<Term>,
    goal: Goal,
    y: Datum,
) -> Result<Plan<'a>, NoMemory>
    ensures rest { IfOk result (λ plan. plans.rest plan ≡ Ask (meant_again verb.value y) (on_value (plans.rest_repeated verb.value goal))) }
    ensures left { IfOk result (λ plan. plans.left_of plan ≡ suc (plans.left_repeated goal)) }
{
    let run = Box::new(alloc, Repetition { verb, goal })?;
    Ok(Plan::Again { run, y })
}

// So many times.
fn times<'a>(alloc: Global, verb: Box<Term>, count: u64, y: Datum) -> Result<Plan<'a>, NoMemory>
    ensures rest { IfOk result (λ plan. plans.rest plan ≡ meant.times verb.value count y) }
    ensures left { IfOk result (λ plan. plans.left_of plan ≤ count) }
{
    if count == 0 {
        return Ok(Plan::Done(Ok(y)));
    }
    again(alloc, verb, Goal::Times(count - 1), y)
}

// Until a value matches the one before, in so many times.
fn until_match<'a>(
    alloc: Global,
    room: &Room,
    verb: Box<Term>,
    count: u64,
    y: Datum,
) -> Result<Plan<'a>, NoMemory>
    ensures rest { IfOk result (λ plan. plans.rest plan ≡ meant.until_match verb.value count y) }
    ensures left { IfOk result (λ plan. plans.left_of plan ≤ count) }
{
    if count == 0 {
        return Ok(Plan::Done(Err(Fault::TimeLimit)));
    }
    let (before, y) = twice(alloc, room, y)?;
    let goal = Goal::Match {
        before,
        left: count - 1,
    };
    again(alloc, verb, goal, y)
}

fn matches(room: &Room, value: &Datum, other: &Datum) -> bool
    ensures { result ≡ meant_matches value.now other.now }
{
    value.array().match_with(room, other.array())
}

// What is left once the value is there, which is compared with the one before.
fn compared<'a>(
    alloc: Global,
    room: &Room,
    verb: Box<Term>,
    before: Datum,
    left: u64,
    value: Datum,
) -> Result<Plan<'a>, NoMemory>
    ensures rest { IfOk result (λ plan. plans.rest plan ≡ (if meant_matches value before then Return (Ok value) else meant.until_match verb.value left value)) }
    ensures left { IfOk result (λ plan. plans.left_of plan ≤ left) }
{
    if matches(room, &value, &before) {
        return Ok(Plan::Done(Ok(value)));
    }
    until_match(alloc, room, verb, left, value)
}

// As often as a number says, of the verb that undoes another.
fn undone<'a>(alloc: Global, verb: &Term, count: u64, y: Datum) -> Result<Plan<'a>, NoMemory>
    ensures rest { IfOk result (λ plan. plans.rest plan ≡ given (meant_obverse verb.now) (λ v. meant.times v count y)) }
    ensures left { IfOk result (λ plan. plans.left_of plan ≤ count) }
{
    match obverse(alloc, verb) {
        Ok(other) => times(alloc, Box::new(alloc, other)?, count, y),
        Err(Trouble::Fault(fault)) => Ok(Plan::Done(Err(fault))),
        Err(Trouble::NoMemory) => Err(NoMemory),
    }
}

// As often as an integer says.
fn number_of_times<'a>(
    alloc: Global,
    verb: Box<Term>,
    number: i64,
    y: Datum,
) -> Result<Plan<'a>, NoMemory>
    ensures rest { IfOk result (λ plan. plans.rest plan ≡ meant.number_of_times verb.value number y) }
    ensures left { IfOk result (λ plan. plans.left_of plan ≤ plans.most_counted) }
{
    let count = number.unsigned_abs();
    if number < 0 {
        return undone(alloc, &verb, count, y);
    }
    times(alloc, verb, count, y)
}

// As often as an integer says, or a list of them.
fn powered<'a>(
    alloc: Global,
    room: &mut Room,
    verb: Box<Term>,
    number: &Array,
    y: Datum,
) -> Result<Plan<'a>, NoMemory>
    ensures rest { IfOk result (λ plan. plans.rest plan ≡ meant.powered verb.value number.now.noun y) }
    ensures left { IfOk result (λ plan. plans.left_of plan ≤ plans.most_counted) }
{
    match integer(room, number) {
        Some(number) => number_of_times(alloc, verb, number, y),
        None => listed(alloc, room, verb, number, y),
    }
}

// So many repetitions are more than there are turns.
#[tactic(auto, unfolding(crate::specs::Repeating::most_repetitions))]
fn most_repetitions() -> u64
    ensures { result ≡ meant.most_repetitions }
{
    u64::MAX
}

// Whether the numbers are `_` alone.
fn is_endless(numbers: &[Option<i64>]) -> bool
    ensures { result ≡ meant.is_endless numbers.now }
{
    numbers.len() == 1 && numbers[0].is_none()
}

// Until a value matches the one before, where the numbers are `_` alone.
fn endless<'a>(
    alloc: Global,
    room: &Room,
    verb: Box<Term>,
    numbers: &RankList,
    y: Datum,
) -> Result<Plan<'a>, NoMemory>
    ensures { IfOk result (λ plan. plans.rest plan ≡ meant.endless verb.value numbers.now y) }
{
    if !is_endless(numbers.items()) {
        return Ok(Plan::Done(Err(Fault::Domain)));
    }
    until_match(alloc, room, verb, most_repetitions(), y)
}

// The verb that is repeated.
fn repeated(alloc: Global, room: &mut Room, verb: &Term, x: Option<Datum>) -> Result<Term, Trouble>
    ensures { Answers (meant.repeated verb.now x) result }
{
    let Ok(verb) = verb.copy(alloc) else {
        return Err(Trouble::NoMemory);
    };
    match x {
        None => Ok(verb),
        Some(x) => match x.into_array().into_tree(alloc, room) {
            Ok(noun) => conj(alloc, Con::Ampersand, Term::Noun(noun), verb),
            Err(NoMemory) => Err(Trouble::NoMemory),
        },
    }
}

/// A verb as often as the value of another says.
pub(crate) fn by_value<'a>(
    alloc: Global,
    room: &mut Room,
    verb: &Term,
    x: Option<Datum>,
    y: Datum,
    number: &Array,
) -> Result<Plan<'a>, NoMemory>
    ensures rest { IfOk result (λ plan. plans.rest plan ≡ given (meant.repeated verb.now x) (λ w. meant.powered w number.now.noun y)) }
    ensures left { IfOk result (λ plan. plans.left_of plan ≤ plans.most_counted) }
{
    match repeated(alloc, room, verb, x) {
        Ok(verb) => powered(alloc, room, Box::new(alloc, verb)?, number, y),
        Err(Trouble::Fault(fault)) => Ok(Plan::Done(Err(fault))),
        Err(Trouble::NoMemory) => Err(NoMemory),
    }
}

// A verb until a value matches the one before.
fn by_ranks<'a>(
    alloc: Global,
    room: &mut Room,
    verb: &Term,
    x: Option<Datum>,
    y: Datum,
    numbers: &RankList,
) -> Result<Plan<'a>, NoMemory>
    ensures { IfOk result (λ plan. plans.rest plan ≡ given (meant.repeated verb.now x) (λ w. meant.endless w numbers.now y)) }
{
    match repeated(alloc, room, verb, x) {
        Ok(verb) => endless(alloc, room, Box::new(alloc, verb)?, numbers, y),
        Err(Trouble::Fault(fault)) => Ok(Plan::Done(Err(fault))),
        Err(Trouble::NoMemory) => Err(NoMemory),
    }
}

/// `u^:n`, `u^:_` and `u^:v`.
pub(crate) fn power<'a>(
    alloc: Global,
    room: &mut Room,
    left: &'a Term,
    right: &'a Term,
    x: Option<Datum>,
    y: Datum,
) -> Result<Plan<'a>, NoMemory>
    ensures { IfOk result (λ plan. plans.rest plan ≡ meant.power left.now right.now x y) }
{
    match right {
        Term::Noun(number) => {
            let number = datum(alloc, number)?;
            by_value(alloc, room, left, x, y, number.array())
        }
        Term::Ranks(numbers) => by_ranks(alloc, room, left, x, y, numbers),
        _ => {
            let (x, other_x) = left_twice(alloc, room, x)?;
            let (y, other_y) = twice(alloc, room, y)?;
            Ok(Plan::Apply {
                verb: right,
                x,
                y,
                after: After::Power {
                    verb: left,
                    x: other_x,
                    y: other_y,
                },
            })
        }
    }
}
