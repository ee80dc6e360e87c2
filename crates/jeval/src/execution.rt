//! The execution of a sentence: one loop that reads words and does what rows ask for.
ghost use Rattle.std.specs.Prelude.{◌≡◌, ◌⊎◌, ◌∷◌, [], false, MatchOption};
ghost use Rattle.jeval.specs.Makings.{term_of as stands_for};
ghost use Rattle.jeval.specs.Execution as execution;
ghost use Rattle.jeval.specs.Made.{Makes};
ghost use Rattle.jeval.specs.Targets as targets;

use crate::activity::Activity;
use crate::building::{made, term_of};
use crate::end::{EvalEnd, NO_MEMORY};
use crate::queue::Queued;
use crate::rows::{Deed, deed_of};
use crate::stack::{Parts, Stack, pushed};
use crate::targets::spread;
use jarray::Array;
use jdata::{Fault, Name, NoMemory};
use jparse::Act;
use jterm::{Datum, Locative, Part, Term};
use juses::{Reply, Uses};

fn plain(name: Name) -> Locative
    ensures { result ≡ execution.plain_reference name }
{
    Locative { name, place: None }
}

fn reference(name: Name, found: bool) -> Part
    ensures { result ≡ execution.reference_part name found }
{
    Part::Verb {
        term: Term::Name(plain(name)),
        found,
    }
}

// What a name is as it is moved.
fn value_of(name: Name, reply: Reply) -> Part
    ensures { result ≡ execution.value_of name reply }
{
    match reply {
        Reply::Named(Term::Noun(value)) => Part::Noun(Datum::of(Array::of(value))),
        Reply::Named(Term::Ranks(numbers)) => Part::Ranks(numbers),
        Reply::Named(Term::Adverb(word)) => Part::Adverb(word),
        Reply::Named(Term::Conj(word)) => Part::Conj(word),
        Reply::Named(_) => reference(name, true),
        _ => reference(name, false),
    }
}

fn is_assignment(row: u8) -> bool
    ensures { result ≡ execution.is_assignment row }
{
    row == 7
}

// The next name and its value, while there are both.
fn next_share(names: &mut Stack<Name>, values: &mut Stack<Term>) -> Option<(Name, Term)>
    ensures { MatchOption result ((names.old ≡ []) ⊎ (values.old ≡ [])) (λ share. (names.old ≡ share.0 ∷ names.new) × (values.old ≡ share.1 ∷ values.new)) }
{
    let name = names.pop()?;
    let value = values.pop()?;
    Some((name, value))
}

impl<U: Uses> Activity<U> {
    // Looks a name up and moves its value.
    fn move_value(&mut self, name: Name, parts: Parts) -> Result<Parts, EvalEnd>
        ensures { Makes U.leads U.refuses self.old self.new (execution.moved_value name parts) result }
    {
        let reply = self.read(&name)?;
        pushed(parts, value_of(name, reply))
    }

    // Moves a name: it is a target where a copula comes next, and else it is looked up.
    fn move_name(&mut self, name: Name, parts: Parts) -> Result<Parts, EvalEnd>
        ensures { Makes U.leads U.refuses self.old self.new (execution.moved_name name parts) result }
    {
        if parts.awaits_target() {
            pushed(parts, Part::Target(plain(name)))
        } else {
            self.move_value(name, parts)
        }
    }

    fn move_in(&mut self, item: Queued, parts: Parts) -> Result<Parts, EvalEnd>
        ensures { Makes U.leads U.refuses self.old self.new (execution.moved_in item parts) result }
    {
        match item {
            Queued::Ready(part) => pushed(parts, part),
            Queued::Named(name) => self.move_name(name, parts),
        }
    }

    // Gives a name what a part stands for, which stays.
    fn assign(&mut self, name: Name, value: Part, rest: Parts) -> Result<Parts, EvalEnd>
        ensures { Makes U.leads U.refuses self.old self.new (execution.assigned name (stands_for value) value rest) result }
    {
        match term_of(self.alloc, &self.room, &value) {
            Ok(Some(term)) => {
                self.write(name, term)?;
                pushed(rest, value)
            }
            Ok(None) => Err(EvalEnd::Fault(Fault::Syntax)),
            Err(NoMemory) => Err(NO_MEMORY),
        }
    }

    // Gives the names their values one after another.
    fn write_all(
        &mut self,
        mut names: Stack<Name>,
        mut values: Stack<Term>,
        value: Part,
        rest: Parts,
    ) -> Result<Parts, EvalEnd>
        ensures { Makes U.leads U.refuses self.old self.new (execution.all_written names values (value ∷ rest)) result }
    {
        let after = match pushed(rest, value) {
            Ok(after) => after,
            Err(end) => return Err(end),
        };
        while let Some((name, share)) = next_share(&mut names, &mut values) {
            drop(self.write(name, share)?);
        }
        Ok(after)
    }

    // Gives the names of a quoted target their shares of a part, which stays.
    fn assign_all(&mut self, target: &Array, value: Part, rest: Parts) -> Result<Parts, EvalEnd>
        ensures { Makes U.leads U.refuses self.old self.new (execution.all_assigned (targets.spread target.now.noun value) (value ∷ rest)) result }
    {
        let (names, values) = spread(self.alloc, &mut self.room, target, &value)?;
        self.write_all(names, values, value, rest)
    }

    // Does what a row asks for.
    fn does(&mut self, levels: u64, deed: Deed) -> Result<Parts, EvalEnd>
        ensures { Makes U.leads U.refuses self.old self.new (execution.done levels deed) result }
    {
        match deed {
            Deed::Apply { verb, x, y, around } => {
                let value = self.apply(levels, &verb, x, y)?;
                around.filled(Part::Noun(value))
            }
            Deed::Make { making, around } => {
                let term = made(self.alloc, &mut self.room, making)?;
                around.filled(Part::Verb { term, found: true })
            }
            Deed::Assign { name, value, rest } => self.assign(name, value, rest),
            Deed::Spread {
                target,
                value,
                rest,
            } => self.assign_all(target.array(), value, rest),
            Deed::Leave { value, rest } => pushed(rest, value),
            Deed::Refuse(fault) => Err(EvalEnd::Fault(fault)),
        }
    }

    // A row acts on the parts.
    fn act(&mut self, levels: u64, row: u8, parts: Parts) -> Result<Parts, EvalEnd>
        ensures { Makes U.leads U.refuses self.old self.new (execution.acted levels row parts) result }
    {
        if !self.state.take_turn() {
            return Err(EvalEnd::Fault(Fault::TimeLimit));
        }
        let deed = deed_of(row, parts);
        self.does(levels, deed)
    }

    /// Executes the words that wait, with so many levels left for what they apply. The answer has the parts that are
    /// left, and whether the last act was an assignment.
    pub(crate) fn execute(
        &mut self,
        levels: u64,
        mut queue: Stack<Queued>,
    ) -> Result<(Parts, bool), EvalEnd>
        ensures { Makes U.leads U.refuses self.old self.new (execution.executed levels queue [] false) result }
    {
        let mut parts = Stack::new(self.alloc);
        let mut assigned = false;
        loop {
            match parts.step(queue.len()) {
                Act::Shift => {
                    let Some(item) = queue.pop() else {
                        unreachable!()
                    };
                    parts = self.move_in(item, parts)?;
                }
                Act::Row(row) => {
                    parts = self.act(levels, row, parts)?;
                    assigned = is_assignment(row);
                }
                Act::Done => return Ok((parts, assigned)),
                Act::Syntax => return Err(EvalEnd::Fault(Fault::Syntax)),
            }
        }
    }
}
