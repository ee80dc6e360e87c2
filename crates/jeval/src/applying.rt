//! The application of verbs.
ghost use Rattle.std.specs.Prelude.{◌≡◌, ℕ, suc, length, option_map, IfErr, IfNone, IfOk, IfSome, None, Ok};
ghost use Rattle.jdata.specs.Noun.{product};
ghost use Rattle.jeval.specs.Action.{with_turn};
ghost use Rattle.jeval.specs.Applying as applying;
ghost use Rattle.jeval.specs.Cells as celled;
ghost use Rattle.jplan.specs.Arguments.{x_in};
ghost use Rattle.jplan.specs.Modifiers.{derived as meant_derived};
ghost use Rattle.jplan.specs.Plans as plans;
ghost use Rattle.juses.specs.Events.{RunsWhole};
ghost use Rattle.jeval.specs.Made.{Makes, settled};
ghost use Rattle.jeval.specs.declared.end.EvalEnd.TheVariants as end;
ghost use Rattle.juses.specs.declared.uses.Halt.TheVariants as halts;

use crate::activity::Activity;
use crate::cells::{alone, finished, parted};
use crate::direct::{direct, list, scanned};
use crate::end::{EvalEnd, NO_MEMORY, ended, heard};
use crate::verbs::primitive;
use jarray::Array;
use jdata::{Fault, Name, NoMemory, Primitive};
use jframe::Results;
use jplan::{Arguments, Plan, derived};
use jterm::{Datum, Locative, Term, ranks};
use juses::{Reply, Uses};

/// How many applications of verbs that aren't primitive may be nested.
pub(crate) const MOST_LEVELS: u64 = 200;

/// How a term is applied.
#[derive(Clone, Copy)]
enum Way {
    Primitive(Primitive),
    Constant(i64),
    /// With a turn and a level: a reference, a train, or a modifier with its operands.
    Derived,
    Refused(Fault),
}

fn way_of(verb: &Term) -> Way
    ensures { result ≡ applying.way_of verb.now }
{
    match verb {
        Term::Verb(verb) => Way::Primitive(*verb),
        Term::Const(number) => Way::Constant(*number),
        Term::Noun(_) => Way::Refused(Fault::Domain),
        Term::Ranks(_) => Way::Refused(Fault::Domain),
        Term::Adverb(_) => Way::Refused(Fault::Domain),
        Term::Conj(_) => Way::Refused(Fault::Domain),
        _ => Way::Derived,
    }
}

fn reference_in(verb: &Term) -> Option<&Locative>
    ensures { option_map (λ reference. reference.now) result ≡ applying.reference_in verb.now }
{
    match verb {
        Term::Name(reference) => Some(reference),
        _ => None,
    }
}

// The verb that a name has as its value.
fn verb_replied(reply: Reply) -> Result<Term, Fault>
    ensures { result ≡ applying.verb_replied reply }
{
    match reply {
        Reply::Named(Term::Noun(_)) => Err(Fault::Domain),
        Reply::Named(Term::Ranks(_)) => Err(Fault::Domain),
        Reply::Named(Term::Adverb(_)) => Err(Fault::Domain),
        Reply::Named(Term::Conj(_)) => Err(Fault::Domain),
        Reply::Named(verb) => Ok(verb),
        _ => Err(Fault::Value),
    }
}

// The ranks at which a verb takes its arguments.
fn limits(verb: &Term, x: &Option<Datum>) -> (Option<i64>, Option<i64>)
    ensures { result ≡ celled.limits verb.now x.now }
{
    let [monad, left, right] = ranks(verb);
    match x {
        Some(_) => (left, right),
        None => (None, monad),
    }
}

impl<U: Uses> Activity<U> {
    // The verb that a name has as its value now.
    fn sought(&mut self, name: &Name) -> Result<Term, EvalEnd>
        ensures { Makes U.leads U.refuses self.old self.new (applying.sought name.now) result }
    {
        let reply = self.read(name)?;
        match verb_replied(reply) {
            Ok(verb) => Ok(verb),
            Err(fault) => Err(EvalEnd::Fault(fault)),
        }
    }

    // The verb that a reference stands for now.
    fn referred(&mut self, reference: &Locative) -> Result<Term, EvalEnd>
        ensures { Makes U.leads U.refuses self.old self.new (applying.referred reference.now) result }
    {
        match &reference.place {
            None => self.sought(&reference.name),
            Some(_) => Err(EvalEnd::Fault(Fault::Nonce)),
        }
    }

    // A verb once more, which takes a turn.
    #[cycle(apply)]
    fn repeat(&mut self, levels: u64, verb: &Term, y: Datum) -> Result<Datum, EvalEnd>
        ensures { Makes U.leads U.refuses self.old self.new (with_turn (applying.applied levels verb.now None y)) result }
    {
        if !self.state.take_turn() {
            return Err(EvalEnd::Fault(Fault::TimeLimit));
        }
        self.apply(levels, verb, None, y)
    }

    // Applies what a plan asks for, with so many levels for each.
    #[cycle(apply)]
    fn follow(&mut self, levels: u64, plan: Plan<'_>) -> Result<Datum, EvalEnd>
        ensures { Makes U.leads U.refuses self.old self.new (applying.ran (applying.applied levels) (plans.rest plan.entry)) result }
    {
        let mut at = plan;
        loop {
            match at {
                Plan::Done(answer) => return ended(answer),
                Plan::Undo { verb, y } => {
                    let answer = heard(self.apply(levels, &verb, None, y))?;
                    return ended(answer);
                }
                Plan::Again { run, y } => {
                    let answer = heard(self.repeat(levels, run.verb(), y))?;
                    let Ok(next) = Box::into_inner(run).resume(self.alloc, &mut self.room, answer)
                    else {
                        return Err(NO_MEMORY);
                    };
                    at = next;
                }
                Plan::Apply { verb, x, y, after } => {
                    let answer = heard(self.apply(levels, verb, x, y))?;
                    let Ok(next) = after.resume(self.alloc, &mut self.room, answer) else {
                        return Err(NO_MEMORY);
                    };
                    at = next;
                }
            }
        }
    }

    // The values of a verb on the pieces of a list at once, where there are turns for all of them. It wants a level.
    fn scan_down(
        &mut self,
        verb: &Term,
        x: &Option<Datum>,
        y: &Datum,
    ) -> Result<Option<Datum>, EvalEnd>
        ensures some { IfOk result (λ made. IfSome made (λ value. (levels : ℕ) → Makes U.leads U.refuses self.old self.new (applying.ran (applying.applied (suc levels)) (meant_derived verb.now x.now y.now)) (Ok value))) }
        ensures none { IfOk result (λ made. IfNone made (self.new ≡ self.old)) }
        ensures err { IfErr result (λ why. (why ≡ end.Halt halts.NoMemory) × (self.new ≡ self.old)) }
    {
        let Ok(Some(values)) = scanned(self.alloc, &self.room, verb, x, y) else {
            return Ok(None);
        };
        let count = values.items().len() as u64;
        let Ok(value) = list(self.alloc, values) else {
            return Err(NO_MEMORY);
        };
        if self.state.take_turns(count) {
            Ok(Some(value))
        } else {
            Ok(None)
        }
    }

    // The same, with so many levels.
    fn scan(
        &mut self,
        levels: u64,
        verb: &Term,
        x: &Option<Datum>,
        y: &Datum,
    ) -> Result<Option<Datum>, EvalEnd>
        ensures some { IfOk result (λ made. IfSome made (λ value. Makes U.leads U.refuses self.old self.new (applying.ran (applying.applied levels) (meant_derived verb.now x.now y.now)) (Ok value))) }
        ensures none { IfOk result (λ made. IfNone made (self.new ≡ self.old)) }
        ensures err { IfErr result (λ why. (why ≡ end.Halt halts.NoMemory) × (self.new ≡ self.old)) }
    {
        if levels == 0 {
            return Ok(None);
        }
        self.scan_down(verb, x, y)
    }

    // What a derived verb does, by its plan.
    #[cycle(apply)]
    fn plan(
        &mut self,
        levels: u64,
        verb: &Term,
        x: Option<Datum>,
        y: Datum,
    ) -> Result<Datum, EvalEnd>
        ensures { Makes U.leads U.refuses self.old self.new (applying.ran (applying.applied levels) (meant_derived verb.now x y)) result }
    {
        match derived(self.alloc, &mut self.room, verb, x, y) {
            Ok(plan) => self.follow(levels, plan),
            Err(NoMemory) => Err(NO_MEMORY),
        }
    }

    // What a derived verb does, with so many levels for what it applies.
    #[cycle(apply)]
    fn unfold(
        &mut self,
        levels: u64,
        verb: &Term,
        x: Option<Datum>,
        y: Datum,
    ) -> Result<Datum, EvalEnd>
        ensures { Makes U.leads U.refuses self.old self.new (applying.ran (applying.applied levels) (meant_derived verb.now x y)) result }
    {
        if let Some(number) = direct(&self.room, verb, &x, &y) {
            return Ok(Datum::of(Array::atom(number)));
        }
        match self.scan(levels, verb, &x, &y)? {
            Some(value) => Ok(value),
            None => self.plan(levels, verb, x, y),
        }
    }

    // What a reference stands for, or what a derived verb is made of, with so many levels for it.
    #[cycle(apply)]
    fn descend(
        &mut self,
        levels: u64,
        verb: &Term,
        x: Option<Datum>,
        y: Datum,
    ) -> Result<Datum, EvalEnd>
        ensures { Makes U.leads U.refuses self.old self.new (applying.layer (applying.applied levels) verb.now x y) result }
    {
        match reference_in(verb) {
            Some(reference) => {
                let verb = self.referred(reference)?;
                self.apply(levels, &verb, x, y)
            }
            None => self.unfold(levels, verb, x, y),
        }
    }

    // A derived verb on one cell, with so many levels left.
    #[cycle(apply)]
    fn nest(
        &mut self,
        levels: u64,
        verb: &Term,
        x: Option<Datum>,
        y: Datum,
    ) -> Result<Datum, EvalEnd>
        ensures { Makes U.leads U.refuses self.old self.new (applying.nested levels verb.now x y) result }
    {
        if !self.state.take_turn() {
            return Err(EvalEnd::Fault(Fault::TimeLimit));
        }
        if levels == 0 {
            return Err(EvalEnd::Fault(Fault::Stack));
        }
        self.descend(levels - 1, verb, x, y)
    }

    // Where the frame has a 0, the verb is applied once, to cells of fills.
    #[cycle(apply)]
    fn on_fills(&mut self, levels: u64, verb: &Term, cells: &Arguments) -> Result<Datum, EvalEnd>
        requires { product cells.now.frame ≡ 0 }
        ensures { Makes U.leads U.refuses self.old self.new (celled.on_fills (applying.nested levels verb.now) cells.now.left cells.now.right (x_in cells.now.x) cells.now.y.value cells.now.frame) result }
    {
        let Ok((x, y)) = cells.fills(self.alloc, &self.room) else {
            return Err(NO_MEMORY);
        };
        let answer = heard(self.nest(levels, verb, x, y))?;
        alone(self.alloc, &mut self.room, cells.frame(), answer)
    }

    // The verb on each cell, up to the first fault.
    #[cycle(apply)]
    fn each_cell(&mut self, levels: u64, verb: &Term, cells: &Arguments) -> Result<Results, EvalEnd>
        ensures made { Makes U.leads U.refuses self.old self.new (celled.on_each (applying.nested levels verb.now) cells.now.left cells.now.right (x_in cells.now.x) cells.now.y.value cells.now.frame) result }
        ensures long { IfOk result (λ results. length results ≡ product cells.now.frame) }
    {
        // a frame has no more cells than the limit says
        let _axes = cells.frame().axes();
        let mut results = Results::new(self.alloc);
        for at in 0..cells.frame().product() {
            let Ok((x, y)) = cells.get(self.alloc, &self.room, at) else {
                return Err(NO_MEMORY);
            };
            let value = self.nest(levels, verb, x, y)?;
            if results.push(&mut self.room, value.into_array()).is_err() {
                return Err(NO_MEMORY);
            }
        }
        Ok(results)
    }

    // A derived verb on its arguments in cells of these ranks.
    #[cycle(apply)]
    fn in_cells(
        &mut self,
        levels: u64,
        verb: &Term,
        left: Option<i64>,
        right: Option<i64>,
        x: Option<Datum>,
        y: Datum,
    ) -> Result<Datum, EvalEnd>
        ensures { Makes U.leads U.refuses self.old self.new (celled.in_cells (applying.nested levels verb.now) left right x y) result }
    {
        let cells = parted(self.alloc, &self.room, left, right, x, y)?;
        if cells.frame().product() == 0 {
            return self.on_fills(levels, verb, &cells);
        }
        let results = self.each_cell(levels, verb, &cells)?;
        finished(results, cells.frame())
    }

    // A derived verb at its ranks.
    #[cycle(apply)]
    fn at_ranks(
        &mut self,
        levels: u64,
        verb: &Term,
        x: Option<Datum>,
        y: Datum,
    ) -> Result<Datum, EvalEnd>
        ensures { Makes U.leads U.refuses self.old self.new (celled.at_ranks (applying.nested levels verb.now) (celled.limits verb.now x) x y) result }
    {
        match limits(verb, &x) {
            (None, None) => self.nest(levels, verb, x, y),
            (Some(left), right) => self.in_cells(levels, verb, Some(left), right, x, y),
            (None, Some(right)) => self.in_cells(levels, verb, None, Some(right), x, y),
        }
    }

    /// A verb on its arguments, with so many levels left for what it nests.
    #[cycle(apply)]
    pub(crate) fn apply(
        &mut self,
        levels: u64,
        verb: &Term,
        x: Option<Datum>,
        y: Datum,
    ) -> Result<Datum, EvalEnd>
        ensures { Makes U.leads U.refuses self.old self.new (applying.applied levels verb.now x y) result }
    {
        match way_of(verb) {
            Way::Primitive(verb) => primitive(self.alloc, &mut self.room, verb, x, y),
            Way::Constant(number) => Ok(Datum::of(Array::atom(number))),
            Way::Refused(fault) => Err(EvalEnd::Fault(fault)),
            Way::Derived => self.at_ranks(levels, verb, x, y),
        }
    }

    /// A verb on its arguments, after which the session is closed if there was no memory.
    pub(crate) fn apply_whole(
        &mut self,
        verb: &Term,
        x: Option<Datum>,
        y: Datum,
    ) -> Result<Datum, EvalEnd>
        ensures same { self.new.who ≡ self.old.who }
        ensures made { RunsWhole U.leads U.refuses self.old.who self.old.uses self.new.uses (applying.applied applying.most_levels verb.now x y self.old.state) (settled result self.new.state) }
    {
        match self.apply(MOST_LEVELS, verb, x, y) {
            Ok(value) => Ok(value),
            Err(EvalEnd::Fault(fault)) => Err(EvalEnd::Fault(fault)),
            Err(EvalEnd::Halt(halt)) => {
                self.close_after(halt);
                Err(EvalEnd::Halt(halt))
            }
        }
    }
}
