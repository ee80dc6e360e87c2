//! The evaluator of an activity, as the sessions above it call it.
ghost use Rattle.std.specs.Prelude.{◌≡◌, length, IfOk, IfErr, IfSome};
ghost use Rattle.juses.specs.Closing.{ClosedWith};
ghost use Rattle.juses.specs.Events.{Runs, RunsWhole};
ghost use Rattle.juses.specs.Keys.{base_locale};
ghost use Rattle.juses.specs.Program.{Ask, Return};
ghost use Rattle.juses.specs.Told.{handed_out, closed_with};
ghost use Rattle.juses.specs.declared.uses.Cause.TheVariants as causes;
ghost use Rattle.jeval.specs.Activity.{IsAsked, wish_of};
ghost use Rattle.jeval.specs.Applying.{applied, most_levels};
ghost use Rattle.jeval.specs.Made.{beside, settled};
ghost use Rattle.jeval.specs.Sentence as sentences;

use crate::activity::Activity;
use crate::end::EvalEnd;
use crate::sentence::Shown;
use crate::state::State;
use jarray::{Array, Room};
use jdata::{Bytes, Name, Path};
use jterm::{Datum, Term};
use juses::{Cause, Halt, Reply, Use, Uses};
use std::alloc::Global;
use std::marker::Model;

/// Evaluates the sentences of an activity, and makes their uses.
pub struct Eval<U: Uses> {
    activity: Activity<U>,
    thread: u16,
    turns: u64,
}

impl<U: Uses> Model for Eval<U> {
    ghost use Rattle.jeval.specs.Eval.{Evaluator};

    ghost Value = { Evaluator U };

    ghost view = { λ e. record { uses = e.activity.uses; who = e.activity.who; thread = e.thread; turns = e.turns; state = e.activity.state } };
}

// The first locale.
fn base(alloc: Global) -> Option<Name>
    ensures { IfSome result (λ name. name ≡ base_locale) }
{
    match Vec::from_slice(alloc, b"base") {
        Ok(bytes) => Some(Name::of(bytes)),
        Err(_) => None,
    }
}

impl<U: Uses> Eval<U> {
    ghost use Rattle.jeval.specs.Eval.{IsVerb, begun, given, moved_on, noun_of};

    /// The evaluator of an activity that makes its uses here, on the thread of the uses, with this many turns for each
    /// sentence. Where there is no memory the uses are given back as they were.
    pub fn new(alloc: Global, uses: U, who: Path, thread: u16, turns: u64) -> Result<Eval<U>, U>
        requires { thread ≡ U.thread uses }
        ensures ok { IfOk result (λ eval. eval ≡ begun uses who thread turns) }
        ensures err { IfErr result (λ back. back ≡ uses) }
    {
        let Some(here) = base(alloc) else {
            return Err(uses);
        };
        let activity = Activity {
            alloc,
            room: Room::none(),
            who,
            uses,
            state: State { here, left: turns },
        };
        Ok(Eval {
            activity,
            thread,
            turns,
        })
    }

    #[tactic(auto, unfolding(crate::specs::Sentence::sentence))]
    /// Runs a sentence with its lines, and prints its result or its fault. Want of memory closes the session. No word
    /// takes further lines yet, so there is one.
    pub fn sentence(&mut self, lines: &[Bytes]) -> Result<Shown, Halt>
        requires { length lines.now ≡ 1 }
        ensures uses { RunsWhole U.leads U.refuses self.old.who self.old.uses self.new.uses (sentences.sentence self.old.turns lines.now self.old.state) (beside result self.new.state) }
        ensures same { self.new ≡ moved_on self.old self.new.uses self.new.state }
    {
        self.activity.run_whole(self.turns, lines[0].items())
    }

    /// Applies a verb to its arguments, with the turns that are left. Want of memory closes the session.
    pub fn apply(&mut self, verb: &Term, x: Option<Array>, y: Array) -> Result<Array, EvalEnd>
        requires { IsVerb verb.now }
        ensures uses { RunsWhole U.leads U.refuses self.old.who self.old.uses self.new.uses (applied most_levels verb.now (noun_of x) y.noun self.old.state) (settled (given result) self.new.state) }
        ensures same { self.new ≡ moved_on self.old self.new.uses self.new.state }
    {
        let x = match x {
            Some(x) => Some(Datum::of(x)),
            None => None,
        };
        match self.activity.apply_whole(verb, x, Datum::of(y)) {
            Ok(value) => Ok(value.into_array()),
            Err(end) => Err(end),
        }
    }

    /// Makes one use of the activity.
    pub fn ask(&mut self, asked: Use) -> Result<Reply, Halt>
        requires { IsAsked asked }
        ensures uses { Runs U.leads U.refuses self.old.who self.old.uses self.new.uses (Ask (wish_of asked) Return) result }
        ensures same { self.new ≡ moved_on self.old self.new.uses self.old.state }
    {
        self.activity.call(asked)
    }

    /// The bytes that were printed and not taken yet, in order. It takes no memory.
    pub fn take_prints(&mut self) -> Bytes
        requires { U.heads self.old.uses }
        ensures uses { U.leads self.old.uses (handed_out result) self.new.uses }
        ensures all { U.drained self.new.uses }
        ensures same { self.new ≡ moved_on self.old self.new.uses self.old.state }
    {
        self.activity.uses.take_prints()
    }

    /// Closes the session. The first cause counts.
    pub fn close(&mut self, cause: Cause)
        requires { cause ≡ causes.WriteFault → U.heads self.old.uses }
        ensures uses { U.leads self.old.uses (closed_with cause) self.new.uses }
        ensures closed { ClosedWith U.refuses self.old.uses self.new.uses cause }
        ensures same { self.new ≡ moved_on self.old self.new.uses self.old.state }
    {
        self.activity.uses.close(cause);
    }

    /// What it made its uses of.
    pub fn finish(self) -> U
        ensures { result ≡ self.uses }
    {
        let Eval {
            activity,
            thread: _,
            turns: _,
        } = self;
        let Activity {
            alloc: _,
            room: _,
            who: _,
            uses,
            state: _,
        } = activity;
        uses
    }
}
