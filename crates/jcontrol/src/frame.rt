ghost use Rattle.std.specs.Prelude.{◌≡◌, ◌⊎◌, ◌<◌, ◌++◌, ◌∷◌, [], take, length, Option, Bool, IfOk, OnOk, IfErr, ℕ, List};
ghost use Rattle.jcontrol.specs.Block.{Block};
ghost use Rattle.jcontrol.specs.Laid.{IsBody};
ghost use Rattle.jcontrol.specs.Machine.{Waits, Falls, Comes, Resumes, IsRefused, IsSound, Does, asked, counted, next_round};
ghost use Rattle.jcontrol.specs.Meaning.{Control, body, round_after};
ghost use Rattle.jcontrol.specs.declared.frame.Step.TheVariants as step;
ghost use Rattle.jdata.specs.declared.fault.Fault.TheVariants as fault;
ghost use Rattle.jdata.specs.declared.fault.Trouble.TheVariants as trouble;

use crate::prepared::{Act, Prepared, after, refuses};
use jdata::{Fault, NoMemory, Trouble};
use std::alloc::Global;

/// What the evaluator does next. A word is known by its number in the body, and so is a sentence.
#[derive(Clone, Copy, Debug, PartialEq, Eq)]
pub enum Step {
    /// Run this sentence. Its value is that of the innermost test in which it stands, if it stands in one.
    Sentence { number: u32, test: Option<u32> },
    /// A test starts: its value is an empty list of integers until a sentence in it has one.
    TestStart(u32),
    /// Tell whether the test holds.
    Test(u32),
    /// Tell whether the assertion holds.
    Assert(u32),
    /// Tell whether the item with this number, counted from 0, is there; at round 0 keep the test's value for the loop.
    Items { word: u32, round: u64 },
    /// Keep the test's value for this `select.`.
    Select(u32),
    /// Tell whether this case is taken.
    Case { word: u32, select: u32 },
    /// A round of a `while.` or `whilst.` starts.
    Round(u32),
    /// The body ends.
    Return,
}

/// What is told after a step: how its test came out, if it has one, or that it ended in a fault.
#[derive(Clone, Copy, Debug, PartialEq, Eq)]
pub enum Reply {
    Told(Option<bool>),
    Fault,
}

/// How far a body has come: the word that was done last, and the rounds of the open `for.` loops, outermost first.
#[derive(Drop)]
pub struct Frame {
    place: usize,
    rounds: Vec<u64>,
}

// Keeps the rounds of the outer loops, and puts the inner one's behind them. What loops that are over left is cut off.
fn count(rounds: &mut Vec<u64>, depth: usize, round: u64) -> Result<(), NoMemory>
    ensures { OnOk result (rounds.new.items ≡ take depth rounds.old.items ++ round ∷ []) }
{
    rounds.truncate(depth);
    match rounds.push(round) {
        Ok(()) => Ok(()),
        Err(_) => Err(NoMemory),
    }
}

// The number after this one, or the last number again.
fn round_after(round: u64) -> u64
    ensures { result ≡ round_after round }
{
    round.saturating_add(1)
}

// The number of the next round of the loop that stands in so many others.
fn next_round(rounds: &[u64], depth: usize) -> u64
    ensures { result ≡ next_round rounds.now depth }
{
    match rounds.get(depth) {
        Some(round) => round_after(*round),
        None => round_after(0),
    }
}

impl Frame {
    /// Before the first word of any body.
    #[tactic(auto, using(crate::proofs::Stands::starts))]
    pub fn new(alloc: Global) -> Frame
        ensures waits { (n : ℕ) (words : List Prepared) (block : Block) → IsBody words block → Waits words result.place result.rounds.items (λ t. body n block) }
        ensures first { result.place ≡ 0 }
    {
        Frame {
            place: 0,
            rounds: Vec::new(alloc),
        }
    }

    /// What comes next, once this was told of the step before.
    ///
    /// # Errors
    ///
    /// Assertion, exactly where an `assert.` is told not to hold. The frame then stands where it stood, and `fault`
    /// goes on from there.
    #[tactic(auto, using(crate::proofs::Steps::inside_start, crate::proofs::Steps::does_start, crate::proofs::Steps::falls_start, crate::proofs::Steps::is_refused, crate::proofs::Steps::not_refused))]
    pub fn next(&mut self, words: &[Prepared], test: Option<bool>) -> Result<Step, Trouble>
        requires sound { IsSound words.now }
        requires inside { self.old.place < length words.now }
        ensures inside { self.new.place < length words.now }
        ensures comes { IfOk result (λ step. (told : Option Bool → Control) → Waits words.now self.old.place self.old.rounds.items told → Comes words.now self.new.place self.new.rounds.items step (told test)) }
        ensures held { OnOk result (IsRefused words.now self.old.place test → ⊥) }
        ensures refused { IfErr result (λ why. (why ≡ trouble.NoMemory) ⊎ ((why ≡ trouble.Fault fault.Assertion) × IsRefused words.now self.old.place test)) }
        ensures falls { IfErr result (λ why. why ≡ trouble.Fault fault.Assertion → (told : Option Bool → Control) → Waits words.now self.old.place self.old.rounds.items told → Falls words.now self.new.place self.new.rounds.items (told test)) }
    {
        let last = words[self.place];
        if refuses(last.act, test) {
            return Err(Trouble::Fault(Fault::Assertion));
        }
        self.place = after(last.act, self.place, test);
        self.walk(words)
    }

    // Goes on to the next word that asks or ends.
    fn walk(&mut self, words: &[Prepared]) -> Result<Step, Trouble>
        requires sound { IsSound words.now }
        requires inside { self.old.place < length words.now }
        ensures inside { self.new.place < length words.now }
        ensures comes { IfOk result (λ step. (c : Control) → Does words.now c self.old.place self.old.rounds.items → Comes words.now self.new.place self.new.rounds.items step c) }
        ensures refused { IfErr result (λ why. why ≡ trouble.NoMemory) }
    {
        loop {
            let word = words[self.place];
            match word.act {
                Act::Go(to) => self.place = to,
                act => return self.ask(act),
            }
        }
    }

    fn ask(&mut self, act: Act) -> Result<Step, Trouble>
        ensures place { self.new.place ≡ self.old.place }
        ensures asks { IfOk result (λ step. (step ≡ asked act self.old.rounds.items) × (self.new.rounds.items ≡ counted act self.old.rounds.items)) }
        ensures refused { IfErr result (λ why. why ≡ trouble.NoMemory) }
    {
        let step = match act {
            Act::Sentence { number, test } => Step::Sentence { number, test },
            Act::TestStart { word, .. } => Step::TestStart(word),
            Act::Test { word, .. } => Step::Test(word),
            Act::Assert(word) => Step::Assert(word),
            Act::Round(word) => Step::Round(word),
            Act::First { word, depth, .. } => return self.items(word, depth, 0),
            Act::Next { word, depth, .. } => {
                let round = next_round(&self.rounds, depth);
                return self.items(word, depth, round);
            }
            Act::Select(word) => Step::Select(word),
            Act::Case { word, select, .. } => Step::Case { word, select },
            Act::Go(_) | Act::Return => Step::Return,
        };
        Ok(step)
    }

    // Asks for the item of this round, and keeps the round.
    fn items(&mut self, word: u32, depth: usize, round: u64) -> Result<Step, Trouble>
        ensures place { self.new.place ≡ self.old.place }
        ensures asks { IfOk result (λ asking. (asking ≡ step.Items word round) × (self.new.rounds.items ≡ take depth self.old.rounds.items ++ round ∷ [])) }
        ensures refused { IfErr result (λ why. why ≡ trouble.NoMemory) }
    {
        match count(&mut self.rounds, depth, round) {
            Ok(()) => Ok(Step::Items { word, round }),
            Err(_) => Err(Trouble::NoMemory),
        }
    }

    /// Goes on at the `catch.` block of the innermost `try.` whose own block is running, if there is one.
    pub fn fault(&mut self, words: &[Prepared]) -> bool
        requires sound { IsSound words.now }
        requires inside { self.old.place < length words.now }
        ensures inside { self.new.place < length words.now }
        ensures resumes { (c : Control) → Falls words.now self.old.place self.old.rounds.items c → Resumes words.now self.new.place self.new.rounds.items result c }
    {
        match words[self.place].catch {
            Some(place) => {
                self.place = place;
                true
            }
            None => false,
        }
    }
}
