//! Uses in turns.
ghost use Rattle.std.specs.Prelude.{◌≡◌, [], true, drop, IsTrue, IsFalse};
ghost use Rattle.std.proofs.Common.{◌∙◌};
ghost use Rattle.juses.specs.Told.{handed_out};
ghost use Rattle.jpass.specs.Timed.{MayHelp, HelpsAll, is_end, is_opening};
ghost use Rattle.jpass.specs.Used.{Leads, Asked, Sought, Refused, printed_in, out_of};
ghost use Rattle.jpass.specs.UsedLaws.{leads_none, leads_on};

use crate::helped::Helped;
use crate::shared::SharedDesk;
use crate::turns::{ask, hand_out, shut, take};
use jdata::{Bytes, Path};
use jturn::{Turn, TurnPass};
use juses::{Cause, Halt, Reply, Use, Uses, Why, Work};
use std::marker::Model;
use std::sync::Wait;

/// A pass of a turn on a thread, with what it needs for waiting. It waits where the desk has no
/// reply, and helps at most 8 tasks, one inside another.
#[derive(Drop)]
pub struct Pass<'a, R> {
    rt: &'a R,
    turn: &'a Turn<SharedDesk>,
    // away while it has its turn
    pass: Option<TurnPass<SharedDesk>>,
    thread: u16,
    helped: Helped,
}

impl<'a, R> Model for Pass<'a, R> {
    ghost use Rattle.jpass.specs.Used.{Taken, the_pass, is_here};
    ghost use Rattle.std.specs.Prelude.{◌≡◌, true};

    ghost Value = { Taken };

    ghost use Rattle.juses.specs.contracts.uses.Entry as entry;
    ghost use Rattle.std.specs.Coded.{codes};

    ghost coded = { Prim.hlevel (codes, entry.the_row.coded) };

    ghost view = { λ p. record { pass = the_pass p.pass; thread = p.thread; helped = p.helped } };

    ghost invariant = { λ p. (is_here p.pass ≡ true) × ((the_pass p.pass).turn ≡ p.turn.now.name) };
}

impl<'a, R: Wait> Pass<'a, R> {
    /// Uses of this pass, on this thread.
    pub fn new(
        rt: &'a R,
        turn: &'a Turn<SharedDesk>,
        pass: TurnPass<SharedDesk>,
        thread: u16,
    ) -> Pass<'a, R>
        requires { pass.turn ≡ turn.now.name }
        ensures { result ≡ record { pass = pass; thread = thread; helped = [] } }
    {
        Pass {
            rt,
            turn,
            pass: Some(pass),
            thread,
            helped: Helped::none(),
        }
    }

    /// The pass of the turn.
    pub fn back(self) -> TurnPass<SharedDesk>
        ensures { result ≡ self.entry.pass }
    {
        let Pass {
            rt: _,
            turn: _,
            pass,
            thread: _,
            helped: _,
        } = self;
        match pass {
            Some(pass) => pass,
            None => unreachable!(),
        }
    }

    /// Sleeps until a change that this pass's last turn has not seen. It may also return for no
    /// reason, and nothing is said of when it returns.
    pub fn rest(&mut self)
        ensures { self.new ≡ self.old }
    {
        match self.pass.take() {
            Some(pass) => self.pass = Some(self.turn.park(self.rt, pass)),
            None => unreachable!(),
        }
    }

    // Asks in turns.
    fn asks(&mut self, who: &Path, asked: Use) -> Result<Reply, Halt>
        ensures answer { Asked self.old.thread self.old.pass who.now asked self.new.pass result }
        ensures same { (self.new.thread ≡ self.old.thread) × (self.new.helped ≡ self.old.helped) }
    {
        match self.pass.take() {
            Some(pass) => {
                let (pass, answer) = ask(self.rt, self.turn, pass, self.thread, who, asked);
                self.pass = Some(pass);
                answer
            }
            None => unreachable!(),
        }
    }

    // Takes a task in turns.
    fn takes(&mut self, why: &Why) -> Result<Option<(Path, Work)>, Halt>
        ensures answer { Sought Refused self.old.thread self.old.pass why.now self.new.pass result }
        ensures same { (self.new.thread ≡ self.old.thread) × (self.new.helped ≡ self.old.helped) }
    {
        match self.pass.take() {
            Some(pass) => {
                let (pass, answer) = take(self.rt, self.turn, pass, self.thread, why);
                self.pass = Some(pass);
                answer
            }
            None => unreachable!(),
        }
    }

    // It helps as many as it may, and one more is asked for.
    fn helps_all(&self, why: &Why) -> bool
        ensures yes { IsTrue result → HelpsAll self.now.helped why.now }
        ensures no { IsFalse result → MayHelp self.now.helped why.now }
    {
        match why {
            Why::Opening(_) => self.helped.is_full(),
            Why::Started(_) | Why::Working(_) | Why::Ending => false,
        }
    }
}

fn is_end(asked: &Use) -> bool
    ensures { result ≡ is_end asked.now }
{
    matches!(asked, Use::End { .. })
}

fn is_opening(why: &Why) -> bool
    ensures { result ≡ is_opening why.now }
{
    matches!(why, Why::Opening(_))
}

impl<R: Wait> Uses for Pass<'_, R> {
    ghost leads = { Leads };

    ghost drained = { λ s. out_of s.pass ≡ printed_in s.pass };

    ghost refuses = { λ s who asked halt. Refused s.pass halt };

    ghost delays = { λ s why halt. Refused s.pass halt };

    ghost heads = { λ s. s.pass.is_marker ≡ true };

    ghost thread = { λ s. s.thread };

    /// Answers one use, in a turn. Where there is no reply it waits.
    fn call(&mut self, who: Path, asked: Use) -> Result<Reply, Halt> {
        let ends = is_end(&asked);
        match self.asks(&who, asked) {
            Ok(reply) => {
                self.helped.end(ends, &who);
                Ok(reply)
            }
            Err(halt) => Err(halt),
        }
    }

    /// Begins in a turn the task that is asked for. Before an opening none is given where as many
    /// are helped as may be, and at the end it waits until each started task has ended.
    fn due(&mut self, _who: Path, why: Why) -> Result<Option<(Path, Work)>, Halt> {
        if self.helps_all(&why) {
            return Ok(None);
        }
        match self.takes(&why) {
            Ok(Some(given)) => {
                self.helped.begin(is_opening(&why), &given.0);
                Ok(Some(given))
            }
            Ok(None) => Ok(None),
            Err(halt) => Err(halt),
        }
    }

    /// The printed bytes that weren't taken yet, in order: all that were printed in what is then
    /// seen, from those on that were handed out.
    fn take_prints(&mut self) -> Bytes
        requires { self.old.pass.is_marker ≡ true }
        ensures leads { Leads self.old (handed_out result) self.new }
        ensures all { out_of self.new.pass ≡ printed_in self.new.pass }
        ensures bytes { result ≡ drop self.old.pass.mark.0 (printed_in self.new.pass) }
    {
        match self.pass.take() {
            Some(pass) => {
                let (pass, bytes) = hand_out(self.rt, self.turn, pass);
                self.pass = Some(pass);
                bytes
            }
            None => unreachable!(),
        }
    }

    /// Closes the session. The first cause counts.
    fn close(&mut self, cause: Cause) {
        match self.pass.take() {
            Some(pass) => self.pass = Some(shut(self.rt, self.turn, pass, cause)),
            None => unreachable!(),
        }
    }

    ghost stays = { leads_none };

    ghost joins = { leads_on };

    ghost same_thread = { λ s t p l. l.1 };

    ghost stays_head = { λ s t p l h. l.0.grew.is_marker ∙ h };
}
