//! An activity at work. Whatever evaluates is a method of it, so that one state of it is all that a contract speaks of
//! before and after.
ghost use Rattle.std.specs.Prelude.{◌≡◌};
ghost use Rattle.juses.specs.Events.{Runs};
ghost use Rattle.juses.specs.Program.{Ask, Return};
ghost use Rattle.jeval.specs.Action.{asks};
ghost use Rattle.jeval.specs.Activity as activity;
ghost use Rattle.jeval.specs.Made.{Closes, Makes};

use crate::end::{EvalEnd, NO_MEMORY};
use crate::state::State;
use jarray::Room;
use jdata::{Name, Path};
use jterm::{Term, copy_name};
use juses::{Cause, Halt, Reply, Use, Uses};
use std::alloc::Global;

/// Who evaluates, who answers its uses, and what it evaluates with.
pub(crate) struct Activity<U> {
    pub(crate) alloc: Global,
    pub(crate) room: Room,
    pub(crate) who: Path,
    pub(crate) uses: U,
    pub(crate) state: State,
}

impl<U: Uses> Activity<U> {
    /// One use, and its reply or why there is none.
    pub(crate) fn call(&mut self, asked: Use) -> Result<Reply, Halt>
        requires { activity.IsAsked asked }
        ensures same { self.new ≡ record self.old { uses = self.new.uses } }
        ensures made { Runs U.leads U.refuses self.old.who self.old.uses self.new.uses (Ask (activity.wish_of asked) Return) result }
    {
        self.uses.call(self.who, asked)
    }

    /// One use of an evaluation, and its reply.
    pub(crate) fn ask(&mut self, asked: Use) -> Result<Reply, EvalEnd>
        requires { activity.IsAsked asked }
        ensures { Makes U.leads U.refuses self.old self.new (asks (activity.wish_of asked)) result }
    {
        match self.uses.call(self.who, asked) {
            Ok(reply) => Ok(reply),
            Err(halt) => Err(EvalEnd::Halt(halt)),
        }
    }

    /// Looks a name up.
    pub(crate) fn read(&mut self, name: &Name) -> Result<Reply, EvalEnd>
        ensures { Makes U.leads U.refuses self.old self.new (activity.read name.now) result }
    {
        let Ok(name) = copy_name(self.alloc, name) else {
            return Err(NO_MEMORY);
        };
        let Ok(from) = copy_name(self.alloc, &self.state.here) else {
            return Err(NO_MEMORY);
        };
        self.ask(Use::Read { from, name })
    }

    /// Gives a name its value.
    pub(crate) fn write(&mut self, name: Name, value: Term) -> Result<Reply, EvalEnd>
        ensures { Makes U.leads U.refuses self.old self.new (activity.written name value) result }
    {
        let Ok(place) = copy_name(self.alloc, &self.state.here) else {
            return Err(NO_MEMORY);
        };
        self.ask(Use::Write { place, name, value })
    }

    /// Closes the session where the halt tells of want of memory.
    pub(crate) fn close_after(&mut self, halt: Halt)
        ensures { Closes U.leads self.old self.new halt }
    {
        match halt {
            Halt::NoMemory => self.uses.close(Cause::NoMemory),
            Halt::Wait | Halt::Closed(_) => {}
        }
    }
}
