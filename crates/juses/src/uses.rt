//! Uses, replies and entries.
ghost use Rattle.std.specs.Prelude.{◌≡◌, List, ℕ, IfOk, IfErr, IfSome};
ghost use Rattle.juses.specs.Closing.{ClosedWith};
ghost use Rattle.juses.specs.Entries.{entry, IsLonger, started_by};
ghost use Rattle.juses.specs.Told.{Passed, nothing, replied, asked_for, refusing, IsDue, handed_out, closed_with, ◌followed_by◌};
ghost use Rattle.juses.specs.declared.uses.Cause.TheVariants as causes;
ghost use Rattle.juses.specs.declared.uses.Halt.{Halt};
ghost use Rattle.juses.specs.declared.uses.Use.{Use};
ghost use Rattle.juses.specs.declared.uses.Why.{Why};

use jdata::{Bytes, Fault, Name, Path, PyxId, Tree};
use jterm::Term;

/// What a task does: a verb on its arguments, in the locale that its starter was in.
#[derive(Debug, Drop)]
pub struct Work {
    pub verb: Term,
    pub x: Option<Tree>,
    pub y: Tree,
    pub place: Name,
}

/// What an opening gives: a value, or a fault.
#[derive(Debug, Drop)]
pub enum Ended {
    Value(Tree),
    Raised(Fault),
}

/// The name of a mutex: the activity that made it, and its number among those, from 1 on.
#[derive(Clone, Copy, Debug, PartialEq, Eq)]
pub struct MutexId {
    pub path: Path,
    pub number: u32,
}

/// A question of an activity to the session.
#[derive(Debug, Drop)]
pub enum Use {
    /// The value of a name, sought in the locale `from` and then along its path.
    Read {
        from: Name,
        name: Name,
    },
    /// The name stands for the value in the locale from now on.
    Write {
        place: Name,
        name: Name,
        value: Term,
    },
    /// The bytes are printed behind those printed before.
    Print {
        bytes: Bytes,
    },
    /// A task of the asker is to do the work, on a thread of the pool.
    Start {
        pool: u8,
        work: Work,
    },
    /// The asker, a task, begins.
    Begin,
    /// The asker, a task, has come to an end.
    End {
        outcome: Ended,
    },
    /// What the pyx holds.
    Open {
        pyx: PyxId,
    },
    /// A pyx that is set by hand.
    MakePyx,
    SetPyx {
        pyx: PyxId,
        outcome: Ended,
    },
    MakeMutex,
    Lock {
        mutex: MutexId,
    },
    Unlock {
        mutex: MutexId,
    },
    /// One more thread in the pool.
    MakeThread {
        pool: u8,
    },
    /// How many threads were made.
    Threads,
    PoolState {
        pool: u8,
    },
    /// The thread that the asker runs on.
    Current,
}

/// What the session replies.
#[derive(Debug, Drop)]
pub enum Reply {
    Done,
    /// The name has no value.
    Nothing,
    /// The name's value.
    Named(Term),
    /// What a pyx holds.
    Value(Tree),
    Pyx(PyxId),
    Mutex(MutexId),
    Number(i64),
    Pool {
        /// Threads of the pool on which no begun task is unfinished.
        idle: u32,
        /// Tasks of the pool that haven't ended.
        unfinished: u32,
        threads: u32,
    },
    Refused(Fault),
}

/// One event of a session: who asked what, on which thread, and what was replied.
#[derive(Debug, Drop)]
pub struct Entry {
    pub who: Path,
    pub thread: u16,
    pub asked: Use,
    pub reply: Reply,
}

/// Why a session was closed.
#[derive(Clone, Copy, Debug, PartialEq, Eq)]
pub enum Cause {
    NoMemory,
    WriteFault,
    /// A use without a reply, on one thread.
    Stuck,
}

/// Why a use has no reply.
#[derive(Clone, Copy, Debug, PartialEq, Eq)]
pub enum Halt {
    /// There is no reply now.
    Wait,
    NoMemory,
    /// The session was closed.
    Closed(Cause),
}

/// Why a waiting task is asked for.
#[derive(Clone, Copy, Debug, PartialEq, Eq)]
pub enum Why {
    /// The asker just started the task of this pyx.
    Started(PyxId),
    /// The asker is about to open this pyx.
    Opening(PyxId),
    /// The asker is the worker of this thread.
    Working(u16),
    /// Main has nothing else to do.
    Ending,
}

/// Of which pyx or mutex a use waits.
#[derive(Clone, Copy, Debug, PartialEq, Eq)]
pub enum Waiting {
    Pyx(PyxId),
    Mutex(MutexId),
}

/// Who answers the uses of activities.
///
/// Any activity may ask: whose use it is stands in what `leads` tells.
pub trait Uses {
    /// What passed leads from the one state to the other: the replies and the tasks that were handed
    /// out, oldest first, the printed bytes that were handed out, and the causes of closing.
    ghost leads: { Self → Passed → Self → Type 0 };

    /// Each printed byte was handed out.
    ghost drained: { Self → Type 0 };

    /// It refuses this use of this activity with this halt.
    ghost refuses: { Self → List ℕ → Use → Halt → Type 0 };

    /// It refuses to hand out a task that is asked for so, with this halt.
    ghost delays: { Self → Why → Halt → Type 0 };

    /// It may hand out prints, and close for a failed write.
    ghost heads: { Self → Type 0 };

    /// The thread on which its uses are made.
    ghost thread: { Self → ℕ };

    /// Answers one use.
    fn call(&mut self, who: Path, asked: Use) -> Result<Reply, Halt>
        ensures ok { IfOk result (λ reply. leads self.old (replied (entry who (thread self.old) asked reply)) self.new) }
        ensures child { IfOk result (λ reply. IsLonger who (started_by asked reply)) }
        ensures err { IfErr result (λ why. leads self.old (refusing why) self.new) }
        ensures halts { IfErr result (λ why. refuses self.new who asked why) };

    /// A waiting task that is asked for, with its work: its Begin was made, on the thread of these
    /// uses.
    fn due(&mut self, who: Path, why: Why) -> Result<Option<(Path, Work)>, Halt>
        ensures ok { IfOk result (λ given. leads self.old (asked_for (thread self.old) why given) self.new) }
        ensures task { IfOk result (λ given. IfSome given (λ g. IsDue why g.0)) }
        ensures err { IfErr result (λ halt. leads self.old nothing self.new) }
        ensures halts { IfErr result (λ halt. delays self.new why halt) };

    /// The bytes that were printed and not taken yet, in order.
    fn take_prints(&mut self) -> Bytes
        requires { heads self.old }
        ensures leads { leads self.old (handed_out result) self.new }
        ensures all { drained self.new };

    /// Closes the session, so that no later use is answered. The first cause counts.
    fn close(&mut self, cause: Cause)
        requires { cause ≡ causes.WriteFault → heads self.old }
        ensures leads { leads self.old (closed_with cause) self.new }
        ensures closed { ClosedWith refuses self.old self.new cause };

    ghost stays: { (s : Self) → leads s nothing s };

    ghost joins: { (s t u : Self) (p q : Passed) → leads s p t → leads t q u → leads s (p followed_by q) u };

    ghost same_thread: { (s t : Self) (p : Passed) → leads s p t → thread t ≡ thread s };

    ghost stays_head: { (s t : Self) (p : Passed) → leads s p t → heads s → heads t };
}
