//! Turns at the desk.
ghost use Rattle.std.specs.Prelude.{◌≡◌, true};
ghost use Rattle.juses.specs.Entries.{entry};
ghost use Rattle.juses.specs.declared.uses.Cause.TheVariants as causes;
ghost use Rattle.jpass.specs.Used.{AskedOnce, Asked, Sought, AsksAgain, Refused, HandedOut, Shut, closing_cause};

use crate::shared::SharedDesk;
use jdata::{Bytes, Path};
use jturn::{Turn, TurnPass};
use juses::{Cause, Entry, Halt, Reply, Use, Why, Work};
use std::sync::Wait;

fn entry_of(who: &Path, thread: u16, asked: Use, reply: Reply) -> Entry
    ensures { result ≡ entry who.now thread asked reply }
{
    Entry {
        who: *who,
        thread,
        asked,
        reply,
    }
}

fn reply_of(made: Entry) -> Reply
    ensures { result ≡ made.reply }
{
    made.reply
}

// Asks in one turn. Where there is no reply now, the use is given back.
fn ask_once<R: Wait>(
    rt: &R,
    turn: &Turn<SharedDesk>,
    pass: TurnPass<SharedDesk>,
    thread: u16,
    who: &Path,
    asked: Use,
) -> (TurnPass<SharedDesk>, Result<Result<Reply, Halt>, Use>)
    requires { pass.turn ≡ turn.now.name }
    ensures { AskedOnce thread pass who.now asked result.0 result.1 }
{
    let mut guard = turn.enter(rt, pass);
    match guard.state().answer(who, thread, &asked) {
        Ok(reply) => {
            let entry = entry_of(who, thread, asked, reply);
            let pass = guard.commit(&entry);
            (pass, Ok(Ok(reply_of(entry))))
        }
        Err(Halt::Wait) => (guard.back(), Err(asked)),
        Err(Halt::NoMemory) => (guard.back(), Ok(Err(Halt::NoMemory))),
        Err(Halt::Closed(cause)) => (guard.back(), Ok(Err(Halt::Closed(cause)))),
    }
}

/// Asks in a turn, and again after a change while there is no reply.
pub(crate) fn ask<R: Wait>(
    rt: &R,
    turn: &Turn<SharedDesk>,
    pass: TurnPass<SharedDesk>,
    thread: u16,
    who: &Path,
    asked: Use,
) -> (TurnPass<SharedDesk>, Result<Reply, Halt>)
    requires { pass.turn ≡ turn.now.name }
    ensures { Asked thread pass who.now asked result.0 result.1 }
{
    let mut pass = pass;
    let mut asked = asked;
    for _ in rt.forever() {
        let (after, outcome) = ask_once(rt, turn, pass, thread, who, asked);
        match outcome {
            Ok(answer) => return (after, answer),
            Err(given) => {
                asked = given;
                pass = turn.park(rt, after);
            }
        }
    }
    unreachable!()
}

fn begin_of(task: &Path, thread: u16) -> Entry
    ensures { result ≡ entry task.now thread Use.Begin Reply.Done }
{
    Entry {
        who: *task,
        thread,
        asked: Use::Begin,
        reply: Reply::Done,
    }
}

// Begins in one turn the task that is asked for. `Wait` where one may be due later.
fn take_once<R: Wait>(
    rt: &R,
    turn: &Turn<SharedDesk>,
    pass: TurnPass<SharedDesk>,
    thread: u16,
    why: &Why,
) -> (TurnPass<SharedDesk>, Result<Option<(Path, Work)>, Halt>)
    requires { pass.turn ≡ turn.now.name }
    ensures { Sought AsksAgain thread pass why.now result.0 result.1 }
{
    let mut guard = turn.enter(rt, pass);
    match guard.state().begin(thread, why) {
        Ok(given) => {
            let entry = begin_of(&given.0, thread);
            (guard.commit(&entry), Ok(Some(given)))
        }
        Err(None) => (guard.back(), Ok(None)),
        Err(Some(halt)) => (guard.back(), Err(halt)),
    }
}

/// Begins in a turn the task that is asked for, or waits until it is known that none is due.
pub(crate) fn take<R: Wait>(
    rt: &R,
    turn: &Turn<SharedDesk>,
    pass: TurnPass<SharedDesk>,
    thread: u16,
    why: &Why,
) -> (TurnPass<SharedDesk>, Result<Option<(Path, Work)>, Halt>)
    requires { pass.turn ≡ turn.now.name }
    ensures { Sought Refused thread pass why.now result.0 result.1 }
{
    let mut pass = pass;
    for _ in rt.forever() {
        let (after, outcome) = take_once(rt, turn, pass, thread, why);
        match outcome {
            Ok(given) => return (after, Ok(given)),
            Err(Halt::Wait) => pass = turn.park(rt, after),
            Err(Halt::NoMemory) => return (after, Err(Halt::NoMemory)),
            Err(Halt::Closed(cause)) => return (after, Err(Halt::Closed(cause))),
        }
    }
    unreachable!()
}

/// Hands out in a turn what was printed.
pub(crate) fn hand_out<R: Wait>(
    rt: &R,
    turn: &Turn<SharedDesk>,
    pass: TurnPass<SharedDesk>,
) -> (TurnPass<SharedDesk>, Bytes)
    requires of { pass.turn ≡ turn.now.name }
    requires marker { pass.is_marker ≡ true }
    ensures { HandedOut pass result.0 result.1 }
{
    let mut guard = turn.enter(rt, pass);
    let bytes = guard.state().desk.take_prints();
    (guard.back(), bytes)
}

// Why a session on passes is closed: no pass closes it since a use has no reply, as there each waits.
fn cause_of(cause: Cause) -> Cause
    ensures { result ≡ closing_cause cause }
{
    match cause {
        Cause::WriteFault => Cause::WriteFault,
        Cause::NoMemory | Cause::Stuck => Cause::NoMemory,
    }
}

/// Closes in a turn, and wakes those that wait.
pub(crate) fn shut<R: Wait>(
    rt: &R,
    turn: &Turn<SharedDesk>,
    pass: TurnPass<SharedDesk>,
    cause: Cause,
) -> TurnPass<SharedDesk>
    requires of { pass.turn ≡ turn.now.name }
    requires marker { cause ≡ causes.WriteFault → pass.is_marker ≡ true }
    ensures { Shut pass cause result }
{
    let mut guard = turn.enter(rt, pass);
    guard.state().desk.close(cause_of(cause));
    turn.stir(guard.back())
}
