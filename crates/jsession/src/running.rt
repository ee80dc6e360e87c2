//! Running the sentences of a script.
ghost use Rattle.std.specs.Prelude.{◌≡◌, ◌≤◌, ◌+◌, ◌∷◌, [], List, ℕ, true, false, length, OnOk, OnErr, MatchResult};
ghost use Rattle.jeval.specs.Eval.{moved_on};
ghost use Rattle.jeval.specs.Made.{beside};
ghost use Rattle.jeval.specs.Sentence.{sentence};
ghost use Rattle.juses.specs.Events.{RunsWhole};
ghost use Rattle.jsession.specs.Items.{sentences};
ghost use Rattle.jsession.specs.Broke.{Went, Stopped};
ghost use Rattle.jsession.specs.Ran as ran;
ghost use Rattle.jsession.specs.Sessions.{at};

use crate::items::is_sentence;
use crate::status::Status;
use jdata::Bytes;
use jeval::{Eval, Shown};
use jio::{Sent, Sink};
use juses::{Cause, Halt, Uses};
use jwords::next_line;
use std::alloc::Global;

// Writes a piece in one write, where there is something in it.
fn send<K: Sink>(piece: &[u8], out: &mut K) -> Result<(), Status>
    ensures wrote { ran.Wrote (K.writes out.old) piece.now result (K.writes out.new) }
    ensures one { (K.writes out.new).calls ≡ ran.calls_after piece.now (K.writes out.old).calls }
    ensures cut { OnErr result ((K.writes out.new).whole ≡ false) }
    ensures count { (K.writes out.old).faults ≤ (K.writes out.new).faults }
{
    if piece.is_empty() {
        return Ok(());
    }
    match out.write(piece) {
        Sent::All => Ok(()),
        Sent::NoMemory => Err(Status::NoMemory),
        Sent::Failed => Err(Status::WriteFault),
    }
}

// Why the session is closed.
fn cause_of(status: Status) -> Cause
    ensures { result ≡ ran.cause_of status }
{
    match status {
        Status::WriteFault => Cause::WriteFault,
        _ => Cause::NoMemory,
    }
}

// Writes what was printed and not written yet, in one piece. The session is closed where that isn't written whole.
fn send_prints<U: Uses, K: Sink>(eval: &mut Eval<U>, out: &mut K) -> Result<(), Status>
    requires { U.heads eval.old.uses }
    ensures wrote { (bytes : List ℕ) × U.leads eval.old.uses (ran.handing bytes (ran.closing_of result)) eval.new.uses × ran.Wrote (K.writes out.old) bytes result (K.writes out.new) }
    ensures one { (K.writes out.new).calls ≤ (K.writes out.old).calls + 1 }
    ensures all { OnOk result (U.drained eval.new.uses) }
    ensures none_left { (K.writes out.new).whole ≡ true → U.drained eval.new.uses }
    ensures same { eval.new ≡ moved_on eval.old eval.new.uses eval.old.state }
    ensures count { (K.writes out.old).faults ≤ (K.writes out.new).faults }
{
    let piece = eval.take_prints();
    match send(piece.items(), out) {
        Ok(()) => Ok(()),
        Err(status) => {
            eval.close(cause_of(status));
            Err(status)
        }
    }
}

// Evaluates one sentence.
fn evaluate<U: Uses>(alloc: Global, eval: &mut Eval<U>, line: &[u8]) -> Result<Shown, Halt>
    ensures uses { RunsWhole U.leads U.refuses eval.old.who eval.old.uses eval.new.uses (sentence eval.old.turns (line.now ∷ []) eval.old.state) (beside result eval.new.state) }
    ensures same { eval.new ≡ moved_on eval.old eval.new.uses eval.new.state }
{
    match Vec::from_slice(alloc, line) {
        Ok(copy) => eval.sentence(&[Bytes::of(copy)]),
        Err(_) => {
            eval.close(Cause::NoMemory);
            Err(Halt::NoMemory)
        }
    }
}

// Runs one sentence, and writes what was printed.
fn run_sentence<U: Uses, K: Sink>(
    alloc: Global,
    eval: &mut Eval<U>,
    line: &[u8],
    out: &mut K,
) -> Result<(), Status>
    requires main { eval.old.who ≡ [] }
    requires heads { U.heads eval.old.uses }
    ensures ran { MatchResult result
        (λ done. ran.RanSentence U.leads eval.old.turns line.now (at eval.old (K.writes out.old)) (at eval.new (K.writes out.new)))
        (λ why. Stopped U.leads U.refuses eval.old.turns (line.now ∷ []) (at eval.old (K.writes out.old)) (at eval.new (K.writes out.new)) why) }
    ensures one { (K.writes out.new).calls ≤ (K.writes out.old).calls + 1 }
    ensures all { OnOk result (U.drained eval.new.uses) }
    ensures none_left { (K.writes out.new).whole ≡ true → U.drained eval.new.uses }
    ensures heads { U.heads eval.new.uses }
    ensures same { eval.new ≡ moved_on eval.old eval.new.uses eval.new.state }
    ensures count { (K.writes out.old).faults ≤ (K.writes out.new).faults }
{
    let shown = evaluate(alloc, eval, line);
    match send_prints(eval, out) {
        Ok(()) => match shown {
            Ok(_) => Ok(()),
            Err(_) => Err(Status::NoMemory),
        },
        Err(status) => Err(status),
    }
}

/// Runs the sentences of a script one after another, and writes what each prints in one piece.
pub(crate) fn run_lines<U: Uses, K: Sink>(
    alloc: Global,
    eval: &mut Eval<U>,
    lines: &[u8],
    out: &mut K,
) -> Result<(), Status>
    requires main { eval.old.who ≡ [] }
    requires heads { U.heads eval.old.uses }
    ensures went { Went U.leads U.refuses U.drained eval.old.turns (sentences lines.now) (at eval.old (K.writes out.old)) (at eval.new (K.writes out.new)) result }
    ensures pieces { (K.writes out.new).calls ≤ (K.writes out.old).calls + length (sentences lines.now) + 1 }
    ensures same { eval.new ≡ moved_on eval.old eval.new.uses eval.new.state }
    ensures count { (K.writes out.old).faults ≤ (K.writes out.new).faults }
{
    let mut rest = lines;
    while !rest.is_empty() {
        let line = next_line(rest);
        rest = line.rest;
        if !is_sentence(line.text) {
            continue;
        }
        match run_sentence(alloc, eval, line.text, out) {
            Ok(()) => {}
            Err(status) => return Err(status),
        }
    }
    send_prints(eval, out)
}
