//! The session of a script.
ghost use Rattle.std.specs.Prelude.{◌≡◌, ◌≤◌, []};
ghost use Rattle.jeval.specs.Eval.{moved_on};
ghost use Rattle.jsession.specs.Items.{sentences, items_of};
ghost use Rattle.jsession.specs.Ran as ran;
ghost use Rattle.jsession.specs.Sessions.{SessionRan, at};

use crate::items::ended;
use crate::reading::{Reading, read_script};
use crate::running::run_lines;
use crate::status::Status;
use jeval::Eval;
use jio::{Sink, Source};
use juses::Uses;
use std::alloc::Global;

fn status_after(how: Reading) -> Status
    ensures { result ≡ ran.status_after how }
{
    match how {
        Reading::Whole => Status::Done,
        Reading::Broken => Status::ReadFault,
        Reading::Long => Status::TooLong,
        Reading::Short => Status::NoMemory,
    }
}

// The bytes of which the sentences are run.
fn running_part(bytes: &[u8], how: Reading) -> &[u8]
    ensures { sentences result.now ≡ items_of how bytes.now }
{
    match how {
        Reading::Whole => bytes,
        Reading::Broken => ended(bytes),
        Reading::Long => ended(bytes),
        Reading::Short => &bytes[bytes.len()..],
    }
}

/// Reads a script, runs its sentences one after another, writes what each prints in one piece, and answers how the
/// session ended. After a failed read, or at byte 16,777,217, the sentences whose line end was read before that are run.
pub fn run<U: Uses, S: Source, K: Sink>(
    alloc: Global,
    eval: &mut Eval<U>,
    script: &mut S,
    out: &mut K,
) -> Status
    requires main { eval.old.who ≡ [] }
    requires heads { U.heads eval.old.uses }
    ensures session { SessionRan U.leads U.refuses U.drained eval.old.turns (S.reads script.old) (S.reads script.new) (at eval.old (K.writes out.old)) (at eval.new (K.writes out.new)) result }
    ensures same { eval.new ≡ moved_on eval.old eval.new.uses eval.new.state }
    ensures reads { (S.reads script.old).faults ≤ (S.reads script.new).faults }
    ensures writes { (K.writes out.old).faults ≤ (K.writes out.new).faults }
{
    let (bytes, how) = read_script(alloc, script);
    match run_lines(alloc, eval, running_part(&bytes, how), out) {
        Ok(()) => status_after(how),
        Err(status) => status,
    }
}
