//! A session over a new desk.
ghost use Rattle.std.specs.Prelude.{◌≡◌, ◌≤◌};
ghost use Rattle.juses.specs.Keeping.{first_kept};
ghost use Rattle.jconsole.specs.Session.{Told, GivesWhatIsLeft};

use jdata::{NoMemory, Path};
use jeval::Eval;
use jio::{Sink, Source};
use jsession::{Status, run};
use juses::Solo;
use std::alloc::Global;

/// How many turns a sentence may take.
const TURNS: u64 = 10_000_000;

fn session_over<S: Source, K: Sink>(
    alloc: Global,
    solo: Solo,
    script: &mut S,
    out: &mut K,
) -> Status
    requires { solo ≡ first_kept 0 }
    ensures told { Told (S.reads script.old) (S.reads script.new) (K.writes out.old) (K.writes out.new) result }
    ensures gives { GivesWhatIsLeft (S.reads script.old) (S.reads script.new) }
    ensures reads { (S.reads script.old).faults ≤ (S.reads script.new).faults }
    ensures writes { (K.writes out.old).faults ≤ (K.writes out.new).faults }
{
    match Eval::new(alloc, solo, Path::main(), 0, TURNS) {
        Ok(eval) => {
            let mut eval = eval;
            let status = run(alloc, &mut eval, script, out);
            let _solo = eval.finish();
            status
        }
        Err(_) => Status::NoMemory,
    }
}

/// Runs a script over a new desk.
pub(crate) fn session<S: Source, K: Sink>(alloc: Global, script: &mut S, out: &mut K) -> Status
    ensures told { Told (S.reads script.old) (S.reads script.new) (K.writes out.old) (K.writes out.new) result }
    ensures gives { GivesWhatIsLeft (S.reads script.old) (S.reads script.new) }
    ensures reads { (S.reads script.old).faults ≤ (S.reads script.new).faults }
    ensures writes { (K.writes out.old).faults ≤ (K.writes out.new).faults }
{
    match Solo::new(alloc, 0) {
        Ok(solo) => session_over(alloc, solo, script, out),
        Err(NoMemory) => Status::NoMemory,
    }
}
