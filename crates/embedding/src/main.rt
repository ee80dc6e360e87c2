//! A program that runs scripts for itself: one session on one thread, with its source and its sink in memory.
#![tactic(auto)]

use jdata::{NoMemory, Path};
use jeval::Eval;
use jio::{MemSink, MemSource, Sent, Sink, StdSink};
use jsession::{Status, run};
use juses::Solo;
use std::alloc::Global;
use std::process::ExitCode;

/// How many turns a sentence may take.
const TURNS: u64 = 10_000_000;

/// What a script printed, and how its session ended.
#[derive(Drop)]
struct Session {
    prints: Vec<u8>,
    status: Status,
}

fn evaluate(alloc: Global, script: &[u8]) -> Result<Session, NoMemory> {
    let mut source = MemSource::new(Vec::from_slice(alloc, script)?, 4_096, Vec::new(alloc));
    let mut sink = MemSink::new(alloc, Vec::new(alloc));
    let solo = Solo::new(alloc, 0)?;
    let Ok(mut eval) = Eval::new(alloc, solo, Path::main(), 0, TURNS) else {
        return Err(NoMemory);
    };
    let status = run(alloc, &mut eval, &mut source, &mut sink);
    let _solo = eval.finish();
    let prints = Vec::from_slice(alloc, sink.taken())?;
    Ok(Session { prints, status })
}

fn main(rt: HostRuntime) -> ExitCode {
    let script = b"price =: 3 4\nprice * 10\nprice + 1 2 3\n";
    match evaluate(rt.alloc(), script) {
        Ok(session) => {
            let sent = StdSink::new(rt.stdout()).write(&session.prints);
            ExitCode::from((sent != Sent::All || session.status != Status::Done) as u8)
        }
        Err(NoMemory) => ExitCode::from(2),
    }
}
