//! A session on one thread, with its source and its sink in memory.

use crate::case::Case;
use jdata::Path;
use jeval::Eval;
use jio::{MemSink, MemSource};
use jsession::{Status, run};
use juses::Solo;
use std::alloc::{AllocError, Global};

/// What the script of a session printed, and how it ended.
#[derive(Drop)]
pub struct Ran {
    pub prints: Vec<u8>,
    pub status: Status,
}

/// Runs the script of a session. It is read a few bytes at a time.
pub fn run_case(alloc: Global, case: &Case<'_>) -> Result<Ran, AllocError> {
    let script = Vec::from_slice(alloc, case.script.as_bytes())?;
    let mut source = MemSource::new(script, 7, Vec::new(alloc));
    let mut sink = MemSink::new(alloc, Vec::new(alloc));
    let Ok(solo) = Solo::new(alloc, 0) else {
        return Err(AllocError);
    };
    let Ok(mut eval) = Eval::new(alloc, solo, Path::main(), 0, case.turns()) else {
        return Err(AllocError);
    };
    let status = run(alloc, &mut eval, &mut source, &mut sink);
    let _solo = eval.finish();
    let prints = Vec::from_slice(alloc, sink.taken())?;
    Ok(Ran { prints, status })
}
