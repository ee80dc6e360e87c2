//! Workers that only wait.
ghost use Rattle.std.specs.Prelude.{◌≡◌, ◌+◌, ◌<◌, ◌^◌, [], All, IfOk, vec_len};
ghost use Rattle.jturn.specs.Pass.{Grew};
ghost use Rattle.jcount.specs.Workers.{IsWorker};

use crate::counter::Counter;
use crate::pool::{cut, glue};
use jturn::{Turn, TurnPass};
use std::alloc::{AllocError, Global};
use std::sync::Wait;
use std::sync::atomic::{AtomicBool, Ordering};
use std::thread;
use std::thread::{Threads, join};
use std::time::{Clock, Duration};

/// Takes turns that make no entry, and sleeps between them, until the stop word is set.
pub fn rest<R: Wait>(
    rt: &R,
    turn: &Turn<Counter>,
    pass: TurnPass<Counter>,
    stop: &AtomicBool,
) -> TurnPass<Counter>
    requires { pass.turn ≡ turn.now.name }
    ensures { Grew pass [] result }
{
    let mut pass = pass;
    for _ in rt.forever() {
        pass = turn.enter(rt, pass).back();
        if stop.load(Ordering::SeqCst) {
            return pass;
        }
        pass = turn.park(rt, pass);
    }
    unreachable!()
}

// Each worker rests.
fn rest_workers<R: Threads + Wait + Sync>(
    rt: &R,
    turn: &Turn<Counter>,
    passes: Vec<TurnPass<Counter>>,
    stop: &AtomicBool,
) -> Result<Vec<TurnPass<Counter>>, AllocError>
    requires { All (IsWorker turn.now []) passes.items }
    ensures workers { IfOk result (λ v. All (IsWorker turn.now []) v.items) }
    ensures count { IfOk result (λ v. vec_len v ≡ vec_len passes) }
{
    let work = move |p: TurnPass<Counter>| -> TurnPass<Counter>
        requires { IsWorker turn.now [] p }
        ensures { IsWorker turn.entry.now [] result }
    { rest(rt, turn, p, stop) };
    thread::map_vec(rt, passes, &work)
}

// Sleeps for so long, and then stops those that rest.
fn stop_after<R: Clock>(
    rt: &R,
    turn: &Turn<Counter>,
    pass: TurnPass<Counter>,
    stop: &AtomicBool,
    pause: Duration,
) -> TurnPass<Counter>
    requires { pass.turn ≡ turn.now.name }
    ensures { result ≡ pass }
{
    thread::sleep(rt, pause);
    stop.store(true, Ordering::SeqCst);
    turn.stir(pass)
}

// The workers rest until this thread has slept for so long.
fn rest_and_stop<R: Threads + Wait + Clock + Sync>(
    rt: &R,
    turn: &Turn<Counter>,
    main: TurnPass<Counter>,
    passes: Vec<TurnPass<Counter>>,
    stop: &AtomicBool,
    pause: Duration,
) -> (
    Result<Vec<TurnPass<Counter>>, AllocError>,
    TurnPass<Counter>,
)
    requires of { main.turn ≡ turn.now.name }
    requires workers { All (IsWorker turn.now []) passes.items }
    ensures main { result.1 ≡ main }
    ensures workers { IfOk result.0 (λ v. All (IsWorker turn.now []) v.items) }
    ensures count { IfOk result.0 (λ v. vec_len v ≡ vec_len passes) }
{
    join(
        rt,
        || -> Result<Vec<TurnPass<Counter>>, AllocError>
            requires { All (IsWorker turn.now []) passes.items }
            ensures workers { IfOk result (λ v. All (IsWorker turn.entry.now []) v.items) }
            ensures count { IfOk result (λ v. vec_len v ≡ vec_len passes) }
        { rest_workers(rt, turn, passes, stop) },
        || stop_after(rt, turn, main, stop, pause),
    )
}

/// So many workers rest for so long. No entry is made, so the counter stays at 0.
///
/// Errors: `AllocError` where the turn or a list of passes finds no room.
pub fn rested<R: Threads + Wait + Clock + Sync>(
    rt: &R,
    alloc: Global,
    count: u32,
    pause: Duration,
) -> Result<u64, AllocError>
    requires { count + 1 < 2 ^ 32 }
    ensures { IfOk result (λ total. total ≡ 0) }
{
    let Ok((turn, pass)) = Turn::new(alloc, Counter { count: 0 }, count + 1) else {
        return Err(AllocError);
    };
    let (main, passes) = cut(alloc, &turn, pass, count)?;
    let stop = AtomicBool::new(false);
    let (passes, main) = rest_and_stop(rt, &turn, main, passes, &stop, pause);
    let pass = glue(&turn, main, passes?, &[]);
    let (counter, _seen) = turn.close(pass);
    Ok(counter.count)
}
