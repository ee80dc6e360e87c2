//! What one thread does at a counter.
ghost use Rattle.std.specs.Prelude.{◌≡◌, ◌≢◌, ◌%◌, ◌^◌, [], ◌∷◌, sum};
ghost use Rattle.jturn.specs.Pass.{Grew};

use crate::counter::Counter;
use jturn::{Turn, TurnPass};
use std::sync::Wait;

// Adds x in a turn of its own.
fn add<R: Wait>(rt: &R, turn: &Turn<Counter>, pass: TurnPass<Counter>, x: u32) -> TurnPass<Counter>
    requires { pass.turn ≡ turn.now.name }
    ensures { Grew pass (x ∷ []) result }
{
    let mut guard = turn.enter(rt, pass);
    let counter = guard.state();
    counter.count = counter.count.wrapping_add(u64::from(x));
    guard.commit(&x)
}

/// Adds each in a turn of its own.
pub fn add_all<R: Wait>(
    rt: &R,
    turn: &Turn<Counter>,
    pass: TurnPass<Counter>,
    xs: &[u32],
) -> TurnPass<Counter>
    requires { pass.turn ≡ turn.now.name }
    ensures { Grew pass xs.now result }
{
    let mut pass = pass;
    for x in xs {
        pass = add(rt, turn, pass, *x);
    }
    pass
}

/// Waits until the counter is not 0, and adds nothing.
pub fn wait_for_some<R: Wait>(
    rt: &R,
    turn: &Turn<Counter>,
    pass: TurnPass<Counter>,
) -> TurnPass<Counter>
    requires { pass.turn ≡ turn.now.name }
    ensures grows { Grew pass [] result }
    ensures some { sum result.seen % 2 ^ 64 ≢ 0 }
{
    let mut pass = pass;
    for _ in rt.forever() {
        let mut guard = turn.enter(rt, pass);
        if guard.state().count != 0 {
            return guard.back();
        }
        pass = turn.park(rt, guard.back());
    }
    unreachable!()
}
