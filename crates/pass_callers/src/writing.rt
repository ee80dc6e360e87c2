//! Two threads that write names.
ghost use Rattle.std.specs.Prelude.{◌≡◌, ℕ, List, ◌++◌, map, IfOk, IsPermutation};
ghost use Rattle.juses.specs.Standing.{value_in};
ghost use Rattle.juses.specs.declared.uses.Entry.{Entry};
ghost use Rattle.jpass.specs.Stood.{StoodFor};
ghost use Rattle.pass_callers.specs.Bindings.{written, IsLeft};

use crate::bindings::{Binding, write_by};
use crate::desks::new_turn;
use jpass::SharedDesk;
use juses::Halt;
use std::alloc::Global;
use std::sync::Wait;
use std::thread::{Threads, join};

/// Two passes of a new desk, each on a thread of its own, write bindings. The desk then has what
/// both wrote, and nothing else.
///
/// Errors: why a use was refused. The desk is then dropped.
pub fn both_write<R: Threads + Wait + Sync>(
    rt: &R,
    alloc: Global,
    first: &[Binding],
    second: &[Binding],
) -> Result<SharedDesk, Halt>
    ensures history { IfOk result (λ shared. (log : List Entry) × IsPermutation log (map (written 0) first.now ++ map (written 1) second.now) × StoodFor shared.desk log) }
    ensures names { IfOk result (λ shared. (place name : List ℕ) → IsLeft (first.now ++ second.now) place name (value_in shared.desk.locales place name)) }
{
    let Ok((turn, pass)) = new_turn(alloc, 0, 2) else {
        return Err(Halt::NoMemory);
    };
    let (one, two) = turn.split(pass);
    let ((one, wrote), (two, also)) = join(
        rt,
        || write_by(rt, alloc, &turn, one, 0, first),
        || write_by(rt, alloc, &turn, two, 1, second),
    );
    let pass = turn.join(one, two);
    let (shared, _seen) = turn.close(pass);
    wrote?;
    also?;
    Ok(shared)
}
