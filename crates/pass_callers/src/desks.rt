//! A new desk for passes.
ghost use Rattle.std.specs.Prelude.{◌≡◌, ◌<◌, [], ◌∷◌, IfOk};
ghost use Rattle.jturn.specs.Pass.{first_pass};

use jdata::NoMemory;
use jpass::SharedDesk;
use jturn::{Turn, TurnPass};
use std::alloc::Global;

/// A turn at the desk of a new session with this number of workers, and its first pass, which may
/// be split into so many.
pub fn new_turn(
    alloc: Global,
    workers: u16,
    passes: u32,
) -> Result<(Turn<SharedDesk>, TurnPass<SharedDesk>), NoMemory>
    requires some { 0 < passes }
    ensures parts { IfOk result (λ t. t.0.parts ≡ passes) }
    ensures pass { IfOk result (λ t. t.1 ≡ first_pass t.0 (0, 0) (workers ∷ [])) }
{
    Turn::new(alloc, SharedDesk::new(alloc, workers)?, passes)
}
