//! Bindings that a pass writes.
ghost use Rattle.std.specs.Prelude.{◌≡◌, ℕ, IfOk, OnOk, OnErr, take, map};
ghost use Rattle.jturn.specs.Pass.{Grew};
ghost use Rattle.juses.specs.Told.{nothing, replied};
ghost use Rattle.jpass.specs.Used.{Leads};
ghost use Rattle.pass_callers.specs.Bindings.{use_of, written, writing};

use jdata::{Name, NoMemory, Path};
use jpass::{Pass, SharedDesk};
use jterm::{Term, copy_name};
use jturn::{Turn, TurnPass};
use juses::{Halt, Use, Uses};
use std::alloc::Global;
use std::sync::Wait;

/// A name of a locale, and what it stands for.
#[derive(Debug, Drop)]
pub struct Binding {
    pub place: Name,
    pub name: Name,
    pub value: Term,
}

fn use_for(alloc: Global, binding: &Binding) -> Result<Use, NoMemory>
    ensures { IfOk result (λ asked. asked ≡ use_of binding.now) }
{
    let place = copy_name(alloc, &binding.place)?;
    let name = copy_name(alloc, &binding.name)?;
    let value = binding.value.copy(alloc)?;
    Ok(Use::Write { place, name, value })
}

// Main writes it.
fn write<R: Wait>(uses: &mut Pass<'_, R>, alloc: Global, binding: &Binding) -> Result<(), Halt>
    ensures wrote { OnOk result (Leads uses.old (replied (written uses.old.thread binding.now)) uses.new) }
    ensures refused { OnErr result (Leads uses.old nothing uses.new) }
{
    let Ok(asked) = use_for(alloc, binding) else {
        return Err(Halt::NoMemory);
    };
    match uses.call(Path::main(), asked) {
        Ok(_reply) => Ok(()),
        Err(halt) => Err(halt),
    }
}

/// Main writes each, in this order, up to the first that is refused.
pub fn write_all<R: Wait>(
    uses: &mut Pass<'_, R>,
    alloc: Global,
    bindings: &[Binding],
) -> Result<(), Halt>
    ensures all { OnOk result (Leads uses.old (writing uses.old.thread bindings.now) uses.new) }
    ensures stopped { OnErr result ((n : ℕ) × Leads uses.old (writing uses.old.thread (take n bindings.now)) uses.new) }
{
    for binding in bindings {
        let outcome = write(uses, alloc, binding);
        if outcome.is_err() {
            return outcome;
        }
    }
    Ok(())
}

/// Writes each by this pass, on this thread.
pub(crate) fn write_by<R: Wait>(
    rt: &R,
    alloc: Global,
    turn: &Turn<SharedDesk>,
    pass: TurnPass<SharedDesk>,
    thread: u16,
    bindings: &[Binding],
) -> (TurnPass<SharedDesk>, Result<(), Halt>)
    requires { pass.turn ≡ turn.now.name }
    ensures all { OnOk result.1 (Grew pass (map (written thread) bindings.now) result.0) }
    ensures stopped { OnErr result.1 ((n : ℕ) × Grew pass (map (written thread) (take n bindings.now)) result.0) }
{
    let mut uses = Pass::new(rt, turn, pass, thread);
    let outcome = write_all(&mut uses, alloc, bindings);
    (uses.back(), outcome)
}
