//! `state` has a file of its own: its clause names the row of `Guard`, which the file that declares `Guard` cannot import.
ghost use Rattle.std.specs.Prelude.{◌≡◌, []};
ghost use Rattle.std.specs.Borrow.{Lends, sem};
ghost use mir.Syntax.{named};
ghost use Rattle.jturn.specs.contracts.guard.Guard.{the_row};

use crate::guard::Guard;
use crate::logged::Logged;

impl<S: Logged> Guard<'_, S> {
    /// The state. When the borrow ends, the guard has what was written through it.
    pub fn state(&mut self) -> &mut S
        ensures* writes_back { sem 𝓛 (Lends (the_row (record { mir = named 1; lft = [] }) S.row S.Entry.row ⟦<S as Logged>⟧) S.row self.entry result (λ w. record self.old { state = w })) }
        ensures value { result.now ≡ self.old.state }
    {
        &mut self.state
    }
}
