//! What an activity keeps while it evaluates.
ghost use Rattle.std.specs.Prelude.{◌≡◌, ◌+◌, IsTrue, IsFalse};

use jdata::Name;

/// What an evaluation reads and changes: the state of an activity.
#[derive(Debug, Drop)]
pub struct State {
    /// The current locale.
    pub here: Name,
    /// How many turns its sentence has left.
    pub left: u64,
}

impl State {
    ghost use Rattle.jeval.specs.Action.{with_left};

    /// Takes a turn, where one is left.
    pub(crate) fn take_turn(&mut self) -> bool
        ensures taken { IsTrue result → self.old ≡ with_left (self.new.left + 1) self.new }
        ensures none { IsFalse result → (self.old.left ≡ 0) × (self.new ≡ self.old) }
    {
        if self.left == 0 {
            return false;
        }
        self.left -= 1;
        true
    }

    /// Takes so many turns, where as many are left.
    pub(crate) fn take_turns(&mut self, count: u64) -> bool
        ensures taken { IsTrue result → self.old ≡ with_left (count + self.new.left) self.new }
        ensures none { IsFalse result → self.new ≡ self.old }
    {
        if self.left < count {
            return false;
        }
        self.left -= count;
        true
    }
}
