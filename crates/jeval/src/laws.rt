//! The law of execution, as the contract of a function without parameters.
ghost use Rattle.std.specs.Prelude.{◌≡◌, ◌≤◌, ℕ, Bool, List, [], ◌∷◌, Some, None};
ghost use Rattle.jeval.specs.Action.{◌then◌};
ghost use Rattle.jeval.specs.Execution.{executed, executed_within, ended, acted, moved_in, is_assignment};
ghost use Rattle.jparse.specs.Parsing.{row_at};
ghost use Rattle.jterm.specs.declared.part.Part.{Part};
ghost use Rattle.jeval.specs.declared.queue.Queued.{Queued};
ghost use Rattle.jeval.specs.declared.state.State.{State};

/// A sentence goes on by what the table says: a row that matches acts, else the next word is read, and where there is
/// none the sentence ends. A bound on the rows that may act decides nothing where it is at least the turns that are left.
pub fn execution_law()
    ensures acts { (levels row : ℕ) (queue : List Queued) (parts : List Part) (assigned : Bool) (s : State) → row_at parts ≡ Some row → executed levels queue parts assigned s ≡ (acted levels row parts then (λ more. executed levels queue more (is_assignment row))) s }
    ensures reads { (levels : ℕ) (next : Queued) (queue : List Queued) (parts : List Part) (assigned : Bool) (s : State) → row_at parts ≡ None → executed levels (next ∷ queue) parts assigned s ≡ (moved_in next parts then (λ more. executed levels queue more assigned)) s }
    ensures ends { (levels : ℕ) (parts : List Part) (assigned : Bool) (s : State) → row_at parts ≡ None → executed levels [] parts assigned s ≡ ended parts assigned s }
    ensures bound { (levels rows : ℕ) (queue : List Queued) (parts : List Part) (assigned : Bool) (s : State) → s.left ≤ rows → executed_within levels rows queue parts assigned s ≡ executed levels queue parts assigned s }
{}
