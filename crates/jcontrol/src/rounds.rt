ghost use Rattle.std.specs.Prelude.{ℕ, List, ◌<◌, ◌≤◌};
ghost use Rattle.jcontrol.specs.Block.{Block};
ghost use Rattle.jcontrol.specs.Meaning.{Control, body};
ghost use Rattle.jcontrol.specs.Rounds.{Lasts, Spent, rounds};
ghost use Rattle.jcontrol.specs.declared.frame.Reply.{Reply};
ghost use Rattle.jcontrol.specs.declared.frame.Step.{Step};

/// A body that was given more rounds than its loops made in all is not out of rounds. So how many rounds a meaning is
/// given doesn't matter, as long as there are enough.
#[tactic(auto, using(crate::proofs::Lasting::enough))]
pub fn enough_rounds()
    ensures { (n : ℕ) (block : Block) (es : List (Step × Reply)) → rounds es < n → Spent (body n block) es → ⊥ }
{}

/// A body has at least as many rounds left as it is given.
#[tactic(auto, using(crate::proofs::Lasting::body_lasts))]
pub fn body_lasts()
    ensures { (n : ℕ) (block : Block) → Lasts n (body n block) }
{}

/// Where so many rounds are left, fewer are too.
#[tactic(auto, using(crate::proofs::Lasting::less))]
pub fn lasts_less()
    ensures { (left : Control) (j k : ℕ) → j ≤ k → Lasts k left → Lasts j left }
{}
