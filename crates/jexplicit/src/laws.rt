//! What holds of definitions altogether.

ghost use Rattle.jexplicit.specs.Meant.{EachPartStands};

/// Each control word and sentence of a definition stands in one of its lines, with at least one word.
#[tactic(auto, using(crate::proofs::Places::each_part_stands))]
pub fn each_part_stands()
    ensures { EachPartStands }
{}
