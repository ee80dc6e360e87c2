//! What holds of the scalar verbs altogether. Each function does nothing: its contract is the law.

ghost use Rattle.jscalar.specs.Laws.{DivisorIsGreatest, WaysAreByFactorials, RootsUndoPowers, ResidueIsWithin};

/// The greatest common divisor divides both numbers, and each common divisor divides it.
pub fn divisor_is_greatest()
    ensures { DivisorIsGreatest }
{}

/// The ways to choose are a quotient of factorials.
pub fn ways_are_by_factorials()
    ensures { WaysAreByFactorials }
{}

/// The root of a power is its base, and the power of a root is what it is the root of.
pub fn roots_undo_powers()
    ensures { RootsUndoPowers }
{}

/// A residue is between 0 and the left argument, and has its sign.
pub fn residue_is_within()
    ensures { ResidueIsWithin }
{}
