//! What holds of the order of items and of the nub. Each function does nothing: its contract is the law.

ghost use Rattle.jdata.specs.declared.noun.Atom.TheVariants as atom;
ghost use Rattle.jsearch.specs.Laws.{EachHasOneGrade, EachIsKept, EqualItemsMatch, KeptAreDifferent};
ghost use Rattle.jsearch.specs.Order.{rising, falling};

/// One list of places alone has each place of an array once and in order.
pub fn each_array_has_one_grade()
    ensures up { EachHasOneGrade rising }
    ensures down { EachHasOneGrade falling }
{}

/// Two items of an array are equal in the order exactly where they match.
pub fn equal_items_match()
    ensures integers { EqualItemsMatch atom.Int }
    ensures characters { EqualItemsMatch atom.Char }
{}

/// The nub of an array has each of its items once, where it comes first.
#[tactic(auto, using(crate::proofs::NubLaws::each_is_kept, crate::proofs::NubLaws::kept_are_different))]
pub fn nub_has_each_item_once()
    ensures kept { EachIsKept }
    ensures different { KeptAreDifferent }
{}
