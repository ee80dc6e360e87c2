//! The kind of results together.

ghost use Rattle.std.specs.Prelude.{◌≡◌, true, false, MatchOption};
ghost use Rattle.std.specs.List.{filter, list_all};
ghost use Rattle.jdata.specs.Noun as noun;
ghost use Rattle.jdata.specs.Kinds as kinds;
ghost use Rattle.jframe.specs.Assembly as whole;

use jdata::{Kind, Tree};

/// The kind of the results that have atoms or, where none has, that of the first. None where
/// results with atoms are of different kinds.
pub fn common_kind(results: &[Tree]) -> Option<Kind>
    ensures { MatchOption result (whole.kinds_agree results.now ≡ false) (λ k. (k ≡ whole.common_kind results.now) × (whole.kinds_agree results.now ≡ true)) }
{
    let kind = leading_kind(results);
    if are_of_kind(results, kind) {
        Some(kind)
    } else {
        None
    }
}

fn leading_kind(results: &[Tree]) -> Kind
    ensures { result ≡ whole.common_kind results.now }
{
    for tree in results {
        if has_atoms(tree) {
            return tree.kind();
        }
    }
    match results.first() {
        Some(tree) => tree.kind(),
        None => Kind::Int,
    }
}

/// Whether all that have atoms are of the kind.
fn are_of_kind(results: &[Tree], kind: Kind) -> bool
    ensures { result ≡ list_all (λ v. kinds.same_kind (noun.kind v) kind) (filter whole.has_atoms results.now) }
{
    for tree in results {
        if has_atoms(tree) && !same_kind(tree.kind(), kind) {
            return false;
        }
    }
    true
}

fn has_atoms(tree: &Tree) -> bool
    ensures { result ≡ whole.has_atoms tree.now }
{
    tree.leaf().len() > 0
}

fn same_kind(left: Kind, right: Kind) -> bool
    ensures { result ≡ kinds.same_kind left right }
{
    match (left, right) {
        (Kind::Int, Kind::Int) => true,
        (Kind::Char, Kind::Char) => true,
        (Kind::Boxed, Kind::Boxed) => true,
        _ => false,
    }
}
