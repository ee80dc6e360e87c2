//! What `u/` gives of no items.

ghost use Rattle.std.specs.Prelude.{◌≡◌, IfOk, Ok, Some};
ghost use Rattle.jdata.specs.Answers.{Answers};
ghost use Rattle.jsplit.specs.Identities as meant;

use jarray::{Array, Room, integers};
use jcut::further_axes;
use jdata::{Fault, IntList, NoMemory, Primitive, Tree, Trouble, product_of};
use jterm::Term;
use std::alloc::Global;

/// The identity of a verb, at each place of an item of `y`. Its only fault is Domain.
pub fn identity(alloc: Global, room: &Room, of: &Term, y: &Array) -> Result<Tree, Trouble>
    ensures { Answers (meant.identity of.now y.now.noun) result }
{
    match identity_in(of) {
        Some(number) => filled_item(alloc, room, number, y),
        None => Err(Trouble::Fault(Fault::Domain)),
    }
}

fn filled_item(alloc: Global, room: &Room, number: i64, y: &Array) -> Result<Tree, Trouble>
    ensures { Answers (meant.filled_item (Some number) y.now.noun) result }
{
    match numbers_in_item(alloc, room, number, y) {
        Ok(tree) => Ok(tree),
        Err(NoMemory) => Err(Trouble::NoMemory),
    }
}

fn numbers_in_item(alloc: Global, room: &Room, number: i64, y: &Array) -> Result<Tree, NoMemory>
    ensures { IfOk result (λ t. meant.filled_item (Some number) y.now.noun ≡ Ok t) }
{
    let item = further_axes(y.shape(room));
    let count = product_of(item) as usize;
    let axes = Vec::from_slice(alloc, item)?;
    let numbers = vec![in alloc; number; count]?;
    Ok(integers(axes, IntList::of(numbers)))
}

fn identity_in(of: &Term) -> Option<i64>
    ensures { result ≡ meant.identity_in of.now }
{
    match of {
        Term::Verb(verb) => identity_of(*verb),
        _ => None,
    }
}

#[tactic(auto, unfolding(crate::specs::Identities::identity_of))]
fn identity_of(verb: Primitive) -> Option<i64>
    ensures { result ≡ meant.identity_of verb }
{
    match verb {
        Primitive::Plus | Primitive::Minus | Primitive::PlusDot => Some(0),
        Primitive::TildeColon | Primitive::Bar => Some(0),
        Primitive::Times | Primitive::Divide | Primitive::TimesDot => Some(1),
        Primitive::Equal | Primitive::Power => Some(1),
        _ => None,
    }
}
