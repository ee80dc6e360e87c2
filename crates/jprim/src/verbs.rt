//! The primitive verbs on arrays.

ghost use Rattle.std.specs.Prelude.{◌≡◌, ◌≢◌, None, false, ℤ, Err};
ghost use Rattle.jarray.specs.Placed.{Gives};
ghost use Rattle.jdata.specs.Noun.{int_atom};
ghost use Rattle.jdata.specs.declared.fault.Trouble.TheVariants as trouble;
ghost use Rattle.jprim.specs.Dyads as two;
ghost use Rattle.jprim.specs.Monads as one;

use crate::looking::from_each;
use crate::ranked::{ranked_dyad, ranked_monad};
use crate::{dyads, monads};
use jarray::{Array, Room};
use jdata::{Primitive, Trouble};
use jdyad::scalar2;
use jmono::scalar1;
use std::alloc::Global;

/// What a verb gives of one argument. Its faults are those of its row in the table: Nonce where the
/// valence is left out.
#[tactic(auto, unfolding(crate::specs::Monads::monad_of))]
pub fn monad(alloc: Global, room: &mut Room, verb: Primitive, y: Array) -> Result<Array, Trouble>
    ensures answer { Gives (one.given (one.monad_of verb) y.noun) result }
    ensures memory { one.is_whole (one.monad_of verb) ≡ false → y.block ≡ None → result ≢ Err trouble.NoMemory }
{
    match verb {
        Primitive::Dollar => ranked_monad::<monads::ShapeOf>(alloc, room, None, y),
        Primitive::Hash => ranked_monad::<monads::Tally>(alloc, room, None, y),
        Primitive::Comma => ranked_monad::<monads::Ravel>(alloc, room, None, y),
        Primitive::CommaDot => ranked_monad::<monads::RavelItems>(alloc, room, None, y),
        Primitive::CommaColon => ranked_monad::<monads::Itemize>(alloc, room, None, y),
        Primitive::BarColon => ranked_monad::<monads::Transpose>(alloc, room, None, y),
        Primitive::BarDot => ranked_monad::<monads::Reverse>(alloc, room, None, y),
        Primitive::LeftBraceDot => ranked_monad::<monads::Head>(alloc, room, None, y),
        Primitive::LeftBraceColon => ranked_monad::<monads::Tail>(alloc, room, None, y),
        Primitive::RightBraceDot => ranked_monad::<monads::Behead>(alloc, room, None, y),
        Primitive::RightBraceColon => ranked_monad::<monads::Curtail>(alloc, room, None, y),
        Primitive::LeftBracket => ranked_monad::<monads::Same>(alloc, room, None, y),
        Primitive::RightBracket => ranked_monad::<monads::Same>(alloc, room, None, y),
        Primitive::LeftBracketColon => ranked_monad::<monads::Cap>(alloc, room, None, y),
        Primitive::IDot => ranked_monad::<monads::Integers>(alloc, room, Some(1), y),
        Primitive::IColon => ranked_monad::<monads::Steps>(alloc, room, Some(0), y),
        Primitive::CapitalIDot => ranked_monad::<monads::Indices>(alloc, room, Some(1), y),
        Primitive::Less => ranked_monad::<monads::Enclose>(alloc, room, None, y),
        Primitive::Greater => ranked_monad::<monads::Disclose>(alloc, room, Some(0), y),
        Primitive::CapitalLDot => ranked_monad::<monads::LevelOf>(alloc, room, None, y),
        Primitive::HashDot => ranked_monad::<monads::BaseTwo>(alloc, room, Some(1), y),
        Primitive::HashColon => ranked_monad::<monads::Binary>(alloc, room, None, y),
        Primitive::TildeDot => ranked_monad::<monads::Nub>(alloc, room, None, y),
        Primitive::TildeColon => ranked_monad::<monads::Sieve>(alloc, room, None, y),
        Primitive::Semicolon => ranked_monad::<monads::Raze>(alloc, room, None, y),
        Primitive::Equal => ranked_monad::<monads::Classify>(alloc, room, None, y),
        Primitive::SlashColon => ranked_monad::<monads::GradeUp>(alloc, room, None, y),
        Primitive::BackslashColon => ranked_monad::<monads::GradeDown>(alloc, room, None, y),
        Primitive::SemicolonColon => ranked_monad::<monads::Words>(alloc, room, Some(1), y),
        Primitive::QuoteColon => ranked_monad::<monads::Format>(alloc, room, None, y),
        _ => each_atom(alloc, room, verb, y),
    }
}

/// A monad that goes over the atoms, or is left out.
fn each_atom(alloc: Global, room: &mut Room, verb: Primitive, y: Array) -> Result<Array, Trouble>
    requires { one.is_whole (one.monad_of verb) ≡ false }
    ensures answer { Gives (one.given (one.monad_of verb) y.noun) result }
    ensures memory { y.block ≡ None → result ≢ Err trouble.NoMemory }
{
    scalar1(alloc, room, verb, y)
}

/// What a verb gives of two arguments, as for `monad`.
#[tactic(auto, unfolding(crate::specs::Dyads::dyad_of, crate::specs::Dyads::given))]
pub fn dyad(
    alloc: Global,
    room: &mut Room,
    verb: Primitive,
    x: Array,
    y: Array,
) -> Result<Array, Trouble>
    ensures answer { Gives (two.given (two.dyad_of verb) x.noun y.noun) result }
    ensures alone { two.is_whole (two.dyad_of verb) ≡ false → (m n : ℤ) → x.noun ≡ int_atom m → y.noun ≡ int_atom n → result ≢ Err trouble.NoMemory }
{
    match verb {
        Primitive::Dollar => ranked_dyad::<dyads::Reshaped>(alloc, room, Some(1), None, x, y),
        Primitive::Comma => ranked_dyad::<dyads::Appended>(alloc, room, None, None, x, y),
        Primitive::CommaDot => ranked_dyad::<dyads::Stitched>(alloc, room, None, None, x, y),
        Primitive::CommaColon => ranked_dyad::<dyads::Laminated>(alloc, room, None, None, x, y),
        Primitive::BarColon => ranked_dyad::<dyads::Reordered>(alloc, room, Some(1), None, x, y),
        Primitive::BarDot => ranked_dyad::<dyads::Rotated>(alloc, room, Some(1), None, x, y),
        Primitive::LeftBraceDot => ranked_dyad::<dyads::Taken>(alloc, room, Some(1), None, x, y),
        Primitive::RightBraceDot => ranked_dyad::<dyads::Dropped>(alloc, room, Some(1), None, x, y),
        Primitive::LeftBracket => ranked_dyad::<dyads::LeftArgument>(alloc, room, None, None, x, y),
        Primitive::RightBracket => ranked_dyad::<dyads::RightArgument>(
            alloc, room, None, None, x, y,
        ),
        Primitive::LeftBracketColon => ranked_dyad::<dyads::CapOfTwo>(
            alloc, room, None, None, x, y,
        ),
        Primitive::Hash => ranked_dyad::<dyads::Copied>(alloc, room, Some(1), None, x, y),
        Primitive::HashDot => ranked_dyad::<dyads::Based>(alloc, room, Some(1), Some(1), x, y),
        Primitive::HashColon => ranked_dyad::<dyads::Digits>(alloc, room, Some(1), Some(0), x, y),
        Primitive::LeftBrace => from_each(alloc, room, x, y),
        Primitive::LeftBraceColonColon => {
            ranked_dyad::<dyads::Fetched>(alloc, room, Some(1), None, x, y)
        }
        Primitive::MinusColon => ranked_dyad::<dyads::Matched>(alloc, room, None, None, x, y),
        Primitive::MinusDot => ranked_dyad::<dyads::Less>(alloc, room, None, None, x, y),
        Primitive::IDot => ranked_dyad::<dyads::IndexOf>(alloc, room, None, None, x, y),
        Primitive::IColon => ranked_dyad::<dyads::LastIndexOf>(alloc, room, None, None, x, y),
        Primitive::EDot => ranked_dyad::<dyads::Member>(alloc, room, None, None, x, y),
        Primitive::Semicolon => ranked_dyad::<dyads::Linked>(alloc, room, None, None, x, y),
        Primitive::SlashColon => ranked_dyad::<dyads::SortedUp>(alloc, room, None, None, x, y),
        Primitive::BackslashColon => {
            ranked_dyad::<dyads::SortedDown>(alloc, room, None, None, x, y)
        }
        Primitive::CapitalIDot => {
            ranked_dyad::<dyads::IntervalIndex>(alloc, room, None, None, x, y)
        }
        _ => each_pair(alloc, room, verb, x, y),
    }
}

/// A dyad that goes over pairs of atoms, or is left out.
fn each_pair(
    alloc: Global,
    room: &mut Room,
    verb: Primitive,
    x: Array,
    y: Array,
) -> Result<Array, Trouble>
    requires { two.is_whole (two.dyad_of verb) ≡ false }
    ensures answer { Gives (two.given (two.dyad_of verb) x.noun y.noun) result }
    ensures alone { (m n : ℤ) → x.noun ≡ int_atom m → y.noun ≡ int_atom n → result ≢ Err trouble.NoMemory }
{
    scalar2(alloc, room, verb, x, y)
}
