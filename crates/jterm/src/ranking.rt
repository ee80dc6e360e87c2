//! The ranks of verbs.
ghost use Rattle.std.specs.Prelude.{◌≡◌, Some, map};
ghost use Rattle.jdata.specs.Noun.{atoms};
ghost use Rattle.jterm.specs.Ranks as ranks;

use crate::speech::Speech;
use crate::term::Term;
use crate::words::{Adv, Con};
use jdata::{Leaf, Primitive, Tree};

/// The rank of the monad, and those of the dyad's left and right arguments. None is no limit.
#[derive(Clone, Copy)]
struct VerbRanks {
    monad: Option<i64>,
    left: Option<i64>,
    right: Option<i64>,
}

const UNBOUNDED: VerbRanks = VerbRanks {
    monad: None,
    left: None,
    right: None,
};

fn each(rank: Option<i64>) -> VerbRanks
    ensures { result ≡ ranks.each rank }
{
    VerbRanks {
        monad: rank,
        left: rank,
        right: rank,
    }
}

#[tactic(auto, unfolding(crate::specs::Ranks::monad_rank))]
fn monad_rank(verb: Primitive) -> Option<i64>
    ensures { result ≡ ranks.monad_rank verb }
{
    match verb {
        Primitive::Plus | Primitive::LessDot | Primitive::GreaterDot => Some(0),
        Primitive::Minus | Primitive::Bar | Primitive::Times | Primitive::Divide => Some(0),
        Primitive::PlusColon | Primitive::TimesColon | Primitive::LessColon => Some(0),
        Primitive::GreaterColon | Primitive::MinusDot | Primitive::MinusColon => Some(0),
        Primitive::Bang | Primitive::Power | Primitive::DivideColon => Some(0),
        Primitive::IColon | Primitive::Greater => Some(0),
        Primitive::IDot | Primitive::CapitalIDot => Some(1),
        Primitive::HashDot | Primitive::SemicolonColon => Some(1),
        _ => None,
    }
}

#[tactic(auto, unfolding(crate::specs::Ranks::left_rank))]
fn left_rank(verb: Primitive) -> Option<i64>
    ensures { result ≡ ranks.left_rank verb }
{
    match verb {
        Primitive::Plus | Primitive::Minus | Primitive::Times | Primitive::Divide => Some(0),
        Primitive::Bar | Primitive::Power | Primitive::DivideColon | Primitive::Bang => Some(0),
        Primitive::LessDot | Primitive::GreaterDot | Primitive::Less => Some(0),
        Primitive::LessColon | Primitive::Greater | Primitive::GreaterColon => Some(0),
        Primitive::Equal | Primitive::TildeColon | Primitive::PlusDot => Some(0),
        Primitive::TimesDot | Primitive::PlusColon | Primitive::TimesColon => Some(0),
        Primitive::LeftBrace => Some(0),
        Primitive::Dollar | Primitive::BarColon | Primitive::BarDot => Some(1),
        Primitive::LeftBraceDot | Primitive::RightBraceDot | Primitive::Hash => Some(1),
        Primitive::LeftBraceColonColon => Some(1),
        Primitive::HashDot | Primitive::HashColon => Some(1),
        _ => None,
    }
}

#[tactic(auto, unfolding(crate::specs::Ranks::right_rank))]
fn right_rank(verb: Primitive) -> Option<i64>
    ensures { result ≡ ranks.right_rank verb }
{
    match verb {
        Primitive::Plus | Primitive::Minus | Primitive::Times | Primitive::Divide => Some(0),
        Primitive::Bar | Primitive::Power | Primitive::DivideColon | Primitive::Bang => Some(0),
        Primitive::LessDot | Primitive::GreaterDot | Primitive::Less => Some(0),
        Primitive::LessColon | Primitive::Greater | Primitive::GreaterColon => Some(0),
        Primitive::Equal | Primitive::TildeColon | Primitive::PlusDot => Some(0),
        Primitive::TimesDot | Primitive::PlusColon | Primitive::TimesColon => Some(0),
        Primitive::HashColon => Some(0),
        Primitive::HashDot => Some(1),
        _ => None,
    }
}

fn primitive_ranks(verb: Primitive) -> VerbRanks
    ensures { result ≡ ranks.primitive_ranks verb }
{
    VerbRanks {
        monad: monad_rank(verb),
        left: left_rank(verb),
        right: right_rank(verb),
    }
}

fn spread(numbers: &[Option<i64>]) -> VerbRanks
    ensures { result ≡ ranks.spread numbers.now }
{
    match numbers {
        [rank] => each(*rank),
        [left, right] => VerbRanks {
            monad: *right,
            left: *left,
            right: *right,
        },
        [monad, left, right] => VerbRanks {
            monad: *monad,
            left: *left,
            right: *right,
        },
        _ => UNBOUNDED,
    }
}

fn spread_integers(numbers: &[i64]) -> VerbRanks
    ensures { result ≡ ranks.spread (map (λ n. Some n) numbers.now) }
{
    match numbers {
        [rank] => each(Some(*rank)),
        [left, right] => spread(&[Some(*left), Some(*right)]),
        [monad, left, right] => spread(&[Some(*monad), Some(*left), Some(*right)]),
        _ => UNBOUNDED,
    }
}

// The ranks that `"` is given by a noun. Atoms that are no numbers are no limit.
#[tactic(auto, using(crate::proofs::Numbers::numbers_of))]
fn noun_ranks(noun: &Tree) -> VerbRanks
    ensures { result ≡ ranks.spread (map ranks.rank_in (atoms noun.now)) }
{
    match noun.leaf() {
        Leaf::Int(numbers) => spread_integers(numbers),
        Leaf::Char(_) => UNBOUNDED,
        Leaf::Cell(_) => UNBOUNDED,
    }
}

fn quoted(right: &Term) -> VerbRanks
    ensures { result ≡ ranks.spread (ranks.numbers right.now) }
{
    match right {
        Term::Noun(noun) => noun_ranks(noun),
        Term::Ranks(numbers) => spread(numbers.items()),
        _ => UNBOUNDED,
    }
}

fn with1_ranks(word: Adv, left: VerbRanks) -> VerbRanks
    ensures { result ≡ ranks.with1_ranks word left }
{
    match word {
        Adv::Backslash | Adv::BackslashDot => VerbRanks {
            monad: None,
            left: Some(0),
            right: None,
        },
        Adv::Tilde => VerbRanks {
            monad: None,
            left: left.right,
            right: left.left,
        },
        Adv::Slash | Adv::SlashDot | Adv::RightBrace => UNBOUNDED,
    }
}

fn composed(left: Speech, right: Speech, of_right: VerbRanks) -> VerbRanks
    ensures { result ≡ ranks.compose_ranks left right of_right }
{
    match (left, right) {
        (Speech::Verb, Speech::Verb) => each(of_right.monad),
        _ => UNBOUNDED,
    }
}

#[tactic(auto, using(crate::proofs::RanksOf::ranks_are))]
fn ranks_of(term: &Term) -> VerbRanks
    ensures { result ≡ ranks.ranks_of term.now }
{
    match term {
        Term::Verb(verb) => primitive_ranks(*verb),
        Term::With1 { word, left } => with1_ranks(*word, ranks_of(left.get())),
        Term::With2 { word, left, right } => {
            let (left, right) = (left.get(), right.get());
            match word {
                Con::Quote => quoted(right),
                Con::At => ranks_of(right),
                Con::Ampersand => composed(left.speech(), right.speech(), ranks_of(right)),
                Con::AmpersandDot => each(ranks_of(right).monad),
                Con::Colon => {
                    let of_right = ranks_of(right);
                    VerbRanks {
                        monad: ranks_of(left).monad,
                        left: of_right.left,
                        right: of_right.right,
                    }
                }
                Con::SemicolonDot => VerbRanks {
                    monad: None,
                    left: Some(1),
                    right: None,
                },
                Con::PowerColon | Con::AtColon | Con::AmpersandColon => UNBOUNDED,
                Con::AmpersandDotColon | Con::ColonColon => UNBOUNDED,
                Con::BangColon | Con::TDot => UNBOUNDED,
            }
        }
        Term::Hook { .. } => UNBOUNDED,
        Term::Fork { .. } => UNBOUNDED,
        Term::Noun(_) => UNBOUNDED,
        Term::Ranks(_) => UNBOUNDED,
        Term::Const(_) => UNBOUNDED,
        Term::Adverb(_) => UNBOUNDED,
        Term::Conj(_) => UNBOUNDED,
        Term::Name(_) => UNBOUNDED,
    }
}

/// The ranks of a verb: of its monad, and of its dyad's left and right arguments. None is no limit.
pub fn ranks(term: &Term) -> [Option<i64>; 3]
    ensures { result ≡ ranks.listed (ranks.ranks_of term.now) }
{
    let ranks = ranks_of(term);
    [ranks.monad, ranks.left, ranks.right]
}
