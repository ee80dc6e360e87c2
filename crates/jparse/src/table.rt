//! The parsing table, and the step by it: which row acts on the parts that were read.
ghost use Rattle.std.specs.Prelude.{◌≡◌, ◌<◌, reverse};
ghost use Rattle.jparse.specs.declared.table.Act.TheVariants as act;
ghost use Rattle.jparse.specs.Parsing as parsing;

use crate::class::{Class, class_at};
use Group::{
    Adverb, Any, Conjunction, Copula, Edge, EdgeOrOperand, Left, NameOrNoun, Noun, Right, Value,
    Verb, VerbOrNoun,
};
use jterm::Part;

/// The classes that a column of the table asks for, under the Dictionary's names.
#[derive(Clone, Copy, Debug, PartialEq, Eq)]
pub enum Group {
    /// EDGE: the mark, a copula or a left parenthesis.
    Edge,
    /// EDGE+AVN: or an adverb, a verb or a noun.
    EdgeOrOperand,
    Verb,
    Noun,
    VerbOrNoun,
    Adverb,
    Conjunction,
    /// CAVN: a conjunction, an adverb, a verb or a noun.
    Value,
    NameOrNoun,
    /// ASGN
    Copula,
    Left,
    Right,
    /// ANY: also no part at all.
    Any,
}

/// What happens next in a sentence.
#[derive(Clone, Copy, Debug, PartialEq, Eq)]
pub enum Act {
    /// Another part is read.
    Shift,
    /// The row of the table with this number acts.
    Row(u8),
    /// The sentence ends with the parts that are left.
    Done,
    /// The sentence has no meaning.
    Syntax,
}

/// What a row asks of the top four parts.
type Pattern = (Group, Group, Group, Group);

// The table, as the Dictionary prints it.
const TABLE: [Pattern; 9] = [
    (Edge, Verb, Noun, Any),
    (EdgeOrOperand, Verb, Verb, Noun),
    (EdgeOrOperand, Noun, Verb, Noun),
    (EdgeOrOperand, VerbOrNoun, Adverb, Any),
    (EdgeOrOperand, VerbOrNoun, Conjunction, VerbOrNoun),
    (EdgeOrOperand, VerbOrNoun, Verb, Verb),
    (Edge, Value, Value, Any),
    (NameOrNoun, Copula, Value, Any),
    (Left, Value, Right, Any),
];

fn is_edge(class: Class) -> bool
    ensures { result ≡ parsing.is_edge class }
{
    matches!(class, Class::Mark | Class::Copula | Class::Left)
}

fn is_operand(class: Class) -> bool
    ensures { result ≡ parsing.is_operand class }
{
    matches!(class, Class::Adverb | Class::Verb | Class::Noun)
}

impl Group {
    // Whether a part of this class is one of the group.
    fn has(self, class: Class) -> bool
        ensures { result ≡ parsing.has self class }
    {
        match self {
            Group::Edge => is_edge(class),
            Group::EdgeOrOperand => is_edge(class) || is_operand(class),
            Group::Verb => class == Class::Verb,
            Group::Noun => class == Class::Noun,
            Group::VerbOrNoun => class == Class::Verb || class == Class::Noun,
            Group::Adverb => class == Class::Adverb,
            Group::Conjunction => class == Class::Conjunction,
            Group::Value => class == Class::Conjunction || is_operand(class),
            Group::NameOrNoun => class == Class::Target || class == Class::Noun,
            Group::Copula => class == Class::Copula,
            Group::Left => class == Class::Left,
            Group::Right => class == Class::Right,
            Group::Any => true,
        }
    }

    fn fits(self, part: Option<Class>) -> bool
        ensures { result ≡ parsing.fits self part }
    {
        match part {
            Some(class) => self.has(class),
            None => self == Group::Any,
        }
    }
}

/// The first four parts, as far as they are there.
#[derive(Clone, Copy)]
struct Top {
    first: Option<Class>,
    second: Option<Class>,
    third: Option<Class>,
    fourth: Option<Class>,
}

fn matches(row: &Pattern, top: Top) -> bool
    ensures { result ≡ parsing.matches top row.now }
{
    row.0.fits(top.first)
        && row.1.fits(top.second)
        && row.2.fits(top.third)
        && row.3.fits(top.fourth)
}

#[tactic(auto, unfolding(crate::specs::Parsing::row_of))]
fn row_of(top: Top) -> Option<usize>
    ensures { result ≡ parsing.row_of top }
{
    TABLE.iter().position(|row| matches(row, top))
}

fn is_whole(top: Top) -> bool
    ensures { result ≡ parsing.is_whole top }
{
    top.third.is_none()
        && top.first == Some(Class::Mark)
        && (top.second.is_none() || Group::Value.fits(top.second))
}

/// What happens next, by the parts that were read and how many words are left: the first row of the table that the top
/// four parts match acts, or what is done where none matches. The parts stand with the leftmost, which was read last, at
/// the end.
pub fn step(stack: &[Part], left_over: usize) -> Act
    ensures value { result ≡ parsing.act_of (reverse stack.now) left_over }
    ensures reads { result ≡ act.Shift → 0 < left_over }
{
    let top = Top {
        first: class_at(stack, 0),
        second: class_at(stack, 1),
        third: class_at(stack, 2),
        fourth: class_at(stack, 3),
    };
    if let Some(row) = row_of(top) {
        Act::Row(row as u8)
    } else if left_over > 0 {
        Act::Shift
    } else if is_whole(top) {
        Act::Done
    } else {
        Act::Syntax
    }
}

/// Whether a name that is moved now is a target: a copula stands in front of the others.
pub fn awaits_target(stack: &[Part]) -> bool
    ensures { result ≡ parsing.awaits_target (reverse stack.now) }
{
    Group::Copula.fits(class_at(stack, 0))
}
