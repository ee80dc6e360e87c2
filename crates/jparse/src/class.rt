//! The classes of parts.
ghost use Rattle.std.specs.Prelude.{◌≡◌, reverse};
ghost use Rattle.jparse.specs.Parsing as parsing;

use jterm::Part;

/// What the parsing table asks of a part.
#[derive(Clone, Copy, Debug, PartialEq, Eq)]
pub enum Class {
    Mark,
    Copula,
    Left,
    Right,
    /// A name in front of a copula.
    Target,
    Adverb,
    Conjunction,
    Verb,
    Noun,
}

fn class_of(part: &Part) -> Class
    ensures { result ≡ parsing.class_of part.now }
{
    match part {
        Part::Mark => Class::Mark,
        Part::Copula { .. } => Class::Copula,
        Part::Left => Class::Left,
        Part::Right => Class::Right,
        Part::Target(_) => Class::Target,
        Part::Noun(_) => Class::Noun,
        Part::Ranks(_) => Class::Noun,
        Part::Verb { .. } => Class::Verb,
        Part::Adverb(_) => Class::Adverb,
        Part::Conj(_) => Class::Conjunction,
    }
}

/// The class of the part at this place from the left, where the leftmost part stands at the end.
pub(crate) fn class_at(stack: &[Part], at: usize) -> Option<Class>
    ensures { result ≡ parsing.class_at at (reverse stack.now) }
{
    if at < stack.len() {
        Some(class_of(&stack[stack.len() - 1 - at]))
    } else {
        None
    }
}
