//! Which verbs open the pyxes of their arguments.

ghost use Rattle.std.specs.Prelude.{◌≡◌};
ghost use Rattle.jprim.specs.Opening as opening;

use jdata::Primitive;

/// Whether a verb opens the pyxes in its arguments before it looks at them, with two arguments or
/// with one; `{` opens its left one alone.
pub fn opens(verb: Primitive, dyadic: bool) -> bool
    ensures { result ≡ opening.opens verb dyadic }
{
    if dyadic {
        two_open(verb)
    } else {
        one_opens(verb)
    }
}

#[tactic(auto, unfolding(crate::specs::Opening::one_opens))]
fn one_opens(verb: Primitive) -> bool
    ensures { result ≡ opening.one_opens verb }
{
    matches!(
        verb,
        Primitive::Equal
            | Primitive::TildeDot
            | Primitive::TildeColon
            | Primitive::Greater
            | Primitive::Semicolon
            | Primitive::CapitalLDot
            | Primitive::QuoteColon
    )
}

#[tactic(auto, unfolding(crate::specs::Opening::two_open))]
fn two_open(verb: Primitive) -> bool
    ensures { result ≡ opening.two_open verb }
{
    matches!(
        verb,
        Primitive::Equal
            | Primitive::TildeColon
            | Primitive::MinusDot
            | Primitive::MinusColon
            | Primitive::LeftBrace
            | Primitive::LeftBraceColonColon
            | Primitive::IDot
            | Primitive::IColon
            | Primitive::EDot
    )
}
