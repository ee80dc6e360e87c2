//! The ways of cutting.

ghost use Rattle.std.specs.Prelude.{◌≡◌};
ghost use Rattle.jcut.specs.Cut.{cutting_of};

/// How frets cut an array.
///
/// | variant | number | an interval |
/// |---|---|---|
/// | `Begin` | 1 | begins at each fret |
/// | `BeginAfter` | _1 | begins behind each fret |
/// | `End` | 2 | ends at each fret |
/// | `EndBefore` | _2 | ends before each fret |
#[derive(Clone, Copy, Debug, PartialEq, Eq)]
pub enum Cutting {
    Begin,
    BeginAfter,
    End,
    EndBefore,
}

impl Cutting {
    /// What the number to the right of `;.` says, where it is one of the four.
    pub fn of(number: i64) -> Option<Cutting>
        ensures { result ≡ cutting_of number }
    {
        if number == 1 {
            Some(Cutting::Begin)
        } else if number == -1 {
            Some(Cutting::BeginAfter)
        } else if number == 2 {
            Some(Cutting::End)
        } else if number == -2 {
            Some(Cutting::EndBefore)
        } else {
            None
        }
    }
}
