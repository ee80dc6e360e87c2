/// Which loop a word opens: `while.`, `whilst.`, or `for.` and `for_i.`.
#[derive(Clone, Copy, Debug, PartialEq, Eq)]
pub enum Looping {
    While,
    Whilst,
    For,
}

/// A word of a body: a sentence, or a control word.
#[derive(Clone, Copy, Debug, PartialEq, Eq)]
pub enum Kind {
    Sentence,
    If,
    Elseif,
    Else,
    Do,
    End,
    Loop(Looping),
    Select,
    /// `case.`, or `fcase.`, which falls into the case after it.
    Case { falls: bool },
    Try,
    Catch,
    Assert,
    Break,
    Continue,
    Return,
}
