/// The primitive verbs, one for each word, by the names of NuVoc. The constant verbs `_9:` to `9:`
/// aren't among them. A valence without a name is left out of this language.
///
/// | variant | word | monad | dyad |
/// |---|---|---|---|
/// | `Equal` | `=` | self-classify | equal |
/// | `Less` | `<` | box | less than |
/// | `LessDot` | `<.` | floor | lesser of |
/// | `LessColon` | `<:` | decrement | less or equal |
/// | `Greater` | `>` | open | larger than |
/// | `GreaterDot` | `>.` | ceiling | larger of |
/// | `GreaterColon` | `>:` | increment | larger or equal |
/// | `Plus` | `+` | conjugate | plus |
/// | `PlusDot` | `+.` | | greatest common divisor |
/// | `PlusColon` | `+:` | double | not-or |
/// | `Times` | `*` | signum | times |
/// | `TimesDot` | `*.` | | least common multiple |
/// | `TimesColon` | `*:` | square | not-and |
/// | `Minus` | `-` | negate | minus |
/// | `MinusDot` | `-.` | not | less |
/// | `MinusColon` | `-:` | halve | match |
/// | `Divide` | `%` | reciprocal | divided by |
/// | `DivideColon` | `%:` | square root | root |
/// | `Power` | `^` | exponential | power |
/// | `Bar` | `\|` | magnitude | residue |
/// | `BarDot` | `\|.` | reverse | rotate |
/// | `BarColon` | `\|:` | transpose | transpose |
/// | `TildeDot` | `~.` | nub | |
/// | `TildeColon` | `~:` | nub sieve | not equal |
/// | `Comma` | `,` | ravel | append |
/// | `CommaDot` | `,.` | ravel items | stitch |
/// | `CommaColon` | `,:` | itemize | laminate |
/// | `Semicolon` | `;` | raze | link |
/// | `SemicolonColon` | `;:` | words | |
/// | `Hash` | `#` | tally | copy |
/// | `HashDot` | `#.` | base two | base |
/// | `HashColon` | `#:` | antibase two | antibase |
/// | `Bang` | `!` | factorial | out of |
/// | `Dollar` | `$` | shape of | shape |
/// | `SlashColon` | `/:` | grade up | sort up |
/// | `BackslashColon` | `\:` | grade down | sort down |
/// | `LeftBracket` | `[` | same | left |
/// | `RightBracket` | `]` | same | right |
/// | `LeftBracketColon` | `[:` | cap | cap |
/// | `LeftBrace` | `{` | | from |
/// | `LeftBraceDot` | `{.` | head | take |
/// | `LeftBraceColon` | `{:` | tail | |
/// | `LeftBraceColonColon` | `{::` | | fetch |
/// | `RightBraceDot` | `}.` | behead | drop |
/// | `RightBraceColon` | `}:` | curtail | |
/// | `QuoteColon` | `":` | default format | |
/// | `EDot` | `e.` | | member in |
/// | `IDot` | `i.` | integers | index of |
/// | `IColon` | `i:` | steps | index of last |
/// | `CapitalIDot` | `I.` | indices | interval index |
/// | `CapitalLDot` | `L.` | level of | |
/// | `CapitalTDot` | `T.` | | threads |
#[derive(Clone, Copy, Debug, PartialEq, Eq)]
pub enum Primitive {
    Equal,
    Less,
    LessDot,
    LessColon,
    Greater,
    GreaterDot,
    GreaterColon,
    Plus,
    PlusDot,
    PlusColon,
    Times,
    TimesDot,
    TimesColon,
    Minus,
    MinusDot,
    MinusColon,
    Divide,
    DivideColon,
    Power,
    Bar,
    BarDot,
    BarColon,
    TildeDot,
    TildeColon,
    Comma,
    CommaDot,
    CommaColon,
    Semicolon,
    SemicolonColon,
    Hash,
    HashDot,
    HashColon,
    Bang,
    Dollar,
    SlashColon,
    BackslashColon,
    LeftBracket,
    RightBracket,
    LeftBracketColon,
    LeftBrace,
    LeftBraceDot,
    LeftBraceColon,
    LeftBraceColonColon,
    RightBraceDot,
    RightBraceColon,
    QuoteColon,
    EDot,
    IDot,
    IColon,
    CapitalIDot,
    CapitalLDot,
    CapitalTDot,
}
