//! The words of adverbs and conjunctions.

/// The adverbs, one for each word, by the names of NuVoc.
///
/// | variant | word | with a verb | with a noun |
/// |---|---|---|---|
/// | `Slash` | `/` | insert, table | |
/// | `SlashDot` | `/.` | key | |
/// | `Backslash` | `\` | prefix, infix | |
/// | `BackslashDot` | `\.` | suffix, outfix | |
/// | `Tilde` | `~` | reflex, passive | |
/// | `RightBrace` | `}` | left out | amend |
#[derive(Clone, Copy, Debug, PartialEq, Eq)]
pub enum Adv {
    Slash,
    SlashDot,
    Backslash,
    BackslashDot,
    Tilde,
    RightBrace,
}

/// The conjunctions, one for each word, by the names of NuVoc.
///
/// | variant | word | what it makes |
/// |---|---|---|
/// | `Quote` | `"` | rank, constant |
/// | `PowerColon` | `^:` | power |
/// | `At` | `@` | atop |
/// | `AtColon` | `@:` | at |
/// | `Ampersand` | `&` | bond, compose |
/// | `AmpersandColon` | `&:` | appose |
/// | `AmpersandDot` | `&.` | under |
/// | `AmpersandDotColon` | `&.:` | under, at every rank |
/// | `Colon` | `:` | monad and dyad, definition |
/// | `ColonColon` | `::` | adverse |
/// | `SemicolonDot` | `;.` | cut |
/// | `BangColon` | `!:` | foreign |
/// | `TDot` | `t.` | task |
#[derive(Clone, Copy, Debug, PartialEq, Eq)]
pub enum Con {
    Quote,
    PowerColon,
    At,
    AtColon,
    Ampersand,
    AmpersandColon,
    AmpersandDot,
    AmpersandDotColon,
    Colon,
    ColonColon,
    SemicolonDot,
    BangColon,
    TDot,
}
