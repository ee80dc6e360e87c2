//! How the primitive verbs are spelled.

ghost use Rattle.std.specs.Prelude.{◌≡◌, ◌↔◌, Some};
ghost use Rattle.jdata.specs.Spelling.{spelling_of, SpellingsDiffer, WordsTellVerbs};
ghost use Rattle.jdata.specs.Spelling as spelling;
ghost use Rattle.jdata.specs.declared.primitive.Primitive.{Primitive as Verb};

use crate::primitive::Primitive;

/// Each verb with its word.
macro_rules! words {
    ($row:ident $($with:tt)*) => {
        $row! {
            ($($with)*)
            Equal "=" Less "<" LessDot "<." LessColon "<:" Greater ">" GreaterDot ">."
            GreaterColon ">:" Plus "+" PlusDot "+." PlusColon "+:" Times "*" TimesDot "*."
            TimesColon "*:" Minus "-" MinusDot "-." MinusColon "-:" Divide "%" DivideColon "%:"
            Power "^" Bar "|" BarDot "|." BarColon "|:" TildeDot "~." TildeColon "~:" Comma ","
            CommaDot ",." CommaColon ",:" Semicolon ";" SemicolonColon ";:" Hash "#" HashDot "#."
            HashColon "#:" Bang "!" Dollar "$" SlashColon "/:" BackslashColon "\\:" LeftBracket "["
            RightBracket "]" LeftBracketColon "[:" LeftBrace "{" LeftBraceDot "{."
            LeftBraceColon "{:" LeftBraceColonColon "{::" RightBraceDot "}." RightBraceColon "}:"
            QuoteColon "\":" EDot "e." IDot "i." IColon "i:" CapitalIDot "I." CapitalLDot "L."
            CapitalTDot "T."
        }
    };
}

macro_rules! word_of {
    (($verb:ident) $($name:ident $word:literal)*) => {
        match $verb {
            $(Primitive::$name => $word,)*
        }
    };
}

macro_rules! all {
    (() $($name:ident $word:literal)*) => { &[$(Primitive::$name,)*] };
}

const ALL: &[Primitive] = words!(all);

impl Primitive {
    /// The word that it is, as ASCII.
    #[tactic(auto, unfolding(crate::specs::Spelling::spelling_of))]
    pub fn spelling(self) -> &'static str
        ensures { result.now ≡ spelling_of self }
    {
        words!(word_of self)
    }

    /// The verb that a word spells, if it spells one.
    pub fn of(word: &[u8]) -> Option<Primitive>
        ensures value { result ≡ spelling.verb_of word.now }
        ensures spelled { (verb : Verb) → (result ≡ Some verb) ↔ (word.now ≡ spelling_of verb) }
    {
        first_spelled(ALL, word)
    }
}

/// The first of these verbs that a word spells.
fn first_spelled(verbs: &[Primitive], word: &[u8]) -> Option<Primitive>
    ensures { result ≡ spelling.first_spelled verbs.now word.now }
{
    for verb in verbs {
        if verb.spelling().as_bytes() == word {
            return Some(*verb);
        }
    }
    None
}

/// A word is of the verb whose spelling it is, and of no other.
pub fn words_tell_verbs()
    ensures { WordsTellVerbs }
{}

/// No two verbs are spelled alike.
pub fn spellings_differ()
    ensures { SpellingsDiffer }
{}
