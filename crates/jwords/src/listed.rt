//! The words of the language that are listed.

ghost use Rattle.std.specs.Prelude.{◌≡◌, ◌↔◌, IsTrue};
ghost use Rattle.std.specs.List.{list_any};
ghost use Rattle.std.specs.Str.{bytes_eq};
ghost use Rattle.jwords.specs.Listed as listed;

use crate::alphabet::{COLON, POINT, UNDERSCORE, is_digit};
use crate::naming::is_plain;
use jdata::Primitive;

/// The adverbs, conjunctions and nouns, the copulas and the parentheses.
const OTHER_WORDS: [&[u8]; 25] = [
    b"/", b"/.", b"\\", b"\\.", b"~", b"}", b"\"", b"^:", b"@", b"@:", b"&", b"&:", b"&.", b"&.:",
    b":", b"::", b";.", b"!:", b"t.", b"a.", b"a:", b"=.", b"=:", b"(", b")",
];

const CONTROL_WORDS: [&[u8]; 17] = [
    b"assert.",
    b"break.",
    b"case.",
    b"catch.",
    b"continue.",
    b"do.",
    b"else.",
    b"elseif.",
    b"end.",
    b"fcase.",
    b"for.",
    b"if.",
    b"return.",
    b"select.",
    b"try.",
    b"while.",
    b"whilst.",
];

/// Whether a word spells a verb, or is one of the others.
#[tactic(auto, unfolding(crate::specs::Listed::is_listed))]
pub fn is_listed(word: &[u8]) -> bool
    ensures { result ≡ listed.is_listed word.now }
{
    Primitive::of(word).is_some() || is_one_of(word, &OTHER_WORDS)
}

/// Whether a digit, perhaps behind a sign, and a colon are a constant verb.
#[tactic(auto, using(crate::proofs::ListedWords::constants))]
pub fn is_constant(word: &[u8]) -> bool
    ensures { result ≡ listed.is_constant word.now }
{
    match word {
        [digit, mark] => is_plain_constant(*digit, *mark),
        [sign, digit, mark] => is_signed_constant(*sign, *digit, *mark),
        _ => false,
    }
}

fn is_plain_constant(digit: u8, mark: u8) -> bool
    ensures { result ≡ listed.is_plain_constant digit mark }
{
    is_digit(digit) && mark == COLON
}

fn is_signed_constant(sign: u8, digit: u8, mark: u8) -> bool
    ensures { result ≡ listed.is_signed_constant sign digit mark }
{
    sign == UNDERSCORE && digit != b'0' && is_plain_constant(digit, mark)
}

/// Whether a run that starts with a letter, with its points and colons, is a word.
pub fn is_inflected_word(word: &[u8]) -> bool
    ensures { IsTrue result ↔ listed.IsInflectedWord word.now }
{
    is_listed(word) || is_control_word(word) || is_named_loop(word)
}

fn is_control_word(word: &[u8]) -> bool
    ensures { result ≡ listed.is_one_of listed.control_words word.now }
{
    is_one_of(word, &CONTROL_WORDS)
}

fn is_one_of(word: &[u8], words: &[&[u8]]) -> bool
    ensures { result ≡ list_any (λ other. bytes_eq other.now word.now) words.now }
{
    words.iter().any(|other| *other == word)
}

/// Whether a word is `for_name.` with a plain name.
fn is_named_loop(word: &[u8]) -> bool
    ensures { IsTrue result ↔ listed.IsNamedLoop word.now }
{
    match word {
        [b'f', b'o', b'r', UNDERSCORE, name @ .., POINT] => is_plain(name),
        _ => false,
    }
}
