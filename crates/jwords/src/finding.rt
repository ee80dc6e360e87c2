//! The word that the rest of a line begins with.

ghost use Rattle.std.specs.Prelude.{◌≡◌, ◌+◌, ◌<◌, ◌≤◌, ◌^◌, if◌then◌else◌, length, IfOk, IsTrue};
ghost use Rattle.jwords.specs.Alphabet.{quote, first, is_letter as letter, is_number_start as number_start};
ghost use Rattle.jwords.specs.Runs as runs;
ghost use Rattle.jwords.specs.Words as words;
ghost use Rattle.jwords.specs.Cuts.{word_of};
ghost use Rattle.jwords.specs.Words.{Finds, FindsText, FindsName, FindsNumber, FindsSymbol};

use crate::alphabet::{
    COLON, QUOTE, byte_at, inflection_length, is_inflection, is_letter, is_number_start,
    name_length, run_length,
};
use crate::listed::{is_constant, is_inflected_word, is_listed};
use crate::naming::is_name;
use crate::quoting::quoted_length;
use crate::running::{is_number, number_list_length};
use crate::word::{Word, WordFault, WordKind};

/// What starts a comment.
pub const COMMENT: &[u8] = b"NB.";

/// The word, or the fault, that the rest of a line from a place on begins with.
pub fn find(at: u32, rest: &[u8]) -> Result<Word, WordFault>
    requires some { 0 < length rest.now }
    requires room { at + length rest.now < 2 ^ 32 }
    ensures found { Finds at rest.now result }
    ensures size { IfOk result (λ word. (at < word.end) × (word.end ≤ at + length rest.now)) }
{
    match rest[0] {
        QUOTE => find_text(at, rest),
        byte if is_letter(byte) => find_name(at, rest),
        byte if is_number_start(byte) => find_number(at, rest),
        _ => find_symbol(at, rest),
    }
}

fn find_text(at: u32, rest: &[u8]) -> Result<Word, WordFault>
    requires some { 0 < length rest.now }
    requires quoted { first rest.now ≡ quote }
    requires room { at + length rest.now < 2 ^ 32 }
    ensures found { FindsText at rest.now result }
    ensures size { IfOk result (λ word. (at < word.end) × (word.end ≤ at + length rest.now)) }
{
    match quoted_length(rest) {
        Some(size) => Ok(word_from(WordKind::Text, at, size)),
        None => Err(WordFault::OpenQuote { at }),
    }
}

fn find_name(at: u32, rest: &[u8]) -> Result<Word, WordFault>
    requires starts { IsTrue (letter (first rest.now)) }
    requires room { at + length rest.now < 2 ^ 32 }
    ensures found { FindsName at rest.now result }
    ensures size { IfOk result (λ word. (at < word.end) × (word.end ≤ at + length rest.now)) }
{
    let name = name_length(rest);
    let size = name + inflection_length(&rest[name..]);
    let word = &rest[..size];
    if size == name {
        return judged(is_name(word), WordKind::Name, at, size);
    }
    if word == COMMENT {
        return Ok(word_from(WordKind::Comment, at, rest.len()));
    }
    judged(is_inflected_word(word), WordKind::Inflected, at, size)
}

fn find_number(at: u32, rest: &[u8]) -> Result<Word, WordFault>
    requires starts { IsTrue (number_start (first rest.now)) }
    requires room { at + length rest.now < 2 ^ 32 }
    ensures found { FindsNumber at rest.now result }
    ensures size { IfOk result (λ word. (at < word.end) × (word.end ≤ at + length rest.now)) }
{
    let size = run_length(rest);
    if byte_at(rest, size) == COLON {
        return judged(
            is_constant(&rest[..size + 1]),
            WordKind::Inflected,
            at,
            size + 1,
        );
    }
    if !is_number(&rest[..size]) {
        return Err(WordFault::IllFormed { at });
    }
    Ok(word_from(WordKind::Number, at, number_list_length(rest)))
}

fn find_symbol(at: u32, rest: &[u8]) -> Result<Word, WordFault>
    requires some { 0 < length rest.now }
    requires room { at + length rest.now < 2 ^ 32 }
    ensures found { FindsSymbol at rest.now result }
    ensures size { IfOk result (λ word. (at < word.end) × (word.end ≤ at + length rest.now)) }
{
    if is_brace_pair(rest) {
        return Ok(word_from(WordKind::Graphic, at, 2));
    }
    let size = symbol_length(rest);
    judged(is_listed(&rest[..size]), WordKind::Graphic, at, size)
}

/// How many bytes a symbol takes with all points and colons behind it.
pub fn symbol_length(rest: &[u8]) -> usize
    requires { 0 < length rest.now }
    ensures length { result ≡ runs.symbol_length rest.now }
    ensures within { (0 < result) × (result ≤ length rest.now) }
{
    1 + inflection_length(&rest[1..])
}

/// Whether the bytes begin with `{{` or `}}` that no point or colon inflects.
pub fn is_brace_pair(rest: &[u8]) -> bool
    ensures { result ≡ words.is_brace_pair rest.now }
{
    (starts_doubled(b'{', rest) || starts_doubled(b'}', rest)) && !is_inflection(byte_at(rest, 2))
}

fn starts_doubled(byte: u8, rest: &[u8]) -> bool
    ensures { result ≡ words.starts_doubled byte rest.now }
{
    byte_at(rest, 0) == byte && byte_at(rest, 1) == byte
}

/// The word where it is one, else a fault of spelling.
fn judged(is_word: bool, kind: WordKind, at: u32, size: usize) -> Result<Word, WordFault>
    requires { at + size < 2 ^ 32 }
    ensures { result ≡ (if is_word then Ok (word_of kind at size) else Err (WordFault.Spelling at)) }
{
    if is_word {
        Ok(word_from(kind, at, size))
    } else {
        Err(WordFault::Spelling { at })
    }
}

/// The word of a kind that takes so many bytes from a place on.
pub fn word_from(kind: WordKind, at: u32, size: usize) -> Word
    requires { at + size < 2 ^ 32 }
    ensures { result ≡ word_of kind at size }
{
    Word {
        kind,
        start: at,
        end: at + size as u32,
    }
}
