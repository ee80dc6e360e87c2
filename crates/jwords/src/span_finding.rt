//! The word that the rest of a text begins with, by monadic `;:`.

ghost use Rattle.std.specs.Prelude.{◌≡◌, ◌+◌, ◌<◌, ◌≤◌, ◌^◌, if◌then◌else◌, length, Ok, IfOk, IsTrue};
ghost use Rattle.jwords.specs.Alphabet.{quote, first, is_letter as letter, is_number_start as number_start};
ghost use Rattle.jwords.specs.Spans.{FindsSpan, FindsTextSpan, FindsNameSpan, FindsRunSpan, FindsByteSpan};

use crate::alphabet::{
    COLON, QUOTE, byte_at, inflection_length, is_letter, is_number_start, name_length, run_length,
};
use crate::finding::{COMMENT, is_brace_pair, symbol_length, word_from};
use crate::quoting::quoted_length;
use crate::running::run_list_length;
use crate::word::{SpanFault, Word, WordKind};

/// The word, or the open quote, that the rest of a text from a place on begins with.
pub fn find_span(at: u32, rest: &[u8]) -> Result<Word, SpanFault>
    requires some { 0 < length rest.now }
    requires room { at + length rest.now < 2 ^ 32 }
    ensures found { FindsSpan at rest.now result }
    ensures size { IfOk result (λ word. (at < word.end) × (word.end ≤ at + length rest.now)) }
{
    match rest[0] {
        QUOTE => find_text_span(at, rest),
        byte if is_letter(byte) => Ok(find_name_span(at, rest)),
        byte if is_number_start(byte) => Ok(find_run_span(at, rest)),
        _ => Ok(find_byte_span(at, rest)),
    }
}

fn find_text_span(at: u32, rest: &[u8]) -> Result<Word, SpanFault>
    requires some { 0 < length rest.now }
    requires quoted { first rest.now ≡ quote }
    requires room { at + length rest.now < 2 ^ 32 }
    ensures found { FindsTextSpan at rest.now result }
    ensures size { IfOk result (λ word. (at < word.end) × (word.end ≤ at + length rest.now)) }
{
    match quoted_length(rest) {
        Some(size) => Ok(word_from(WordKind::Text, at, size)),
        None => Err(SpanFault::OpenQuote { at }),
    }
}

fn find_name_span(at: u32, rest: &[u8]) -> Word
    requires starts { IsTrue (letter (first rest.now)) }
    requires room { at + length rest.now < 2 ^ 32 }
    ensures found { FindsNameSpan at rest.now (Ok result) }
    ensures size { (at < result.end) × (result.end ≤ at + length rest.now) }
{
    let name = name_length(rest);
    let size = name + inflection_length(&rest[name..]);
    if &rest[..size] == COMMENT {
        return word_from(WordKind::Comment, at, rest.len());
    }
    word_from(name_kind(size == name), at, size)
}

fn name_kind(is_bare: bool) -> WordKind
    ensures { result ≡ (if is_bare then WordKind.Name else WordKind.Inflected) }
{
    if is_bare {
        WordKind::Name
    } else {
        WordKind::Inflected
    }
}

fn find_run_span(at: u32, rest: &[u8]) -> Word
    requires starts { IsTrue (number_start (first rest.now)) }
    requires room { at + length rest.now < 2 ^ 32 }
    ensures found { FindsRunSpan at rest.now (Ok result) }
    ensures size { (at < result.end) × (result.end ≤ at + length rest.now) }
{
    let size = run_length(rest);
    if byte_at(rest, size) == COLON {
        return word_from(
            WordKind::Inflected,
            at,
            size + inflection_length(&rest[size..]),
        );
    }
    word_from(WordKind::Number, at, run_list_length(rest))
}

fn find_byte_span(at: u32, rest: &[u8]) -> Word
    requires some { 0 < length rest.now }
    requires room { at + length rest.now < 2 ^ 32 }
    ensures found { FindsByteSpan at rest.now (Ok result) }
    ensures size { (at < result.end) × (result.end ≤ at + length rest.now) }
{
    if is_brace_pair(rest) {
        return word_from(WordKind::Graphic, at, 2);
    }
    word_from(WordKind::Graphic, at, symbol_length(rest))
}
