//! The words of adverbs and conjunctions.
ghost use Rattle.std.specs.Prelude.{◌≡◌};
ghost use Rattle.jeval.specs.Operators as spelling;

use jterm::{Adv, Con};

/// The adverb that a word spells, if it spells one.
pub(crate) fn adverb_of(word: &[u8]) -> Option<Adv>
    ensures { result ≡ spelling.adverb_of word.now }
{
    if word == b"/".as_slice() {
        Some(Adv::Slash)
    } else if word == b"/.".as_slice() {
        Some(Adv::SlashDot)
    } else if word == b"\\".as_slice() {
        Some(Adv::Backslash)
    } else if word == b"\\.".as_slice() {
        Some(Adv::BackslashDot)
    } else if word == b"~".as_slice() {
        Some(Adv::Tilde)
    } else if word == b"}".as_slice() {
        Some(Adv::RightBrace)
    } else {
        None
    }
}

/// The conjunction that a word spells, if it spells one.
pub(crate) fn conj_of(word: &[u8]) -> Option<Con>
    ensures { result ≡ spelling.conj_of word.now }
{
    if word == b"\"".as_slice() {
        Some(Con::Quote)
    } else if word == b"^:".as_slice() {
        Some(Con::PowerColon)
    } else if word == b"@".as_slice() {
        Some(Con::At)
    } else if word == b"@:".as_slice() {
        Some(Con::AtColon)
    } else if word == b"&".as_slice() {
        Some(Con::Ampersand)
    } else if word == b"&:".as_slice() {
        Some(Con::AmpersandColon)
    } else if word == b"&.".as_slice() {
        Some(Con::AmpersandDot)
    } else if word == b"&.:".as_slice() {
        Some(Con::AmpersandDotColon)
    } else if word == b":".as_slice() {
        Some(Con::Colon)
    } else if word == b"::".as_slice() {
        Some(Con::ColonColon)
    } else if word == b";.".as_slice() {
        Some(Con::SemicolonDot)
    } else if word == b"!:".as_slice() {
        Some(Con::BangColon)
    } else if word == b"t.".as_slice() {
        Some(Con::TDot)
    } else {
        None
    }
}
