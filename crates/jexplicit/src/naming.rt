//! The names of `for_name.`.

ghost use Rattle.std.specs.Prelude.{◌≡◌, option_map};
ghost use Rattle.jexplicit.specs.Meant as meant;

use crate::kind::{Kind, Looping};
use crate::parting::{item_name, written};
use jwords::Word;

pub(crate) fn is_for(kind: Kind) -> bool
    ensures { result ≡ meant.is_for_kind kind }
{
    match kind {
        Kind::Loop(Looping::For) => true,
        _ => false,
    }
}

/// The name in a word of a loop.
pub(crate) fn named_by<'a>(line: &'a [u8], words: &[Word]) -> Option<&'a [u8]>
    ensures { option_map (λ name. name.now) result ≡ meant.named_by line.entry.now words.now }
{
    match words.first() {
        Some(word) => item_name(written(line, word)),
        None => None,
    }
}
