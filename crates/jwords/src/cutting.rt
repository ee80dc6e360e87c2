//! A line cut into words.

ghost use Rattle.std.specs.Prelude.{◌≡◌, ◌≢◌, ◌≤◌, length, Ok, Err, IfOk, IfErr};
ghost use Rattle.jwords.specs.Formed.{words_of};
ghost use Rattle.jwords.specs.Words.{Words, HasFault};

use crate::alphabet::is_blank;
use crate::finding::find;
use crate::word::{Word, WordFault};
use std::alloc::Global;

/// The words of a line from left to right, or its first fault (J Dictionary, "Words"). The line has
/// at most 65,536 bytes.
pub fn words(alloc: Global, text: &[u8]) -> Result<Vec<Word>, WordFault>
    requires { length text.now ≤ 65536 }
    ensures words { IfOk result (λ words. Words text.now words.items) }
    ensures fault { IfErr result (λ fault. fault ≢ WordFault.NoMemory → HasFault text.now fault) }

    // The same by the function of the definitions.
    ensures formed { IfOk result (λ words. words_of text.now ≡ Ok words.items) }
    ensures formed_fault { IfErr result (λ fault. fault ≢ WordFault.NoMemory → words_of text.now ≡ Err fault) }
{
    let mut words = Vec::new(alloc);
    let mut at = 0;
    while at < text.len() {
        if is_blank(text[at]) {
            at += 1;
            continue;
        }
        let word = find(at as u32, &text[at..])?;
        if words.push(word).is_err() {
            return Err(WordFault::NoMemory);
        }
        at = word.end as usize;
    }
    Ok(words)
}
