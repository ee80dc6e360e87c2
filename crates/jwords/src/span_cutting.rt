//! A text cut by monadic `;:`.

ghost use Rattle.std.specs.Prelude.{◌≡◌, ◌≢◌, ◌≤◌, ◌^◌, length, Ok, Err, IfOk, IfErr};
ghost use Rattle.jwords.specs.Formed.{spans_of};
ghost use Rattle.jwords.specs.Spans.{Spans, HasOpenQuote};

use crate::alphabet::is_blank;
use crate::span_finding::find_span;
use crate::word::{SpanFault, Word};
use std::alloc::Global;

/// The words of a text by monadic `;:`, or its first open quote (NuVoc, "Words"). The text has at
/// most 2^27 bytes.
pub fn spans(alloc: Global, text: &[u8]) -> Result<Vec<Word>, SpanFault>
    requires { length text.now ≤ 2 ^ 27 }
    ensures words { IfOk result (λ words. Spans text.now words.items) }
    ensures fault { IfErr result (λ fault. fault ≢ SpanFault.NoMemory → HasOpenQuote text.now fault) }

    // The same by the function of the definitions.
    ensures formed { IfOk result (λ words. spans_of text.now ≡ Ok words.items) }
    ensures formed_fault { IfErr result (λ fault. fault ≢ SpanFault.NoMemory → spans_of text.now ≡ Err fault) }
{
    let mut words = Vec::new(alloc);
    let mut at = 0;
    while at < text.len() {
        if is_blank(text[at]) {
            at += 1;
            continue;
        }
        let word = find_span(at as u32, &text[at..])?;
        if words.push(word).is_err() {
            return Err(SpanFault::NoMemory);
        }
        at = word.end as usize;
    }
    Ok(words)
}
