//! Quoted texts.

ghost use Rattle.std.specs.Prelude.{◌≡◌, ◌+◌, ◌<◌, ◌≤◌, ◌∷◌, ℕ, length, slice_index, IfSome, IfNone};
ghost use Rattle.jwords.specs.Alphabet.{quote};
ghost use Rattle.jwords.specs.Texts.{IsQuoted};

use crate::alphabet::QUOTE;

/// How many bytes the quoted text takes that starts with the first of these, if it is closed.
pub fn quoted_length(bytes: &[u8]) -> Option<usize>
    requires some { 0 < length bytes.now }
    requires quoted { slice_index bytes.now 0 ≡ quote }
    ensures some { IfSome result (IsQuoted bytes.now) }
    ensures none { IfNone result ((size : ℕ) → ¬ IsQuoted bytes.now size) }
    ensures within { IfSome result (λ size. (0 < size) × (size ≤ length bytes.now)) }
{
    match closing_length(&bytes[1..]) {
        Some(size) => Some(size + 1),
        None => None,
    }
}

/// How many bytes behind an opening quote its text takes, the closing quote among them.
fn closing_length(bytes: &[u8]) -> Option<usize>
    ensures some { IfSome result (λ size. IsQuoted (quote ∷ bytes.now) (size + 1)) }
    ensures none { IfNone result ((size : ℕ) → ¬ IsQuoted (quote ∷ bytes.now) size) }
    ensures within { IfSome result (λ size. size ≤ length bytes.now) }
{
    // Whether the last byte is a quote that closes the text unless another one follows.
    let mut closing = false;
    for (i, byte) in bytes.iter().enumerate() {
        if *byte == QUOTE {
            closing = !closing;
        } else if closing {
            return Some(i);
        }
    }
    if closing { Some(bytes.len()) } else { None }
}
