//! Lines without blanks at their ends.
ghost use Rattle.std.specs.Prelude.{◌≡◌};
ghost use Rattle.jwords.specs.Trim as trim;

use crate::alphabet::is_blank;

fn without_leading(text: &[u8]) -> &[u8]
    ensures { result.now ≡ trim.without_leading text.now }
{
    for (i, byte) in text.iter().enumerate() {
        if !is_blank(*byte) {
            return &text[i..];
        }
    }
    &text[text.len()..]
}

fn without_trailing(text: &[u8]) -> &[u8]
    ensures { result.now ≡ trim.without_trailing text.now }
{
    let mut end = text.len();
    while end > 0 {
        if !is_blank(text[end - 1]) {
            return &text[..end];
        }
        end -= 1;
    }
    &text[..0]
}

/// A line without the spaces and tabs at either end.
pub fn trimmed(line: &[u8]) -> &[u8]
    ensures { result.now ≡ trim.trimmed line.now }
{
    without_trailing(without_leading(line))
}
