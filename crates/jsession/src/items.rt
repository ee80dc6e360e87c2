//! The items of a script.
ghost use Rattle.std.specs.Prelude.{◌≡◌, ◌≤◌, length, take};
ghost use Rattle.std.specs.List.{list_all};
ghost use Rattle.jwords.specs.Alphabet as alphabet;
ghost use Rattle.jsession.specs.Items as items;

use jeval::LINE_LIMIT;
use jwords::is_blank;

fn is_blank_line(line: &[u8]) -> bool
    ensures { result ≡ list_all alphabet.is_blank line.now }
{
    for byte in line {
        if !is_blank(*byte) {
            return false;
        }
    }
    true
}

/// Whether a line is a sentence: it has words, or it is too long.
pub(crate) fn is_sentence(line: &[u8]) -> bool
    ensures { result ≡ items.is_sentence line.now }
{
    line.len() > LINE_LIMIT || !is_blank_line(line)
}

/// The bytes up to the last line end.
pub(crate) fn ended(bytes: &[u8]) -> &[u8]
    ensures { result.now ≡ items.ended bytes.now }
{
    let mut end = bytes.len();
    while end > 0 {
        if bytes[end - 1] == b'\n' {
            return &bytes[..end];
        }
        end -= 1;
    }
    &bytes[..0]
}
