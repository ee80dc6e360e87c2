//! The lines of a script.
ghost use Rattle.std.specs.Prelude.{◌≡◌, ◌∷◌, ◌<◌, length};
ghost use Rattle.std.specs.Str.Lines.{strip_carriage_return};
ghost use Rattle.jwords.specs.Lines.{lines_of};

/// A line without its end, and what comes after it.
#[derive(Clone, Copy)]
pub struct Line<'a> {
    pub text: &'a [u8],
    pub rest: &'a [u8],
}

fn without_return(text: &[u8]) -> &[u8]
    ensures { result.now ≡ strip_carriage_return text.now }
{
    if !text.is_empty() && text[text.len() - 1] == b'\r' {
        &text[..text.len() - 1]
    } else {
        text
    }
}

/// The first line of a script that isn't empty. It ends at a line feed, and a carriage return before that is dropped;
/// the last line may lack its end.
pub fn next_line(script: &[u8]) -> Line<'_>
    requires { 0 < length script.now }
    ensures lines { lines_of script.now ≡ result.text.now ∷ lines_of result.rest.now }
    ensures shorter { length result.rest.now < length script.now }
{
    for (i, byte) in script.iter().enumerate() {
        if *byte == b'\n' {
            return Line {
                text: without_return(&script[..i]),
                rest: &script[i + 1..],
            };
        }
    }
    Line {
        text: script,
        rest: &script[script.len()..],
    }
}
