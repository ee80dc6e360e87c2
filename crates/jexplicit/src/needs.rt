//! Which further lines a sentence takes.

ghost use Rattle.std.specs.Prelude.{◌≡◌, ◌+◌, ◌<◌, ◌≤◌, ◌^◌, ◌==◌, ◌&&◌, codes, drop, length};
ghost use Rattle.std.specs.Str.{bytes_eq};
ghost use Rattle.jexplicit.specs.Needs as needs;

use crate::parting::{depth_after, role_of, written};
use crate::taking::Need;
use jnumber::{Read, read};
use jwords::Word;

#[tactic(auto, using(crate::proofs::Values::same_pos))]
fn is_same(number: i64, small: u8) -> bool
    ensures { result ≡ needs.is_pos small number }
{
    number == i64::from(small)
}

#[tactic(auto, using(crate::proofs::Values::no_value_not, crate::proofs::Values::no_value_wide))]
fn is_value(run: &[u8], small: u8) -> bool
    ensures { result ≡ needs.is_value small run.now }
{
    match read(run) {
        Read::Number(number) => is_same(number, small),
        Read::Wide | Read::Not => false,
    }
}

fn takes_lines(run: &[u8]) -> bool
    ensures { result ≡ needs.takes_lines run.now }
{
    is_value(run, 0) || is_value(run, 3) || is_value(run, 4)
}

fn is_body(left: &[u8], colon: &[u8], right: &[u8]) -> bool
    ensures { result ≡ (needs.takes_lines left.now && (bytes_eq colon.now (codes ":") && needs.is_value 0 right.now)) }
{
    takes_lines(left) && colon == b":".as_slice() && is_value(right, 0)
}

fn begins_body(line: &[u8], words: &[Word]) -> bool
    ensures { result ≡ needs.begins_body line.now words.now }
{
    match words {
        [left, colon, right, ..] => is_body(
            written(line, left),
            written(line, colon),
            written(line, right),
        ),
        _ => false,
    }
}

// How far the bodies are counted: how many there are, the pairs that are open, and how many of the next words belong to
// the last body.
#[derive(Clone, Copy)]
struct Counted {
    bodies: u32,
    depth: usize,
    behind: usize,
}

// Whether a body begins with these words, outside of pairs.
fn starts_body(line: &[u8], words: &[Word], depth: usize) -> bool
    ensures { result ≡ (depth == 0 && needs.begins_body line.now words.now) }
{
    depth == 0 && begins_body(line, words)
}

// Counts on over one word.
#[tactic(auto, using(crate::proofs::Counting::goes_on, crate::proofs::Counting::takes_body, crate::proofs::Counting::goes_past))]
fn count_word(line: &[u8], words: &[Word], at: usize, so_far: Counted) -> Counted
    requires within { at < length words.now }
    requires bodies { so_far.bodies + 1 < 2 ^ 32 }
    requires depth { so_far.depth + 1 < 2 ^ 64 }
    ensures counted { result.bodies + needs.bodies line.now (drop (at + 1) words.now) result.depth result.behind ≡ so_far.bodies + needs.bodies line.now (drop at words.now) so_far.depth so_far.behind }
    ensures bodies { result.bodies ≤ so_far.bodies + 1 }
    ensures depth { result.depth ≤ so_far.depth + 1 }
{
    if so_far.behind > 0 {
        return Counted {
            behind: so_far.behind - 1,
            ..so_far
        };
    }
    if starts_body(line, &words[at..], so_far.depth) {
        return Counted {
            bodies: so_far.bodies + 1,
            behind: 2,
            ..so_far
        };
    }
    Counted {
        depth: depth_after(role_of(line, &words[at]), so_far.depth),
        ..so_far
    }
}

// How many bodies the words take.
fn bodies(line: &[u8], words: &[Word]) -> u32
    requires { length words.now < 2 ^ 32 }
    ensures { result ≡ needs.bodies line.now words.now 0 0 }
{
    let mut counted = Counted {
        bodies: 0,
        depth: 0,
        behind: 0,
    };
    for at in 0..words.len() {
        counted = count_word(line, words, at, counted);
    }
    counted.bodies
}

// How many pairs are open behind the words.
fn open_behind(line: &[u8], words: &[Word]) -> usize
    ensures depth { result ≡ needs.open_behind line.now words.now 0 }
    ensures few { result ≤ length words.now }
{
    let mut depth = 0;
    for word in words {
        depth = depth_after(role_of(line, word), depth);
    }
    depth
}

/// Which further lines the sentence with these words takes. Where a `{{` is open, the lines up to its `}}` come first.
pub fn need(words: &[Word], text: &[u8]) -> Need
    requires { length words.now < 2 ^ 32 }
    ensures { result ≡ needs.need_of words.now text.now }
{
    let depth = open_behind(text, words) as u32;
    let bodies = bodies(text, words);
    if depth > 0 {
        Need::Brace { depth }
    } else if bodies > 0 {
        Need::Lines { bodies }
    } else {
        Need::Nothing
    }
}
