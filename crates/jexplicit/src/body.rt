//! The lines of a body, each cut into words, and which of them are the monad and which the dyad.

ghost use Rattle.std.specs.Prelude.{◌≡◌, ◌<◌, ◌≤◌, ◌+◌, ◌∷◌, ◌^◌, [], ◌==◌, MatchOption, IfOk, IfSome, length};
ghost use Rattle.std.specs.List.{position_or_len};
ghost use Rattle.jdata.specs.Answers.{Answers};
ghost use Rattle.jwords.specs.Alphabet.{first};
ghost use Rattle.jexplicit.specs.Body as body;
ghost use Rattle.jexplicit.specs.Body.{lines_of};

use crate::parting::{are_paired, names_one, part_line};
use crate::stretch::Stretch;
use jdata::{Bytes, Fault, NoMemory, Sequence, Trouble};
use jwords::{Word, WordFault, trimmed, words};
use std::alloc::Global;

/// How many bytes a line may have.
const LINE_LIMIT: usize = 65_536;

/// How a body is written.
#[derive(Clone, Copy, Debug, PartialEq, Eq)]
pub enum Form {
    /// `3 : n`: the first line of a colon alone parts the monad from the dyad behind it.
    Monad,
    /// `4 : n`: all lines are the dyad.
    Dyad,
    /// `{{ }}`: a dyad where it names `x`, else a monad.
    Direct,
}

/// A line with its words.
#[derive(Debug, Drop)]
pub struct CutLine {
    pub text: Bytes,
    pub words: Sequence<Word>,
}

/// Where the lines of the monad end, and where those of the dyad begin.
#[derive(Clone, Copy, Debug)]
pub struct Split {
    pub monad_to: usize,
    pub dyad_from: usize,
}

fn trouble_of(why: WordFault) -> Trouble
    ensures { result ≡ body.trouble_of why }
{
    match why {
        WordFault::OpenQuote { .. } => Trouble::Fault(Fault::OpenQuote),
        WordFault::Spelling { .. } => Trouble::Fault(Fault::Spelling),
        WordFault::IllFormed { .. } => Trouble::Fault(Fault::IllFormed),
        WordFault::NoMemory => Trouble::NoMemory,
    }
}

fn kept(alloc: Global, line: &[u8], words: Vec<Word>) -> Result<CutLine, NoMemory>
    ensures { IfOk result (λ cut. (cut.text ≡ line.now) × (cut.words ≡ words.items)) }
{
    Ok(CutLine {
        text: Bytes::of(Vec::from_slice(alloc, line)?),
        words: Sequence::of(words),
    })
}

// A line with its words, unless it is too long.
#[tactic(auto, using(crate::proofs::Lines::fewer_words))]
fn cut_line(alloc: Global, line: &[u8]) -> Result<CutLine, Trouble>
    ensures cut { Answers (body.cut_line line.now) result }
    ensures few { IfOk result (λ cut. length cut.words ≤ length line.now) }
{
    if line.len() > LINE_LIMIT {
        return Err(Trouble::Fault(Fault::Limit));
    }
    match words(alloc, line) {
        Ok(words) => match kept(alloc, line, words) {
            Ok(cut) => Ok(cut),
            Err(NoMemory) => Err(Trouble::NoMemory),
        },
        Err(why) => Err(trouble_of(why)),
    }
}

// The first line and what is behind its line feed, if there is one.
fn first_line(text: &[u8]) -> Option<(&[u8], &[u8])>
    ensures lines { MatchOption result (lines_of text.now ≡ text.now ∷ []) (λ parts. lines_of text.now ≡ parts.0.now ∷ lines_of parts.1.now) }
    ensures shorter { IfSome result (λ parts. length parts.0.now + length parts.1.now < length text.now) }
{
    for (i, byte) in text.iter().enumerate() {
        if *byte == b'\n' {
            return Some((&text[..i], &text[i + 1..]));
        }
    }
    None
}

// All lines of a text that isn't empty.
fn cut_all(alloc: Global, text: &[u8]) -> Result<Sequence<CutLine>, Trouble>
    ensures cut { Answers (body.cut_all (lines_of text.now)) result }
    ensures few { IfOk result (λ lines. length lines ≤ length text.now + 1) }
    ensures words { IfOk result (λ lines. body.words_in lines ≤ length text.now) }
{
    let mut lines = Sequence::of(Vec::new(alloc));
    let mut rest = text;
    while let Some((line, more)) = first_line(rest) {
        let cut = cut_line(alloc, line)?;
        lines.push(cut)?;
        rest = more;
    }
    let last = cut_line(alloc, rest)?;
    lines.push(last)?;
    Ok(lines)
}

/// The lines of a text, each with its words, or the fault of the first line that has one.
pub(crate) fn cut_lines(alloc: Global, text: &[u8]) -> Result<Sequence<CutLine>, Trouble>
    ensures cut { Answers (body.cut_lines text.now) result }
    ensures few { IfOk result (λ lines. length lines ≤ length text.now + 1) }
    ensures words { IfOk result (λ lines. body.words_in lines ≤ length text.now) }
{
    if text.is_empty() {
        return Ok(Sequence::of(Vec::new(alloc)));
    }
    cut_all(alloc, text)
}

fn is_colon(line: &CutLine) -> bool
    ensures { result ≡ body.is_colon line.now }
{
    trimmed(line.text.items()) == b":".as_slice()
}

fn colon_place(lines: &[CutLine]) -> usize
    ensures place { result ≡ position_or_len body.is_colon lines.now }
    ensures within { result ≤ length lines.now }
{
    for (i, line) in lines.iter().enumerate() {
        if is_colon(line) {
            return i;
        }
    }
    lines.len()
}

fn names(letters: &[u8], lines: &[CutLine]) -> bool
    ensures { result ≡ body.names letters.now lines.now }
{
    for line in lines {
        if names_one(letters, line.text.items(), line.words.items()) {
            return true;
        }
    }
    false
}

fn all_dyad() -> Split
    ensures { result ≡ body.split 0 0 }
{
    Split {
        monad_to: 0,
        dyad_from: 0,
    }
}

/// Which lines are the monad and which the dyad.
pub(crate) fn split_of(form: Form, lines: &[CutLine]) -> Split
    requires { length lines.now + 1 < 2 ^ 64 }
    ensures split { result ≡ body.split_of form lines.now }
    ensures order { result.monad_to ≤ result.dyad_from }
    ensures within { result.dyad_from ≤ length lines.now + 1 }
{
    match form {
        Form::Monad => {
            let colon = colon_place(lines);
            Split {
                monad_to: colon,
                dyad_from: colon + 1,
            }
        }
        Form::Dyad => all_dyad(),
        Form::Direct if names(b"x", lines) => all_dyad(),
        Form::Direct => Split {
            monad_to: lines.len(),
            dyad_from: lines.len(),
        },
    }
}

fn begins_with_parenthesis(text: &[u8]) -> bool
    ensures { result ≡ (first text.now == 41) }
{
    match text.first() {
        Some(byte) => *byte == b')',
        None => false,
    }
}

/// Whether a direct definition has what isn't built.
pub(crate) fn is_refused(form: Form, text: &[u8], lines: &[CutLine]) -> bool
    ensures { result ≡ body.is_refused form text.now lines.now }
{
    match form {
        Form::Monad | Form::Dyad => false,
        Form::Direct => begins_with_parenthesis(text) || names(b"uvmn", lines),
    }
}

/// Whether each brace has its partner in its line.
pub(crate) fn all_paired(lines: &[CutLine]) -> bool
    ensures { result ≡ body.all_paired lines.now }
{
    for line in lines {
        if !are_paired(line.text.items(), line.words.items()) {
            return false;
        }
    }
    true
}

/// The control words and sentences of lines, of which the first has this number.
pub(crate) fn parts_of(
    alloc: Global,
    number: usize,
    lines: &[CutLine],
) -> Result<Sequence<Stretch>, NoMemory>
    requires { number + length lines.now < 2 ^ 64 }
    ensures parts { IfOk result (λ parts. parts ≡ body.parts_of number lines.now) }
    ensures few { IfOk result (λ parts. length parts ≤ body.words_in lines.now) }
{
    let mut parts = Vec::new(alloc);
    for (at, line) in lines.iter().enumerate() {
        part_line(
            number + at,
            line.text.items(),
            line.words.items(),
            &mut parts,
        )?;
    }
    Ok(Sequence::of(parts))
}
