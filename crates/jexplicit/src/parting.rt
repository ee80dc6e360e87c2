//! A line parted into its control words and its sentences.

ghost use Rattle.std.specs.Prelude.{◌≡◌, ◌<◌, ◌≤◌, ◌+◌, ◌++◌, ◌^◌, ◌==◌, ◌&&◌, OnOk, length, option_map};
ghost use Rattle.jexplicit.specs.Parting as parting;

use crate::kind::{Kind, Looping};
use crate::stretch::{Begun, Role, Stretch};
use jdata::NoMemory;
use jwords::{Word, WordKind};

/// The bytes of a word, of those that are there.
pub(crate) fn written<'a>(line: &'a [u8], word: &Word) -> &'a [u8]
    ensures { result.now ≡ parting.written line.entry.now word.now }
{
    let start = (word.start as usize).min(line.len());
    let end = (word.end as usize).min(line.len()).max(start);
    &line[start..end]
}

fn choice_word(run: &[u8]) -> Option<Kind>
    ensures { result ≡ parting.choice_word run.now }
{
    if run == b"if.".as_slice() {
        Some(Kind::If)
    } else if run == b"elseif.".as_slice() {
        Some(Kind::Elseif)
    } else if run == b"else.".as_slice() {
        Some(Kind::Else)
    } else if run == b"do.".as_slice() {
        Some(Kind::Do)
    } else if run == b"end.".as_slice() {
        Some(Kind::End)
    } else if run == b"select.".as_slice() {
        Some(Kind::Select)
    } else if run == b"case.".as_slice() {
        Some(Kind::Case { falls: false })
    } else if run == b"fcase.".as_slice() {
        Some(Kind::Case { falls: true })
    } else {
        None
    }
}

fn other_word(run: &[u8]) -> Option<Kind>
    ensures { result ≡ parting.other_word run.now }
{
    if run == b"try.".as_slice() {
        Some(Kind::Try)
    } else if run == b"catch.".as_slice() {
        Some(Kind::Catch)
    } else if run == b"assert.".as_slice() {
        Some(Kind::Assert)
    } else if run == b"break.".as_slice() {
        Some(Kind::Break)
    } else if run == b"continue.".as_slice() {
        Some(Kind::Continue)
    } else if run == b"return.".as_slice() {
        Some(Kind::Return)
    } else {
        None
    }
}

fn begins_named(run: &[u8]) -> bool
    ensures { result ≡ parting.begins_named run.now }
{
    if run.len() < 4 {
        return false;
    }
    &run[..4] == b"for_".as_slice()
}

fn loop_word(run: &[u8]) -> Option<Kind>
    ensures { result ≡ parting.loop_word run.now }
{
    if run == b"while.".as_slice() {
        Some(Kind::Loop(Looping::While))
    } else if run == b"whilst.".as_slice() {
        Some(Kind::Loop(Looping::Whilst))
    } else if run == b"for.".as_slice() || begins_named(run) {
        Some(Kind::Loop(Looping::For))
    } else {
        None
    }
}

fn control_of(run: &[u8]) -> Option<Kind>
    ensures { result ≡ parting.control_of run.now }
{
    if let Some(kind) = choice_word(run) {
        return Some(kind);
    }
    match loop_word(run) {
        Some(kind) => Some(kind),
        None => other_word(run),
    }
}

fn control_role(run: &[u8]) -> Role
    ensures { result ≡ parting.control_role (parting.control_of run.now) }
{
    match control_of(run) {
        Some(kind) => Role::Control(kind),
        None => Role::Other,
    }
}

fn brace_role(run: &[u8]) -> Role
    ensures { result ≡ parting.brace_role run.now }
{
    if run == b"{{".as_slice() {
        Role::Open
    } else if run == b"}}".as_slice() {
        Role::Close
    } else {
        Role::Other
    }
}

/// What a word of the line does to its parting.
pub(crate) fn role_of(line: &[u8], word: &Word) -> Role
    ensures { result ≡ parting.role_of line.now word.now }
{
    match word.kind {
        WordKind::Inflected => control_role(written(line, word)),
        WordKind::Graphic => brace_role(written(line, word)),
        WordKind::Comment => Role::Comment,
        WordKind::Name | WordKind::Number | WordKind::Text => Role::Other,
    }
}

/// How many pairs are open behind a word.
pub(crate) fn depth_after(role: Role, depth: usize) -> usize
    requires { depth + 1 < 2 ^ 64 }
    ensures depth { result ≡ parting.depth_after role depth }
    ensures more { result ≤ depth + 1 }
{
    match role {
        Role::Open => depth + 1,
        Role::Close => depth.saturating_sub(1),
        Role::Control(_) | Role::Comment | Role::Other => depth,
    }
}

fn begun_after(role: Role, at: usize, begun: Begun) -> Begun
    requires place { at + 1 < 2 ^ 64 }
    requires depth { begun.depth + 1 < 2 ^ 64 }
    ensures begun { result ≡ parting.begun_after role at begun }
    ensures depth { result.depth ≤ begun.depth + 1 }
{
    match role {
        Role::Control(_) if begun.depth == 0 => Begun {
            depth: 0,
            from: at + 1,
            full: false,
        },
        Role::Comment => begun,
        _ => Begun {
            depth: depth_after(role, begun.depth),
            from: begun.from,
            full: true,
        },
    }
}

// The sentence that ends before this place, if it has words.
fn end_sentence(
    number: usize,
    at: usize,
    begun: Begun,
    parts: &mut Vec<Stretch>,
) -> Result<(), NoMemory>
    ensures { OnOk result (parts.new.items ≡ parts.old.items ++ parting.sentence_before number at begun) }
{
    if begun.full {
        parts.push(Stretch {
            kind: Kind::Sentence,
            line: number,
            from: begun.from,
            to: at,
        })?;
    }
    Ok(())
}

// What ends at this word, and the word itself where it is a control word.
fn end_stretch(
    role: Role,
    number: usize,
    at: usize,
    begun: Begun,
    parts: &mut Vec<Stretch>,
) -> Result<(), NoMemory>
    requires { at + 1 < 2 ^ 64 }
    ensures { OnOk result (parts.new.items ≡ parts.old.items ++ parting.ended_by role number at begun) }
{
    match role {
        Role::Control(kind) if begun.depth == 0 => {
            end_sentence(number, at, begun, parts)?;
            parts.push(Stretch {
                kind,
                line: number,
                from: at,
                to: at + 1,
            })?;
            Ok(())
        }
        _ => Ok(()),
    }
}

/// Puts the control words and sentences of the line with this number behind those before.
pub(crate) fn part_line(
    number: usize,
    line: &[u8],
    words: &[Word],
    parts: &mut Vec<Stretch>,
) -> Result<(), NoMemory>
    ensures parts { OnOk result (parts.new.items ≡ parts.old.items ++ parting.stretches number line.now words.now) }
    ensures few { OnOk result (length parts.new.items ≤ length parts.old.items + length words.now) }
{
    let mut begun = Begun {
        depth: 0,
        from: 0,
        full: false,
    };
    for at in 0..words.len() {
        let role = role_of(line, &words[at]);
        end_stretch(role, number, at, begun, parts)?;
        begun = begun_after(role, at, begun);
    }
    end_sentence(number, words.len(), begun, parts)
}

fn closes_at(role: Role, depth: usize) -> bool
    ensures { result ≡ parting.closes_at role depth }
{
    match role {
        Role::Close => depth == 0,
        _ => false,
    }
}

/// Whether each brace of the line has its partner in it.
pub(crate) fn are_paired(line: &[u8], words: &[Word]) -> bool
    ensures { result ≡ parting.are_paired line.now words.now 0 }
{
    let mut depth = 0;
    for word in words {
        let role = role_of(line, word);
        if closes_at(role, depth) {
            return false;
        }
        depth = depth_after(role, depth);
    }
    depth == 0
}

fn is_letter_of(letters: &[u8], run: &[u8]) -> bool
    ensures { result ≡ parting.is_letter_of letters.now run.now }
{
    match run {
        [letter] => letters.contains(letter),
        _ => false,
    }
}

fn is_name(kind: WordKind) -> bool
    ensures { result ≡ parting.is_name kind }
{
    match kind {
        WordKind::Name => true,
        _ => false,
    }
}

// Whether the word is a name of one of these letters, and outside of pairs.
fn is_named(letters: &[u8], line: &[u8], word: &Word, depth: usize) -> bool
    ensures { result ≡ (depth == 0 && (parting.is_name word.now.kind && parting.is_letter_of letters.now (parting.written line.now word.now))) }
{
    depth == 0 && is_name(word.kind) && is_letter_of(letters, written(line, word))
}

/// Whether one of these letters is a name in the line, outside of pairs.
pub(crate) fn names_one(letters: &[u8], line: &[u8], words: &[Word]) -> bool
    ensures { result ≡ parting.names_one letters.now line.now words.now 0 }
{
    let mut depth = 0;
    for word in words {
        if is_named(letters, line, word, depth) {
            return true;
        }
        depth = depth_after(role_of(line, word), depth);
    }
    false
}

/// The name of a `for_name.`; none for another word.
pub(crate) fn item_name(run: &[u8]) -> Option<&[u8]>
    ensures { option_map (λ name. name.now) result ≡ parting.item_name run.now }
{
    if !begins_named(run) {
        return None;
    }
    let rest = &run[4..];
    Some(&rest[..rest.len().saturating_sub(1)])
}
