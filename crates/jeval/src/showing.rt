//! What is printed of a sentence.
ghost use Rattle.std.specs.Prelude.{◌≡◌, ◌++◌, ◌∷◌, [], Ok, Some, OnOk, IfOk};
ghost use Rattle.jformat.specs.Rows.{display_of};
ghost use Rattle.jnumber.specs.Spelling.{written};
ghost use Rattle.jwords.specs.Alphabet.{line_feed};
ghost use Rattle.jeval.specs.Made.{Answers};
ghost use Rattle.jeval.specs.Showing as showing;

use crate::end::{EvalEnd, NO_MEMORY};
use crate::stack::Parts;
use jarray::{Array, Room};
use jdata::{Bytes, Fault, NoMemory};
use jformat::display;
use jterm::{Datum, Part};
use jwords::trimmed;
use std::alloc::Global;

fn append(bytes: &[u8], out: &mut Vec<u8>) -> Result<(), NoMemory>
    ensures { OnOk result (out.new.items ≡ out.old.items ++ bytes.now) }
{
    match out.extend_from_slice(bytes) {
        Ok(()) => Ok(()),
        Err(_) => Err(NoMemory),
    }
}

fn append_fault(fault: Fault, line: &[u8], out: &mut Vec<u8>) -> Result<(), NoMemory>
    ensures { OnOk result (out.new.items ≡ out.old.items ++ showing.fault_lines fault line.now) }
{
    append(b"|", out)?;
    append(fault.text().as_bytes(), out)?;
    append(b"\n|   ", out)?;
    append(trimmed(line), out)?;
    append(b"\n", out)
}

/// The fault's words behind a bar, and the sentence behind a bar and three blanks.
pub(crate) fn fault_lines(alloc: Global, fault: Fault, line: &[u8]) -> Result<Bytes, NoMemory>
    ensures { IfOk result (λ bytes. bytes ≡ showing.fault_lines fault line.now) }
{
    let mut out = Vec::new(alloc);
    append_fault(fault, line, &mut out)?;
    Ok(Bytes::of(out))
}

fn number_row(alloc: Global, number: i64) -> Result<Bytes, NoMemory>
    ensures { IfOk result (λ bytes. bytes ≡ written number ++ line_feed ∷ []) }
{
    let mut out = Vec::new(alloc);
    match jnumber::write(number, &mut out) {
        Ok(()) => {
            append(b"\n", &mut out)?;
            Ok(Bytes::of(out))
        }
        Err(_) => Err(NoMemory),
    }
}

#[tactic(auto, using(jformat::specs::Single::display_of_int_atom))]
fn display_rows(alloc: Global, room: &mut Room, value: Array) -> Result<Bytes, NoMemory>
    ensures { IfOk result (λ bytes. bytes ≡ display_of value.noun) }
{
    match value.integer(room) {
        Some(number) => number_row(alloc, number),
        None => {
            let tree = value.into_tree(alloc, room)?;
            let bytes = display(alloc, &tree)?;
            Ok(Bytes::of(bytes))
        }
    }
}

// The rows of a value.
fn rows(alloc: Global, room: &mut Room, value: Datum) -> Result<Option<Bytes>, EvalEnd>
    ensures { Answers (showing.rows value) result }
{
    let value = value.into_array();
    match display_rows(alloc, room, value) {
        Ok(bytes) => Ok(Some(bytes)),
        Err(NoMemory) => Err(NO_MEMORY),
    }
}

fn row_of(alloc: Global, word: &[u8]) -> Result<Bytes, NoMemory>
    ensures { IfOk result (λ bytes. bytes ≡ showing.word_row word.now) }
{
    let mut out = Vec::new(alloc);
    append(word, &mut out)?;
    append(b"\n", &mut out)?;
    Ok(Bytes::of(out))
}

// A word in a row of its own.
fn word_row(alloc: Global, word: &[u8]) -> Result<Option<Bytes>, EvalEnd>
    ensures { Answers (Ok (Some (showing.word_row word.now))) result }
{
    match row_of(alloc, word) {
        Ok(bytes) => Ok(Some(bytes)),
        Err(NoMemory) => Err(NO_MEMORY),
    }
}

// What a value shows where it is the whole result.
fn shown_part(alloc: Global, room: &mut Room, part: Part) -> Result<Option<Bytes>, EvalEnd>
    ensures { Answers (showing.shown_part part) result }
{
    match part {
        Part::Noun(value) => rows(alloc, room, value),
        Part::Verb { found: true, .. } => word_row(alloc, b"verb"),
        Part::Verb { found: false, .. } => Err(EvalEnd::Fault(Fault::Value)),
        Part::Ranks(_) => Err(EvalEnd::Fault(Fault::Nonce)),
        Part::Adverb(_) => word_row(alloc, b"adverb"),
        Part::Conj(_) => word_row(alloc, b"conjunction"),
        _ => Ok(None),
    }
}

// The value behind the mark.
fn ending_value(mut parts: Parts) -> Option<Part>
    ensures { result ≡ showing.ending_value parts }
{
    match parts.pop() {
        Some(_) => parts.pop(),
        None => None,
    }
}

/// What a sentence shows at its end: rows, or nothing.
pub(crate) fn shown(
    alloc: Global,
    room: &mut Room,
    parts: Parts,
    assigned: bool,
) -> Result<Option<Bytes>, EvalEnd>
    ensures { Answers (showing.shown (parts, assigned)) result }
{
    if assigned {
        return Ok(None);
    }
    match ending_value(parts) {
        Some(part) => shown_part(alloc, room, part),
        None => Ok(None),
    }
}
