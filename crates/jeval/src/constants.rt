//! The nouns of number words and of quoted texts.
ghost use Rattle.std.specs.Prelude.{◌≡◌, IfOk, Some, option_map};
ghost use Rattle.jdata.specs.Limits.{checked};
ghost use Rattle.jdata.specs.Trees.{noun_of};
ghost use Rattle.jeval.specs.Constants as constants;

use jarray::Array;
use jdata::{Bytes, IntList, Leaves, NoMemory, Tree};
use jnumber::{Read, read};
use jterm::Datum;
use jwords::is_blank;
use std::alloc::Global;

/// The number that a run spells.
pub(crate) fn number(run: &[u8]) -> Option<i64>
    ensures { result ≡ constants.number run.now }
{
    match read(run) {
        Read::Number(number) => Some(number),
        Read::Wide => None,
        Read::Not => None,
    }
}

// A number of a word, or nothing for an underscore, which is no limit.
fn limit(run: &[u8]) -> Option<Option<i64>>
    ensures { result ≡ constants.limit run.now }
{
    if run == b"_".as_slice() {
        return Some(None);
    }
    match number(run) {
        Some(number) => Some(Some(number)),
        None => None,
    }
}

// The numbers before, and that of a run behind them; none where the run is no number.
fn with_run(mut numbers: Vec<Option<i64>>, run: &[u8]) -> Result<Option<Vec<Option<i64>>>, NoMemory>
    ensures { IfOk result (λ given. option_map (λ ns. ns.items) given ≡ constants.joined (Some numbers.items) (constants.numbers_of run.now)) }
{
    if run.is_empty() {
        return Ok(Some(numbers));
    }
    let Some(number) = limit(run) else {
        return Ok(None);
    };
    match numbers.push(number) {
        Ok(()) => Ok(Some(numbers)),
        Err(_) => Err(NoMemory),
    }
}

/// The numbers of a word, where each of its runs is one; nothing for each that is no limit.
pub(crate) fn numbers(alloc: Global, word: &[u8]) -> Result<Option<Vec<Option<i64>>>, NoMemory>
    ensures { IfOk result (λ numbers. option_map (λ ns. ns.items) numbers ≡ constants.numbers word.now) }
{
    let mut numbers = Vec::new(alloc);
    let mut start = 0;
    for (i, byte) in word.iter().enumerate() {
        if !is_blank(*byte) {
            continue;
        }
        match with_run(numbers, &word[start..i])? {
            Some(more) => numbers = more,
            None => return Ok(None),
        }
        start = i + 1;
    }
    with_run(numbers, &word[start..])
}

/// The integers, where each of the numbers is one.
pub(crate) fn all_integers(
    alloc: Global,
    numbers: &[Option<i64>],
) -> Result<Option<Vec<i64>>, NoMemory>
    ensures { IfOk result (λ integers. option_map (λ ns. ns.items) integers ≡ constants.all_integers numbers.now) }
{
    let mut integers = Vec::new(alloc);
    for number in numbers {
        let Some(integer) = number else {
            return Ok(None);
        };
        if integers.push(*integer).is_err() {
            return Err(NoMemory);
        }
    }
    Ok(Some(integers))
}

fn array(shape: Vec<u64>, items: Leaves) -> Option<Datum>
    ensures { result ≡ constants.if_array (checked (noun_of shape.items items)) }
{
    match Tree::new(shape, items) {
        Ok(tree) => Some(Datum::of(Array::of(tree))),
        Err(_) => None,
    }
}

/// The noun of integers: one is an atom, several are a list.
pub(crate) fn integers(alloc: Global, numbers: Vec<i64>) -> Result<Option<Datum>, NoMemory>
    ensures { IfOk result (λ array. array ≡ constants.integers numbers.items) }
{
    if let [number] = numbers.as_slice() {
        return Ok(Some(Datum::of(Array::atom(*number))));
    }
    match Vec::from_slice(alloc, &[numbers.len() as u64]) {
        Ok(shape) => Ok(array(shape, Leaves::Int(IntList::of(numbers)))),
        Err(_) => Err(NoMemory),
    }
}

// The characters between the quotes of a word.
fn characters(alloc: Global, inside: &[u8]) -> Result<Vec<u8>, NoMemory>
    ensures { IfOk result (λ bytes. bytes.items ≡ constants.characters inside.now) }
{
    let mut bytes = Vec::new(alloc);
    let mut doubled = false;
    for &byte in inside {
        if doubled {
            doubled = false;
        } else {
            if bytes.push(byte).is_err() {
                return Err(NoMemory);
            }
            doubled = byte == b'\'';
        }
    }
    Ok(bytes)
}

fn text_shape(alloc: Global, bytes: &[u8]) -> Result<Vec<u64>, NoMemory>
    ensures { IfOk result (λ shape. shape.items ≡ constants.text_shape bytes.now) }
{
    if bytes.len() == 1 {
        return Ok(Vec::new(alloc));
    }
    match Vec::from_slice(alloc, &[bytes.len() as u64]) {
        Ok(shape) => Ok(shape),
        Err(_) => Err(NoMemory),
    }
}

// What stands between the first byte and the last.
fn inside(word: &[u8]) -> &[u8]
    ensures { result.now ≡ constants.inside word.now }
{
    if word.len() < 2 {
        return &[];
    }
    &word[1..word.len() - 1]
}

/// The noun of a quoted text.
pub(crate) fn text_noun(alloc: Global, word: &[u8]) -> Result<Option<Datum>, NoMemory>
    ensures { IfOk result (λ noun. noun ≡ constants.text_noun word.now) }
{
    let Ok(bytes) = characters(alloc, inside(word)) else {
        return Err(NoMemory);
    };
    match text_shape(alloc, &bytes) {
        Ok(shape) => Ok(array(shape, Leaves::Char(Bytes::of(bytes)))),
        Err(NoMemory) => Err(NoMemory),
    }
}
