//! The words of a sentence as they wait to be moved.
ghost use Rattle.std.specs.Prelude.{◌≡◌, ◌-◌, IfOk, Some, take, drop, length};
ghost use Rattle.jeval.specs.Constants.{numbers as numbers_of_word};
ghost use Rattle.jeval.specs.Queue as queues;
ghost use Rattle.jeval.specs.declared.queue.Queued.TheVariants.{Named as named};

use crate::constants::{all_integers, integers, number, numbers, text_noun};
use crate::operators::{adverb_of, conj_of};
use crate::stack::Stack;
use jarray::Array;
use jdata::{Name, NoMemory, Primitive};
use jterm::{Datum, Part, RankList, Term};
use jwords::{Word, WordKind};
use std::alloc::Global;

/// A word as it waits.
#[derive(Debug, Drop)]
pub(crate) enum Queued {
    Ready(Part),
    /// A name, which is looked up as it is moved.
    Named(Name),
}

fn is_copula(run: &[u8]) -> bool
    ensures { result ≡ queues.is_copula run.now }
{
    run == b"=.".as_slice() || run == b"=:".as_slice()
}

fn verb_part(verb: Primitive) -> Queued
    ensures { Some result ≡ queues.verb_part (Some verb) }
{
    Queued::Ready(Part::Verb {
        term: Term::Verb(verb),
        found: true,
    })
}

// The adverb, conjunction or verb that a word spells.
fn operator_item(run: &[u8]) -> Option<Queued>
    ensures { result ≡ queues.operator_item run.now }
{
    if let Some(word) = adverb_of(run) {
        return Some(Queued::Ready(Part::Adverb(word)));
    }
    if let Some(word) = conj_of(run) {
        return Some(Queued::Ready(Part::Conj(word)));
    }
    match Primitive::of(run) {
        Some(verb) => Some(verb_part(verb)),
        None => None,
    }
}

// All but the last byte.
fn without_last(run: &[u8]) -> &[u8]
    ensures { result.now ≡ take (length run.now - 1) run.now }
{
    if run.is_empty() {
        return run;
    }
    &run[..run.len() - 1]
}

// A constant verb has its number in front of its colon.
fn inflected_item(run: &[u8]) -> Option<Queued>
    ensures { result ≡ queues.inflected_item run.now }
{
    match number(without_last(run)) {
        Some(number) => Some(Queued::Ready(Part::Verb {
            term: Term::Const(number),
            found: true,
        })),
        None => operator_item(run),
    }
}

fn symbol(run: &[u8]) -> Option<Queued>
    ensures { result ≡ queues.symbol run.now }
{
    if is_copula(run) {
        Some(Queued::Ready(Part::Copula {
            local: run == b"=.".as_slice(),
        }))
    } else if run == b"(".as_slice() {
        Some(Queued::Ready(Part::Left))
    } else if run == b")".as_slice() {
        Some(Queued::Ready(Part::Right))
    } else {
        operator_item(run)
    }
}

fn noun_part(noun: Option<Datum>) -> Option<Queued>
    ensures { result ≡ queues.noun_part noun }
{
    match noun {
        Some(noun) => Some(Queued::Ready(Part::Noun(noun))),
        None => None,
    }
}

// Whether another byte than an underscore stands behind.
fn is_followed(behind: &[u8]) -> bool
    ensures { result ≡ queues.is_followed behind.now }
{
    match behind.first() {
        Some(byte) => *byte != b'_',
        None => false,
    }
}

// An underscore needs another byte behind it.
fn may_stand(byte: u8, behind: &[u8]) -> bool
    ensures { result ≡ queues.may_stand byte behind.now }
{
    byte != b'_' || is_followed(behind)
}

fn is_plain(name: &[u8]) -> bool
    ensures { result ≡ queues.is_plain name.now }
{
    for (i, byte) in name.iter().enumerate() {
        if !may_stand(*byte, &name[i + 1..]) {
            return false;
        }
    }
    true
}

fn name(alloc: Global, run: &[u8]) -> Result<Queued, NoMemory>
    ensures { IfOk result (λ queued. queued ≡ named run.now) }
{
    match Vec::from_slice(alloc, run) {
        Ok(bytes) => Ok(Queued::Named(Name::of(bytes))),
        Err(_) => Err(NoMemory),
    }
}

// A plain name; another name isn't built.
fn name_item(alloc: Global, run: &[u8]) -> Result<Option<Queued>, NoMemory>
    ensures { IfOk result (λ item. item ≡ queues.name_item run.now) }
{
    if !is_plain(run) {
        return Ok(None);
    }
    match name(alloc, run) {
        Ok(item) => Ok(Some(item)),
        Err(NoMemory) => Err(NoMemory),
    }
}

fn noun_item(noun: Result<Option<Datum>, NoMemory>) -> Result<Option<Queued>, NoMemory>
    ensures { queues.IsItem noun result }
{
    match noun {
        Ok(noun) => Ok(noun_part(noun)),
        Err(NoMemory) => Err(NoMemory),
    }
}

// The noun of numbers, or a number word with `_`.
fn numbers_item(alloc: Global, all: Vec<Option<i64>>) -> Result<Option<Queued>, NoMemory>
    ensures { IfOk result (λ item. item ≡ queues.numbers_item (Some all.items)) }
{
    // one number takes no further memory
    if let [Some(number)] = all.as_slice() {
        return Ok(noun_part(Some(Datum::of(Array::atom(*number)))));
    }
    match all_integers(alloc, &all) {
        Ok(Some(numbers)) => noun_item(integers(alloc, numbers)),
        Ok(None) => Ok(Some(Queued::Ready(Part::Ranks(RankList::of(all))))),
        Err(NoMemory) => Err(NoMemory),
    }
}

fn number_item(alloc: Global, run: &[u8]) -> Result<Option<Queued>, NoMemory>
    ensures { IfOk result (λ item. item ≡ queues.numbers_item (numbers_of_word run.now)) }
{
    match numbers(alloc, run) {
        Ok(Some(all)) => numbers_item(alloc, all),
        Ok(None) => Ok(None),
        Err(NoMemory) => Err(NoMemory),
    }
}

// What a word is, where it is built.
fn item_of(alloc: Global, kind: WordKind, run: &[u8]) -> Result<Option<Queued>, NoMemory>
    ensures { IfOk result (λ item. item ≡ queues.item_of kind run.now) }
{
    match kind {
        WordKind::Name => name_item(alloc, run),
        WordKind::Number => number_item(alloc, run),
        WordKind::Text => noun_item(text_noun(alloc, run)),
        WordKind::Graphic => Ok(symbol(run)),
        WordKind::Inflected => Ok(inflected_item(run)),
        WordKind::Comment => Ok(None),
    }
}

// The bytes from the one place up to before the other, of those that are there.
fn between(line: &[u8], start: usize, end: usize) -> &[u8]
    ensures { result.now ≡ take (end - start) (drop start line.now) }
{
    let start = start.min(line.len());
    let end = end.min(line.len()).max(start);
    &line[start..end]
}

fn is_comment(kind: WordKind) -> bool
    ensures { result ≡ queues.is_comment kind }
{
    kind == WordKind::Comment
}

/// The words of a line as they wait, the last one in front, and behind them the mark; none where a word isn't built.
pub(crate) fn queue(
    alloc: Global,
    line: &[u8],
    words: &[Word],
) -> Result<Option<Stack<Queued>>, NoMemory>
    ensures { IfOk result (λ queue. queue ≡ queues.queue_of line.now words.now) }
{
    let mut queue = Stack::new(alloc);
    if queue.push(Queued::Ready(Part::Mark)).is_err() {
        return Err(NoMemory);
    }
    for word in words {
        if is_comment(word.kind) {
            return Ok(Some(queue));
        }
        let run = between(line, word.start as usize, word.end as usize);
        let Ok(item) = item_of(alloc, word.kind, run) else {
            return Err(NoMemory);
        };
        let Some(item) = item else {
            return Ok(None);
        };
        if queue.push(item).is_err() {
            return Err(NoMemory);
        }
    }
    Ok(Some(queue))
}
