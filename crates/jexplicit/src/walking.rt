//! Preparing a body: forward over its words, and then back.

ghost use Rattle.std.specs.Prelude.{◌≡◌, ◌<◌, ◌≤◌, ◌+◌, ◌*◌, ◌^◌, ◌∷◌, [], reverse, All, IfOk, OnOk, IfSome, Some, None, if◌then◌else◌, option_map, length, drop, false};
ghost use Rattle.jcontrol.specs.Machine.{IsSound};
ghost use Rattle.jcontrol.specs.declared.prepared.Act.TheVariants as act;
ghost use Rattle.jexplicit.specs.Preparing.{IsPrepared, ahead_after, aheads_after, end_of_body, entered, inside_after, last_ahead, last_of, prepares, put, reached_after, saved_after, spots, start, starts_do, whole, without, without_ahead, word_of, written};
ghost use Rattle.jexplicit.specs.Reading.{reads};

use crate::backward::{behind, turned, writes};
use crate::checking::reads;
use crate::forward::{claimed, deeper, entered};
use crate::kind::Kind;
use crate::spot::{Ahead, Entry, Few, Group, Inside, Reached, Spot, Turn};
use jcontrol::{Act, Prepared};
use jdata::NoMemory;
use std::alloc::Global;
use std::collections::VecDeque;

fn whole() -> Inside
    ensures { result ≡ whole }
{
    Inside {
        group: Group::Body,
        test: None,
        outer: None,
    }
}

fn start(first: u32) -> Reached
    ensures { result ≡ start first }
{
    Reached {
        number: first,
        place: 1,
        depth: 0,
        claim: None,
        inside: whole(),
    }
}

fn end_of_body() -> Ahead
    ensures { result ≡ end_of_body }
{
    Ahead {
        exit: 0,
        failed: 0,
        block: 0,
        catch: None,
        again: None,
        outer: None,
    }
}

fn starts_do(kinds: &[Kind], at: usize) -> bool
    ensures { result ≡ starts_do (drop at kinds.now) }
{
    match kinds.get(at) {
        Some(Kind::Do) => true,
        _ => false,
    }
}

fn pop_inside(saved: &mut VecDeque<Inside>) -> Inside
    ensures inside { result ≡ last_of saved.old.items }
    ensures saved { saved.new.items ≡ without saved.old.items }
{
    match saved.pop_front() {
        Some(inside) => inside,
        None => whole(),
    }
}

fn inside_after(
    entry: Entry,
    inside: Inside,
    saved: &mut VecDeque<Inside>,
) -> Result<Inside, NoMemory>
    ensures inside { IfOk result (λ next. next ≡ inside_after entry inside saved.old.items) }
    ensures saved { OnOk result (saved.new.items ≡ saved_after entry inside saved.old.items) }
{
    match entry {
        Entry::Stay => Ok(inside),
        Entry::Open(next) => {
            saved.push_front(inside)?;
            Ok(next)
        }
        Entry::Into(next) => Ok(next),
        Entry::Close => Ok(pop_inside(saved)),
    }
}

// How far the body is read behind this word.
fn reached_after(spot: Spot, saved: &mut VecDeque<Inside>) -> Result<Reached, NoMemory>
    requires number { spot.at.number + 1 < 2 ^ 32 }
    requires place { spot.at.place + 1 + 1 < 2 ^ 64 }
    requires depth { spot.at.depth + 1 < 2 ^ 64 }
    ensures reached { IfOk result (λ next. next ≡ reached_after spot saved.old.items) }
    ensures saved { OnOk result (saved.new.items ≡ saved_after (entered spot) spot.at.inside saved.old.items) }
    ensures number { IfOk result (λ next. next.number ≡ spot.at.number + 1) }
    ensures place { IfOk result (λ next. next.place ≤ spot.at.place + 2) }
    ensures depth { IfOk result (λ next. next.depth ≤ spot.at.depth + 1) }
{
    let at = spot.at;
    let inside = inside_after(entered(spot), at.inside, saved)?;
    Ok(Reached {
        number: at.number + 1,
        place: behind(writes(spot, end_of_body()), at.place),
        depth: deeper(spot),
        claim: claimed(spot),
        inside,
    })
}

// Where each word stands.
fn spots(alloc: Global, first: u32, kinds: &[Kind]) -> Result<Vec<Spot>, NoMemory>
    requires few { first + length kinds.now < 2 ^ 32 }
    ensures spots { IfOk result (λ all. all.items ≡ spots kinds.now (start first) []) }
    ensures places { IfOk result (λ all. All (λ spot. spot.at.place + 1 + 1 < 2 ^ 64) all.items) }
{
    let mut all = Vec::with_capacity(alloc, kinds.len())?;
    let mut saved = VecDeque::new(alloc);
    let mut at = start(first);
    for index in 0..kinds.len() {
        let spot = Spot {
            kind: kinds[index],
            before_do: starts_do(kinds, index + 1),
            at,
        };
        all.push(spot)?;
        at = reached_after(spot, &mut saved)?;
    }
    Ok(all)
}

// Puts prepared words in front of those that are written, which stand last first.
fn put(few: Few, words: &mut Vec<Prepared>) -> Result<(), NoMemory>
    ensures { OnOk result (reverse words.new.items ≡ put few (reverse words.old.items)) }
{
    match few {
        Few::Nothing => {}
        Few::One(first) => words.push(first)?,
        Few::Two(first, second) => {
            words.push(second)?;
            words.push(first)?;
        }
    }
    Ok(())
}

fn pop_ahead(saved: &mut VecDeque<Ahead>) -> Ahead
    ensures ahead { result ≡ last_ahead saved.old.items }
    ensures saved { saved.new.items ≡ without_ahead saved.old.items }
{
    match saved.pop_front() {
        Some(ahead) => ahead,
        None => end_of_body(),
    }
}

fn ahead_after(turn: Turn, ahead: Ahead, saved: &mut VecDeque<Ahead>) -> Result<Ahead, NoMemory>
    ensures ahead { IfOk result (λ next. next ≡ ahead_after turn ahead saved.old.items) }
    ensures saved { OnOk result (saved.new.items ≡ aheads_after turn ahead saved.old.items) }
{
    match turn {
        Turn::Stay => Ok(ahead),
        Turn::Open(next) => {
            saved.push_front(ahead)?;
            Ok(next)
        }
        Turn::Into(next) => Ok(next),
        Turn::Close => Ok(pop_ahead(saved)),
    }
}

fn plain(act: Act) -> Prepared
    ensures { result ≡ word_of end_of_body act }
{
    Prepared { act, catch: None }
}

// The prepared words, last first.
fn backward(alloc: Global, spots: &[Spot]) -> Result<Vec<Prepared>, NoMemory>
    requires { All (λ spot. spot.at.place + 1 + 1 < 2 ^ 64) spots.now }
    ensures { IfOk result (λ words. reverse words.items ≡ word_of end_of_body (act.Go 1) ∷ (written spots.now).words) }
{
    let mut words = Vec::with_capacity(alloc, spots.len())?;
    words.push(plain(Act::Return))?;
    let mut saved = VecDeque::new(alloc);
    let mut ahead = end_of_body();
    let mut left = spots.len();
    while left > 0 {
        left -= 1;
        let spot = spots[left];
        put(writes(spot, ahead), &mut words)?;
        ahead = ahead_after(turned(spot, ahead), ahead, &mut saved)?;
    }
    words.push(plain(Act::Go(1)))?;
    Ok(words)
}

/// The prepared words of a body whose first word has this number, or none where the words aren't those of a body.
#[tactic(auto, using(crate::proofs::Preparation::prepared, crate::proofs::Preparation::prepared_soundly))]
pub fn prepared(
    alloc: Global,
    first: u32,
    kinds: &[Kind],
) -> Result<Option<Vec<Prepared>>, NoMemory>
    requires few { first + length kinds.now < 2 ^ 32 }
    ensures blocks { IfOk result (λ made. IfSome made (λ words. IsPrepared first kinds.now words.items)) }
    ensures sound { IfOk result (λ made. IfSome made (λ words. IsSound words.items)) }
    ensures some { IfOk result (λ made. IfSome made (λ words. 0 < length words.items)) }
    ensures refused { IfOk result (λ made. made ≡ None → reads kinds.now [] ≡ false) }

    // The same by the functions of the definitions.
    ensures value { IfOk result (λ made. option_map (λ words. words.items) made ≡ (if reads kinds.now [] then Some (prepares first kinds.now) else None)) }
{
    if !reads(alloc, kinds)? {
        return Ok(None);
    }
    let spots = spots(alloc, first, kinds)?;
    let mut words = backward(alloc, spots.as_slice())?;
    words.reverse();
    Ok(Some(words))
}
