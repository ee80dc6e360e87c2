ghost use Rattle.std.specs.Prelude.{ℕ, ◌≡◌, ◌<◌, Some, true, length};
ghost use Rattle.jcontrol.specs.Machine.{IsSound, LeadsInside};

use crate::{Act, Frame, Prepared, Reply, Step};
use Reply::Told;
use jdata::{Fault, Trouble};
use std::alloc::Global;
use std::process::Abort;
use std::test::Fail;

// A word outside of the blocks of a `try.`.
fn word(act: Act) -> Prepared {
    Prepared { act, catch: None }
}

fn sentence(number: u32) -> Prepared {
    word(Act::Sentence { number, test: None })
}

fn in_test(number: u32, test: u32) -> Prepared {
    word(Act::Sentence {
        number,
        test: Some(test),
    })
}

fn is_fit(length: usize, place: usize, word: Prepared) -> bool
    requires { place < length }
    ensures leads { result ≡ true → LeadsInside length place word.act }
    ensures catches { result ≡ true → (c : ℕ) → word.catch ≡ Some c → c < length }
{
    let leads = match word.act {
        Act::Go(to) => place < to && to < length,
        Act::Return => true,
        Act::TestStart { to, .. } => to < length,
        Act::Test { failed, .. } => place + 1 < length && failed < length,
        Act::First { failed, .. } => place + 1 < length && failed < length,
        Act::Case { failed, .. } => place + 1 < length && failed < length,
        Act::Next { held, failed, .. } => held < length && failed < length,
        _ => place + 1 < length,
    };
    let caught = match word.catch {
        Some(place) => place < length,
        None => true,
    };
    leads && caught
}

fn is_sound(words: &[Prepared]) -> bool
    ensures { result ≡ true → IsSound words.now }
{
    for place in 0..words.len() {
        if !is_fit(words.len(), place, words[place]) {
            return false;
        }
    }
    true
}

// The steps of a body that is told this; it ends at a fault that nothing catches.
fn steps(alloc: Global, words: &[Prepared], told: &[Reply]) -> Result<Vec<Step>, Fail>
    requires sound { IsSound words.now }
    requires some { 0 < length words.now }
{
    let mut frame = Frame::new(alloc);
    let mut steps = Vec::new(alloc);
    let mut test = None;
    let mut fails = false;
    for place in 0..=told.len() {
        if fails && !frame.fault(words) {
            return Ok(steps);
        }
        match frame.next(words, test) {
            Ok(step) => steps.push(step)?,
            Err(Trouble::Fault(Fault::Assertion)) => return Ok(steps),
            Err(trouble) => return Err(trouble.into()),
        }
        test = match told.get(place) {
            Some(Told(held)) => *held,
            _ => None,
        };
        fails = told.get(place) == Some(&Reply::Fault);
    }
    Ok(steps)
}

fn is_run(
    alloc: Global,
    words: &[Prepared],
    told: &[Reply],
    wanted: &[Step],
) -> Result<bool, Fail> {
    if words.is_empty() || !is_sound(words) {
        return Ok(false);
    }
    let found = steps(alloc, words, told)?;
    Ok(found.as_slice() == wanted)
}

const HELD: Reply = Told(Some(true));

const FAILED: Reply = Told(Some(false));

const DONE: Reply = Told(None);

fn s(number: u32) -> Step {
    Step::Sentence { number, test: None }
}

fn t(number: u32, test: u32) -> Step {
    Step::Sentence {
        number,
        test: Some(test),
    }
}

fn item(word: u32, round: u64) -> Step {
    Step::Items { word, round }
}

fn case(word: u32) -> Step {
    Step::Case { word, select: 1 }
}

// `if. 2 do. 4 else. 6 end. 8`: control words and sentences are numbered together, from 1 on.
#[test]
fn an_if_chooses(rt: HostRuntime) -> Result<(), Fail> {
    let words = [
        word(Act::Go(1)),
        word(Act::TestStart { word: 1, to: 2 }),
        in_test(2, 1),
        word(Act::Test { word: 1, failed: 6 }),
        sentence(4),
        word(Act::Go(7)),
        sentence(6),
        sentence(8),
        word(Act::Return),
    ];
    let start = [Step::TestStart(1), t(2, 1), Step::Test(1)];
    assert!(rt;
        is_run(
            rt.alloc(),
            &words,
            &[DONE, DONE, HELD, DONE, DONE],
            &[start[0], start[1], start[2], s(4), s(8), Step::Return]
        )?
    );
    assert!(rt;
        is_run(
            rt.alloc(),
            &words,
            &[DONE, DONE, FAILED, DONE, DONE],
            &[start[0], start[1], start[2], s(6), s(8), Step::Return]
        )?
    );
    Ok(())
}

// `whilst. 2 do. 4 end.`
#[test]
fn a_whilst_skips_its_first_test(rt: HostRuntime) -> Result<(), Fail> {
    let words = [
        word(Act::Go(1)),
        word(Act::Go(4)),
        in_test(2, 1),
        word(Act::Test { word: 1, failed: 7 }),
        word(Act::Round(1)),
        sentence(4),
        word(Act::TestStart { word: 1, to: 2 }),
        word(Act::Return),
    ];
    let told = [DONE, DONE, DONE, DONE, HELD, DONE, DONE, DONE, DONE, FAILED];
    assert!(rt;
        is_run(
            rt.alloc(),
            &words,
            &told,
            &[
                Step::Round(1),
                s(4),
                Step::TestStart(1),
                t(2, 1),
                Step::Test(1),
                Step::Round(1),
                s(4),
                Step::TestStart(1),
                t(2, 1),
                Step::Test(1),
                Step::Return,
            ]
        )?
    );
    Ok(())
}

// `for. 2 do. for. 5 do. 7 end. end.`
#[test]
fn an_inner_for_starts_at_its_first_item(rt: HostRuntime) -> Result<(), Fail> {
    let words = [
        word(Act::Go(1)),
        word(Act::TestStart { word: 1, to: 2 }),
        in_test(2, 1),
        word(Act::First {
            word: 1,
            depth: 0,
            failed: 10,
        }),
        word(Act::TestStart { word: 4, to: 5 }),
        in_test(5, 4),
        word(Act::First {
            word: 4,
            depth: 1,
            failed: 9,
        }),
        sentence(7),
        word(Act::Next {
            word: 4,
            depth: 1,
            held: 7,
            failed: 9,
        }),
        word(Act::Next {
            word: 1,
            depth: 0,
            held: 4,
            failed: 10,
        }),
        word(Act::Return),
    ];
    let told = [
        DONE, DONE, HELD, DONE, DONE, HELD, DONE, FAILED, HELD, DONE, DONE, FAILED, FAILED,
    ];
    assert!(rt;
        is_run(
            rt.alloc(),
            &words,
            &told,
            &[
                Step::TestStart(1),
                t(2, 1),
                item(1, 0),
                Step::TestStart(4),
                t(5, 4),
                item(4, 0),
                s(7),
                item(4, 1),
                item(1, 1),
                Step::TestStart(4),
                t(5, 4),
                item(4, 0),
                item(1, 2),
                Step::Return,
            ]
        )?
    );
    Ok(())
}

// `select. 2 case. 4 do. 6 fcase. 8 do. 10 case. do. 13 end.`
#[test]
fn the_first_case_that_is_taken_is_run(rt: HostRuntime) -> Result<(), Fail> {
    let words = [
        word(Act::Go(1)),
        word(Act::TestStart { word: 1, to: 2 }),
        in_test(2, 1),
        word(Act::Select(1)),
        word(Act::TestStart { word: 3, to: 5 }),
        in_test(4, 3),
        word(Act::Case {
            word: 3,
            select: 1,
            failed: 9,
        }),
        sentence(6),
        word(Act::Go(16)),
        word(Act::TestStart { word: 7, to: 10 }),
        in_test(8, 7),
        word(Act::Case {
            word: 7,
            select: 1,
            failed: 14,
        }),
        sentence(10),
        word(Act::Go(14)),
        sentence(13),
        word(Act::Go(16)),
        word(Act::Return),
    ];
    assert!(rt;
        is_run(
            rt.alloc(),
            &words,
            &[DONE, DONE, DONE, DONE, DONE, HELD, DONE],
            &[
                Step::TestStart(1),
                t(2, 1),
                Step::Select(1),
                Step::TestStart(3),
                t(4, 3),
                case(3),
                s(6),
                Step::Return,
            ]
        )?
    );
    let told = [
        DONE, DONE, DONE, DONE, DONE, FAILED, DONE, DONE, HELD, DONE, DONE,
    ];
    assert!(rt;
        is_run(
            rt.alloc(),
            &words,
            &told,
            &[
                Step::TestStart(1),
                t(2, 1),
                Step::Select(1),
                Step::TestStart(3),
                t(4, 3),
                case(3),
                Step::TestStart(7),
                t(8, 7),
                case(7),
                s(10),
                s(13),
                Step::Return,
            ]
        )?
    );
    Ok(())
}

// `try. 2 catch. 4 end. 6`
#[test]
fn a_fault_is_caught_once(rt: HostRuntime) -> Result<(), Fail> {
    let inside = Act::Sentence {
        number: 2,
        test: None,
    };
    let words = [
        word(Act::Go(1)),
        Prepared {
            act: inside,
            catch: Some(3),
        },
        word(Act::Go(5)),
        word(Act::Go(4)),
        sentence(4),
        sentence(6),
        word(Act::Return),
    ];
    assert!(rt;
        is_run(
            rt.alloc(),
            &words,
            &[DONE, DONE],
            &[s(2), s(6), Step::Return]
        )?
    );
    assert!(rt;
        is_run(
            rt.alloc(),
            &words,
            &[Reply::Fault, DONE, DONE],
            &[s(2), s(4), s(6), Step::Return]
        )?
    );
    assert!(rt;
        is_run(
            rt.alloc(),
            &words,
            &[Reply::Fault, Reply::Fault],
            &[s(2), s(4)]
        )?
    );
    Ok(())
}

// `assert. 2`
#[test]
fn an_assertion_that_fails_is_a_fault(rt: HostRuntime) -> Result<(), Fail> {
    let words = [
        word(Act::Go(1)),
        word(Act::TestStart { word: 1, to: 2 }),
        in_test(2, 1),
        word(Act::Assert(1)),
        word(Act::Return),
    ];
    let asked = [Step::TestStart(1), t(2, 1), Step::Assert(1), Step::Return];
    assert!(rt; is_run(rt.alloc(), &words, &[DONE, DONE, HELD], &asked)?);
    assert!(rt; is_run(rt.alloc(), &words, &[DONE, DONE, FAILED], &asked[..3])?);
    Ok(())
}
