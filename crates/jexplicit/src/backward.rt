//! Writing backward: the prepared words of a word, and what they are to the words before it.

ghost use Rattle.std.specs.Prelude.{◌≡◌, ◌<◌, ◌+◌, ◌^◌, cond, Option};
ghost use Rattle.jcontrol.specs.declared.prepared.Act.TheVariants as act;
ghost use Rattle.jexplicit.specs.Preparing.{again_of, behind, block_at, broken, case_block, case_test, caught_at, closed, continued, failing, in_test, loop_closed, loop_start, loop_test, one, sentence_of, turned, two, with_test, word_of, writes};

use crate::kind::{Kind, Looping};
use crate::spot::{Ahead, Few, Group, Reached, Spot, Turn};
use jcontrol::{Act, Prepared};

fn word_of(ahead: Ahead, act: Act) -> Prepared
    ensures { result ≡ word_of ahead act }
{
    Prepared {
        act,
        catch: ahead.catch,
    }
}

fn one(ahead: Ahead, act: Act) -> Few
    ensures { result ≡ one ahead act }
{
    Few::One(word_of(ahead, act))
}

fn two(ahead: Ahead, first: Act, second: Act) -> Few
    ensures { result ≡ two ahead first second }
{
    Few::Two(word_of(ahead, first), word_of(ahead, second))
}

// The start of a test whose first word stands there.
fn test_start(at: Reached, to: usize) -> Act
    ensures { result ≡ act.TestStart at.number to }
{
    Act::TestStart {
        word: at.number,
        to,
    }
}

fn with_test(ahead: Ahead, at: Reached, empty: bool, act: Act) -> Few
    requires { at.place + 1 + 1 < 2 ^ 64 }
    ensures { result ≡ with_test ahead at empty act }
{
    if empty {
        one(ahead, act)
    } else {
        two(ahead, act, test_start(at, at.place + 1 + 1))
    }
}

fn sentence_of(ahead: Ahead, at: Reached, claim: Option<u32>) -> Few
    ensures { result ≡ sentence_of ahead at claim }
{
    let number = at.number;
    match claim {
        None => {
            let test = at.inside.test;
            one(ahead, Act::Sentence { number, test })
        }
        Some(word) => {
            let test = Some(word);
            two(ahead, Act::Sentence { number, test }, Act::Assert(word))
        }
    }
}

fn loop_start(ahead: Ahead, at: Reached, looping: Looping) -> Few
    requires { at.place + 1 < 2 ^ 64 }
    ensures { result ≡ loop_start ahead at looping }
{
    match looping {
        Looping::Whilst => one(ahead, Act::Go(ahead.block)),
        _ => one(ahead, test_start(at, at.place + 1)),
    }
}

fn loop_test(ahead: Ahead, at: Reached, looping: Looping, word: u32) -> Few
    ensures { result ≡ loop_test ahead at looping word }
{
    let failed = ahead.exit;
    match looping {
        Looping::For => {
            let depth = at.depth;
            one(
                ahead,
                Act::First {
                    word,
                    depth,
                    failed,
                },
            )
        }
        _ => two(ahead, Act::Test { word, failed }, Act::Round(word)),
    }
}

fn case_test(ahead: Ahead, always: bool, select: u32, word: u32) -> Few
    ensures { result ≡ case_test ahead always select word }
{
    if always {
        return Few::Nothing;
    }
    let failed = ahead.failed;
    one(
        ahead,
        Act::Case {
            word,
            select,
            failed,
        },
    )
}

// The word that goes round again.
fn again_of(looping: Looping, word: u32, start: usize, depth: usize, exit: usize) -> Act
    ensures { result ≡ again_of looping word start depth exit }
{
    match looping {
        Looping::For => Act::Next {
            word,
            depth,
            held: start,
            failed: exit,
        },
        _ => Act::TestStart { word, to: start },
    }
}

fn broken(ahead: Ahead) -> Few
    ensures { result ≡ broken ahead ahead.again }
{
    match ahead.again {
        None => one(ahead, Act::Return),
        Some((end, _)) => one(ahead, Act::Go(end)),
    }
}

fn continued(ahead: Ahead) -> Few
    ensures { result ≡ continued ahead ahead.again }
{
    match ahead.again {
        None => one(ahead, Act::Return),
        Some((_, word)) => Few::One(word),
    }
}

// Where a case leads on: into the next block, or out of the group.
fn way_out(ahead: Ahead, falls: bool) -> usize
    ensures { result ≡ cond falls ahead.block ahead.exit }
{
    if falls { ahead.block } else { ahead.exit }
}

/// The prepared words of a word.
pub fn writes(spot: Spot, ahead: Ahead) -> Few
    requires { spot.at.place + 1 + 1 < 2 ^ 64 }
    ensures { result ≡ writes spot ahead }
{
    let at = spot.at;
    let next = at.place + 1;
    match (spot.kind, at.inside.group) {
        (Kind::Sentence, _) => sentence_of(ahead, at, at.claim),
        (Kind::If, _) => one(ahead, test_start(at, next)),
        (Kind::Loop(looping), _) => loop_start(ahead, at, looping),
        (Kind::Select, _) => one(ahead, test_start(at, next)),
        (Kind::Assert, _) => one(ahead, test_start(at, next)),
        (Kind::Do, Group::IfTest { word }) => {
            let failed = ahead.failed;
            one(ahead, Act::Test { word, failed })
        }
        (Kind::Do, Group::LoopTest { looping, word, .. }) => loop_test(ahead, at, looping, word),
        (
            Kind::Do,
            Group::CaseTest {
                select,
                word,
                always,
                ..
            },
        ) => case_test(ahead, always, select, word),
        (Kind::Elseif, _) => two(ahead, Act::Go(ahead.exit), test_start(at, next + 1)),
        (Kind::Else, _) => one(ahead, Act::Go(ahead.exit)),
        (Kind::Case { .. }, Group::SelectTest { word }) => {
            with_test(ahead, at, spot.before_do, Act::Select(word))
        }
        (Kind::Case { .. }, Group::CaseBlock { falls, .. }) => {
            with_test(ahead, at, spot.before_do, Act::Go(way_out(ahead, falls)))
        }
        (Kind::Catch, _) => two(ahead, Act::Go(ahead.exit), Act::Go(next + 1)),
        (Kind::End, Group::Then) => one(ahead, Act::Go(next)),
        (Kind::End, Group::CaseBlock { .. }) => one(ahead, Act::Go(next)),
        (
            Kind::End,
            Group::LoopBlock {
                looping,
                word,
                start,
                depth,
            },
        ) => one(ahead, again_of(looping, word, start, depth, next)),
        (Kind::Break, _) => broken(ahead),
        (Kind::Continue, _) => continued(ahead),
        (Kind::Return, _) => one(ahead, Act::Return),
        _ => Few::Nothing,
    }
}

/// The place behind prepared words.
pub fn behind(few: Few, place: usize) -> usize
    requires { place + 1 + 1 < 2 ^ 64 }
    ensures { result ≡ behind few place }
{
    match few {
        Few::Nothing => place,
        Few::One(_) => place + 1,
        Few::Two(_, _) => place + 1 + 1,
    }
}

// A group that ends there.
fn closed(place: usize, ahead: Ahead) -> Turn
    ensures { result ≡ closed place ahead }
{
    Turn::Open(Ahead {
        exit: place,
        failed: place,
        block: place,
        ..ahead
    })
}

fn loop_closed(again: Act, place: usize, ahead: Ahead) -> Turn
    ensures { result ≡ loop_closed again place ahead }
{
    Turn::Open(Ahead {
        exit: place,
        failed: place,
        block: place,
        catch: ahead.catch,
        again: Some((place, word_of(ahead, again))),
        outer: ahead.again,
    })
}

fn failing(place: usize, ahead: Ahead) -> Turn
    ensures { result ≡ failing place ahead }
{
    Turn::Into(Ahead {
        failed: place,
        ..ahead
    })
}

fn block_at(place: usize, ahead: Ahead) -> Turn
    ensures { result ≡ block_at place ahead }
{
    Turn::Into(Ahead {
        block: place,
        ..ahead
    })
}

// In a loop's test a `break.` is one of the loop outside.
fn in_test(place: usize, ahead: Ahead) -> Turn
    ensures { result ≡ in_test place ahead }
{
    Turn::Into(Ahead {
        block: place,
        again: ahead.outer,
        ..ahead
    })
}

fn caught_at(place: usize, ahead: Ahead) -> Turn
    ensures { result ≡ caught_at place ahead }
{
    Turn::Into(Ahead {
        catch: Some(place),
        ..ahead
    })
}

fn case_block(always: bool, place: usize) -> usize
    requires { place + 1 < 2 ^ 64 }
    ensures { result ≡ case_block always place }
{
    if always { place } else { place + 1 }
}

/// What is ahead of the words before this one.
pub fn turned(spot: Spot, ahead: Ahead) -> Turn
    requires { spot.at.place + 1 < 2 ^ 64 }
    ensures { result ≡ turned spot ahead }
{
    let place = spot.at.place;
    let next = place + 1;
    match (spot.kind, spot.at.inside.group) {
        (Kind::If, _) => Turn::Close,
        (Kind::Loop(_), _) => Turn::Close,
        (Kind::Select, _) => Turn::Close,
        (Kind::Try, _) => Turn::Close,
        (Kind::Do, Group::LoopTest { .. }) => in_test(next, ahead),
        (Kind::Do, Group::CaseTest { always, .. }) => block_at(case_block(always, place), ahead),
        (Kind::Elseif, _) => failing(next, ahead),
        (Kind::Else, _) => failing(next, ahead),
        (Kind::Case { .. }, Group::CaseBlock { .. }) => failing(next, ahead),
        (Kind::Catch, _) => caught_at(next, ahead),
        (Kind::End, Group::Then) => closed(next, ahead),
        (Kind::End, Group::CaseBlock { .. }) => closed(next, ahead),
        (
            Kind::End,
            Group::LoopBlock {
                looping,
                word,
                start,
                depth,
            },
        ) => loop_closed(again_of(looping, word, start, depth, next), next, ahead),
        (Kind::End, _) => closed(place, ahead),
        _ => Turn::Stay,
    }
}
