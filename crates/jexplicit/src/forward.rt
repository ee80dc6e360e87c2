//! Reading forward: what a word makes of the groups round it.

ghost use Rattle.std.specs.Prelude.{◌≡◌, ◌<◌, ◌≤◌, ◌+◌, ◌^◌};
ghost use Rattle.jexplicit.specs.Preparing.{claimed, deeper, entered, loop_block, round};

use crate::kind::{Kind, Looping};
use crate::spot::{Entry, Group, Inside, Reached, Spot};

fn round(group: Group, test: Option<u32>, outer: Option<u32>) -> Inside
    ensures { result ≡ round group test outer }
{
    Inside { group, test, outer }
}

fn loop_block(looping: Looping, word: u32, start: usize, at: Reached) -> Group
    requires { at.place + 1 < 2 ^ 64 }
    ensures { result ≡ loop_block looping word start at }
{
    let start = match looping {
        Looping::For => at.place + 1,
        _ => start,
    };
    Group::LoopBlock {
        looping,
        word,
        start,
        depth: at.depth,
    }
}

/// What stands round the words behind this one.
pub fn entered(spot: Spot) -> Entry
    requires { spot.at.place + 1 < 2 ^ 64 }
    ensures { result ≡ entered spot }
{
    let at = spot.at;
    let number = at.number;
    let always = spot.before_do;
    let Inside { group, test, outer } = at.inside;
    let own = Some(number);
    match (spot.kind, group) {
        (Kind::If, _) => Entry::Open(round(Group::IfTest { word: number }, own, test)),
        (Kind::Loop(looping), _) => {
            let start = at.place + 1;
            let group = Group::LoopTest {
                looping,
                word: number,
                start,
            };
            Entry::Open(round(group, own, test))
        }
        (Kind::Select, _) => Entry::Open(round(Group::SelectTest { word: number }, own, test)),
        (Kind::Try, _) => Entry::Open(round(Group::TryBlock, test, test)),
        (Kind::Do, Group::IfTest { .. }) => Entry::Into(round(Group::Then, outer, outer)),
        (
            Kind::Do,
            Group::LoopTest {
                looping,
                word,
                start,
            },
        ) => { Entry::Into(round(loop_block(looping, word, start, at), outer, outer)) }
        (Kind::Do, Group::CaseTest { select, falls, .. }) => {
            Entry::Into(round(Group::CaseBlock { select, falls }, outer, outer))
        }
        (Kind::Elseif, _) => Entry::Into(round(Group::IfTest { word: number }, own, outer)),
        (Kind::Else, _) => Entry::Into(round(Group::Otherwise, outer, outer)),
        (Kind::Case { falls }, Group::SelectTest { word: select }) => {
            let group = Group::CaseTest {
                select,
                word: number,
                falls,
                always,
            };
            Entry::Into(round(group, own, outer))
        }
        (Kind::Case { falls }, Group::CaseBlock { select, .. }) => {
            let group = Group::CaseTest {
                select,
                word: number,
                falls,
                always,
            };
            Entry::Into(round(group, own, outer))
        }
        (Kind::Catch, _) => Entry::Into(round(Group::CatchBlock, outer, outer)),
        (Kind::End, _) => Entry::Close,
        _ => Entry::Stay,
    }
}

/// How many `for.` loops are open behind this word.
pub fn deeper(spot: Spot) -> usize
    requires { spot.at.depth + 1 < 2 ^ 64 }
    ensures depth { result ≡ deeper spot }
    ensures most { result ≤ spot.at.depth + 1 }
{
    let depth = spot.at.depth;
    match (spot.kind, spot.at.inside.group) {
        (
            Kind::Do,
            Group::LoopTest {
                looping: Looping::For,
                ..
            },
        ) => depth + 1,
        (
            Kind::End,
            Group::LoopBlock {
                looping: Looping::For,
                ..
            },
        ) => depth.saturating_sub(1),
        _ => depth,
    }
}

/// The `assert.` before the next word.
pub fn claimed(spot: Spot) -> Option<u32>
    ensures { result ≡ claimed spot }
{
    match spot.kind {
        Kind::Assert => Some(spot.at.number),
        _ => None,
    }
}
