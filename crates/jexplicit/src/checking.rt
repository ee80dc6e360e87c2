//! Reading the words of a body one by one, with the groups that are open.

ghost use Rattle.std.specs.Prelude.{◌≡◌, ◌∷◌, [], List, IfOk, OnOk, cond, drop, false};
ghost use Rattle.jexplicit.specs.declared.kind.Kind.{Kind};
ghost use Rattle.jexplicit.specs.Reading.{change_by, may_stand, reads, starts_sentence};
ghost use Rattle.jexplicit.specs.Standing.{changed_by, innermost_of, inside_of, part_of, reads_by, rest_of, standing};
ghost use Rattle.jexplicit.specs.declared.kind.Kind.TheVariants as kind;
ghost use Rattle.jexplicit.specs.declared.reading.Change.TheVariants as change;

use crate::kind::Kind;
use crate::reading::{Change, Part};
use jdata::NoMemory;
use std::alloc::Global;
use std::collections::VecDeque;

/// A part of an open group, and whether its words stand in a loop's block.
#[derive(Clone, Copy)]
pub struct Standing {
    pub part: Part,
    pub inside: bool,
}

/// What a word makes of the open groups; none where it can't stand there.
fn change_by(kind: Kind, part: Option<Part>) -> Option<Change>
    ensures { result ≡ change_by kind part }
{
    match (kind, part) {
        (Kind::If, _) => Some(Change::Open(Part::IfTest)),
        (Kind::Loop(_), _) => Some(Change::Open(Part::LoopTest)),
        (Kind::Select, _) => Some(Change::Open(Part::SelectTest)),
        (Kind::Try, _) => Some(Change::Open(Part::TryBlock)),
        (Kind::Do, Some(Part::IfTest)) => Some(Change::Into(Part::Then)),
        (Kind::Do, Some(Part::LoopTest)) => Some(Change::Into(Part::LoopBlock)),
        (Kind::Do, Some(Part::CaseTest)) => Some(Change::Into(Part::CaseBlock)),
        (Kind::Do, _) => None,
        (Kind::Elseif, Some(Part::Then)) => Some(Change::Into(Part::IfTest)),
        (Kind::Elseif, _) => None,
        (Kind::Else, Some(Part::Then)) => Some(Change::Into(Part::Otherwise)),
        (Kind::Else, _) => None,
        (Kind::Case { .. }, Some(Part::SelectTest)) => Some(Change::Into(Part::CaseTest)),
        (Kind::Case { .. }, Some(Part::CaseBlock)) => Some(Change::Into(Part::CaseTest)),
        (Kind::Case { .. }, _) => None,
        (Kind::Catch, Some(Part::TryBlock)) => Some(Change::Into(Part::CatchBlock)),
        (Kind::Catch, _) => None,
        (Kind::End, _) => closes(part),
        _ => Some(Change::Stay),
    }
}

// `end.` closes a group whose last part this is.
fn closes(part: Option<Part>) -> Option<Change>
    ensures { result ≡ change_by kind.End part }
{
    match part {
        Some(Part::Then) => Some(Change::Close),
        Some(Part::Otherwise) => Some(Change::Close),
        Some(Part::LoopBlock) => Some(Change::Close),
        Some(Part::CaseBlock) => Some(Change::Close),
        Some(Part::CatchBlock) => Some(Change::Close),
        _ => None,
    }
}

fn may_stand(kind: Kind, inside: bool, followed: bool) -> bool
    ensures { result ≡ may_stand kind inside followed }
{
    match kind {
        Kind::Break => inside,
        Kind::Continue => inside,
        Kind::Assert => followed,
        _ => true,
    }
}

fn is_sentence_at(kinds: &[Kind], at: usize) -> bool
    ensures { result ≡ starts_sentence (drop at kinds.now) }
{
    match kinds.get(at) {
        Some(Kind::Sentence) => true,
        _ => false,
    }
}

fn innermost(groups: &VecDeque<Standing>) -> Option<Standing>
    ensures { result ≡ innermost_of groups.now.items }
{
    match groups.front() {
        Some(standing) => Some(*standing),
        None => None,
    }
}

fn inside_of(inner: Option<Standing>) -> bool
    ensures { result ≡ inside_of inner }
{
    match inner {
        Some(standing) => standing.inside,
        None => false,
    }
}

fn part_of(inner: Option<Standing>) -> Option<Part>
    ensures { result ≡ part_of inner }
{
    match inner {
        Some(standing) => Some(standing.part),
        None => None,
    }
}

fn stood(part: Part, inside: bool) -> Standing
    ensures { result ≡ standing part inside }
{
    match part {
        Part::LoopBlock => Standing { part, inside: true },
        _ => Standing { part, inside },
    }
}

fn push(part: Part, groups: &mut VecDeque<Standing>) -> Result<(), NoMemory>
    ensures { OnOk result (groups.new.items ≡ changed_by (change.Open part) groups.old.items) }
{
    let inside = inside_of(innermost(groups));
    groups.push_front(stood(part, inside))?;
    Ok(())
}

fn pop(groups: &mut VecDeque<Standing>)
    ensures { groups.new.items ≡ rest_of groups.old.items }
{
    let _popped = groups.pop_front();
}

fn change_open(change: Change, groups: &mut VecDeque<Standing>) -> Result<(), NoMemory>
    ensures { OnOk result (groups.new.items ≡ changed_by change groups.old.items) }
{
    match change {
        Change::Stay => Ok(()),
        Change::Open(part) => push(part, groups),
        Change::Into(part) => {
            pop(groups);
            push(part, groups)
        }
        Change::Close => {
            pop(groups);
            Ok(())
        }
    }
}

// Whether the word can't stand there. If it can, the groups are then those behind it.
fn refuses(kind: Kind, followed: bool, groups: &mut VecDeque<Standing>) -> Result<bool, NoMemory>
    ensures { IfOk result (λ refused. (rest : List Kind) → starts_sentence rest ≡ followed → reads_by (kind ∷ rest) groups.old.items ≡ cond refused false (reads_by rest groups.new.items)) }
{
    let inner = innermost(groups);
    if !may_stand(kind, inside_of(inner), followed) {
        return Ok(true);
    }
    match change_by(kind, part_of(inner)) {
        None => Ok(true),
        Some(change) => {
            change_open(change, groups)?;
            Ok(false)
        }
    }
}

// Whether a body may end where these groups are open.
fn may_end(groups: &VecDeque<Standing>) -> bool
    ensures { result ≡ reads_by [] groups.now.items }
{
    match groups.front() {
        Some(_) => false,
        None => true,
    }
}

/// Whether the words are those of a body.
pub fn reads(alloc: Global, kinds: &[Kind]) -> Result<bool, NoMemory>
    ensures { IfOk result (λ read. read ≡ reads kinds.now []) }
{
    let mut groups = VecDeque::new(alloc);
    for at in 0..kinds.len() {
        let followed = is_sentence_at(kinds, at + 1);
        let refused = refuses(kinds[at], followed, &mut groups)?;
        if refused {
            return Ok(false);
        }
    }
    Ok(may_end(&groups))
}
