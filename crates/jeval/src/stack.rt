//! Lists that grow and shrink at their front.
ghost use Rattle.std.specs.Prelude.{◌≡◌, [], ◌∷◌, ◌<◌, length, MatchOption, OnOk, OnErr};
ghost use Rattle.jeval.specs.Made.{Gives};
ghost use Rattle.jparse.specs.Parsing.{act_of, awaits_target};
ghost use Rattle.jparse.specs.declared.table.Act.TheVariants as act;

use crate::end::{EvalEnd, NO_MEMORY};
use jdata::NoMemory;
use jparse::Act;
use jterm::Part;
use std::alloc::Global;
use std::marker::Model;

/// A list that grows and shrinks at its front. The code keeps the front at the end of its buffer.
#[derive(Drop)]
pub(crate) struct Stack<T> {
    items: Vec<T>,
}

impl<T> Model for Stack<T> {
    ghost use Rattle.std.specs.Prelude.{List, reverse};
    ghost use Rattle.std.specs.Coded.{coded_list};

    ghost Value = { List T };

    ghost coded = { coded_list T.code };

    ghost view = { λ s. reverse s.items.items };
}

/// The parts that were read, the one that was read last in front.
pub(crate) type Parts = Stack<Part>;

/// The parts with this one in front.
pub(crate) fn pushed(mut parts: Parts, part: Part) -> Result<Parts, EvalEnd>
    ensures { Gives (part ∷ parts) result }
{
    match parts.push(part) {
        Ok(()) => Ok(parts),
        Err(NoMemory) => Err(NO_MEMORY),
    }
}

impl<T: Drop> Stack<T> {
    pub(crate) fn new(alloc: Global) -> Stack<T>
        ensures { result ≡ [] }
    {
        Stack {
            items: Vec::new(alloc),
        }
    }

    /// The items of a list, the first in front.
    pub(crate) fn of(mut items: Vec<T>) -> Stack<T>
        ensures { result ≡ items.items }
    {
        items.reverse();
        Stack { items }
    }

    pub(crate) fn push(&mut self, item: T) -> Result<(), NoMemory>
        ensures ok { OnOk result (self.new ≡ item ∷ self.old) }
    {
        match self.items.push(item) {
            Ok(()) => Ok(()),
            Err(_) => Err(NoMemory),
        }
    }

    pub(crate) fn pop(&mut self) -> Option<T>
        ensures { MatchOption result ((self.old ≡ []) × (self.new ≡ [])) (λ item. self.old ≡ item ∷ self.new) }
    {
        self.items.pop()
    }

    pub(crate) fn len(&self) -> usize
        ensures { result ≡ length self.now }
    {
        self.items.len()
    }
}

impl Stack<Part> {
    /// What happens next in a sentence, where so many words are left.
    pub(crate) fn step(&self, left_over: usize) -> Act
        ensures value { result ≡ act_of self.now left_over }
        ensures reads { result ≡ act.Shift → 0 < left_over }
    {
        jparse::step(self.items.as_slice(), left_over)
    }

    /// Whether a name that is moved now is a target.
    pub(crate) fn awaits_target(&self) -> bool
        ensures { result ≡ awaits_target self.now }
    {
        jparse::awaits_target(self.items.as_slice())
    }
}
