//! What a body keeps between its steps.

ghost use Rattle.std.specs.Prelude.{◌≡◌, None, IfOk, IsOk, OnOk, OnErr};
ghost use Rattle.jkept.specs.Keeping.{first, kept_after, started, value_of, empty_list, empty_table};
ghost use Rattle.jkept.specs.Taken.{item, is_boxed, is_taken};
ghost use Rattle.jkept.specs.Tested as tested;

use crate::items::item;
use crate::taken::is_taken;
use crate::tested::{are_ones, holds};
use jarray::{Array, Room, integers};
use jdata::{IntList, NoMemory};
use jterm::Datum;
use std::alloc::Global;
use std::collections::BTreeMap;
use std::marker::Model;

/// What a body keeps between its steps: its result so far, and the values of its tests by the
/// numbers of their words.
///
/// Pyxes are opened before: one that still stands in a value is a box without a content.
#[derive(Debug, Drop)]
pub struct Kept {
    result: Datum,
    values: BTreeMap<u32, Datum>,
    // the value of a test in which no sentence ended
    empty: Datum,
}

impl Model for Kept {
    ghost use Rattle.std.specs.Prelude.{◌≡◌};
    ghost use Rattle.std.specs.Coded.{coded_ℕ};
    ghost use Rattle.std.specs.FinMap as map;
    ghost use Rattle.jdata.specs.contracts.noun.Noun as noun;
    ghost use Rattle.jkept.specs.Keeping.{Keeping, code, empty_list};

    ghost Value = { Keeping };

    ghost coded = { code noun.the_row.coded };

    ghost view = { λ k. record { result = k.result; values = map.from_entries k.values.entries } };

    ghost invariant = { λ k. k.empty ≡ empty_list };
}

impl Kept {
    /// Before the first step.
    pub fn new(alloc: Global) -> Result<Kept, NoMemory>
        ensures { IfOk result (λ kept. kept ≡ first) }
    {
        Ok(Kept {
            result: table(alloc)?,
            values: BTreeMap::new(alloc),
            empty: list(alloc)?,
        })
    }

    /// The result, where the body ends here. No memory.
    pub fn into_result(self) -> Datum
        ensures { result ≡ self.result }
    {
        let Kept {
            result,
            values: _,
            empty: _,
        } = self;
        result
    }

    /// The value of a sentence is that of the test with this number or, outside of tests, the
    /// result, which takes no memory. Without memory nothing changes.
    pub fn keep(&mut self, test: Option<u32>, value: Datum) -> Result<(), NoMemory>
        ensures ok { OnOk result (self.new ≡ kept_after test value self.old) }
        ensures err { OnErr result (self.new ≡ self.old) }
        ensures outside { test ≡ None → IsOk result }
    {
        match test {
            None => {
                self.result = value;
                Ok(())
            }
            Some(word) => match self.values.insert(word, value) {
                Ok(_) => Ok(()),
                Err(_) => Err(NoMemory),
            },
        }
    }

    /// The test with this number starts: its value is an empty list of integers until a sentence
    /// in it has one. No memory.
    pub fn start_test(&mut self, word: u32)
        ensures { self.new ≡ started word self.old }
    {
        let _before = self.values.remove(&word);
    }

    /// The value of the test with this number.
    pub fn value(&self, word: u32) -> &Datum
        ensures { result.now ≡ value_of word self.now }
    {
        match self.values.get(&word) {
            Some(value) => value,
            None => &self.empty,
        }
    }

    /// Whether the test holds: its value is empty, or the first atom isn't the integer 0.
    pub fn holds(&self, room: &Room, word: u32) -> bool
        ensures { result ≡ tested.holds (value_of word self.now) }
    {
        holds(room, self.value(word).array())
    }

    /// Whether each atom of the value of an assertion is the integer 1.
    pub fn are_ones(&self, room: &Room, word: u32) -> bool
        ensures { result ≡ tested.are_ones (value_of word self.now) }
    {
        are_ones(room, self.value(word).array())
    }

    /// The item with this number, counted from 0, of the value of the test; none where there are
    /// fewer.
    pub fn item(
        &self,
        alloc: Global,
        room: &Room,
        word: u32,
        round: u64,
    ) -> Result<Option<Datum>, NoMemory>
        ensures { IfOk result (λ found. found ≡ item round (value_of word self.now)) }
    {
        item(alloc, room, self.value(word).array(), round)
    }

    /// Whether the case of this word is taken, where this `select.` has selected its value. No
    /// memory where both values are boxed, or neither is.
    pub fn takes(
        &self,
        alloc: Global,
        room: &Room,
        word: u32,
        select: u32,
    ) -> Result<bool, NoMemory>
        ensures value { IfOk result (λ taken. taken ≡ is_taken (value_of select self.now) (value_of word self.now)) }
        ensures alike { is_boxed (value_of select self.now) ≡ is_boxed (value_of word self.now) → IsOk result }
    {
        is_taken(
            alloc,
            room,
            self.value(select).array(),
            self.value(word).array(),
        )
    }
}

fn list(alloc: Global) -> Result<Datum, NoMemory>
    ensures { IfOk result (λ value. value ≡ empty_list) }
{
    let axes = Vec::from_slice(alloc, &[0])?;
    let numbers = IntList::of(Vec::new(alloc));
    Ok(Datum::of(Array::of(integers(axes, numbers))))
}

fn table(alloc: Global) -> Result<Datum, NoMemory>
    ensures { IfOk result (λ value. value ≡ empty_table) }
{
    let axes = Vec::from_slice(alloc, &[0, 0])?;
    let numbers = IntList::of(Vec::new(alloc));
    Ok(Datum::of(Array::of(integers(axes, numbers))))
}
