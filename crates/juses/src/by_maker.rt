//! What activities have made, numbered by each of its makers from 1 on.
ghost use Rattle.std.specs.Prelude.{◌≡◌, ◌-◌, ◌++◌, [], ◌∷◌, Some, IsSome, OnOk, OnErr, length, slice_set};
ghost use Rattle.std.specs.Option.{option_copied};
ghost use Rattle.std.specs.Map.{lookup};
ghost use Rattle.juses.specs.Keys.{same};
ghost use Rattle.juses.specs.Tables.{made_in, numbered, with_made};

use jdata::{NoMemory, Sequence};
use std::alloc::Global;
use std::collections::BTreeMap;
use std::marker::Model;

/// Lists by the numbers of their makers' paths, in order.
#[derive(Debug, Drop)]
pub struct ByMaker<T> {
    alloc: Global,
    makers: BTreeMap<Vec<u32>, Sequence<T>>,
}

impl<T> Model for ByMaker<T> {
    ghost use Rattle.std.specs.Prelude.{List, ℕ};
    ghost use Rattle.std.specs.Coded.{coded_list, coded×, coded_ℕ};

    ghost Value = { List (List ℕ × List T) };

    ghost coded = { coded_list (coded× (coded_list coded_ℕ) (coded_list T.code)) };

    ghost use Rattle.juses.specs.Tables.{by_items};

    ghost view = { λ a. by_items (λ k. k.items) a.makers.entries };
}

impl<T> ByMaker<T> {
    pub fn new(alloc: Global) -> Self
        ensures { result ≡ [] }
    {
        ByMaker {
            alloc,
            makers: BTreeMap::new(alloc),
        }
    }

    fn made(&self, maker: &[u32]) -> Option<&Sequence<T>>
        ensures { option_copied result ≡ lookup (same maker.now) self.now }
    {
        self.makers.get(maker)
    }

    /// How many the maker has made.
    pub fn count(&self, maker: &[u32]) -> usize
        ensures { result ≡ length (made_in self.now maker.now) }
    {
        match self.made(maker) {
            Some(made) => made.items().len(),
            None => 0,
        }
    }

    /// The one with this number.
    pub fn get(&self, maker: &[u32], number: u32) -> Option<&T>
        ensures { option_copied result ≡ numbered (made_in self.now maker.now) number }
    {
        if number == 0 {
            return None;
        }
        match self.made(maker) {
            Some(made) => made.items().get(number as usize - 1),
            None => None,
        }
    }
}

impl<T: Drop> ByMaker<T> {
    /// One more of the maker.
    pub fn push(&mut self, maker: &[u32], item: T) -> Result<(), NoMemory>
        ensures ok { OnOk result (self.new ≡ with_made self.old maker.now (made_in self.old maker.now ++ item ∷ [])) }
        ensures err { OnErr result (self.new ≡ self.old) }
    {
        if let Some(made) = self.makers.get_mut(maker) {
            return made.push(item);
        }
        let mut made = Sequence::of(Vec::new(self.alloc));
        made.push(item)?;
        self.makers
            .insert(Vec::from_slice(self.alloc, maker)?, made)?;
        Ok(())
    }

    /// Puts another in the place of the one with this number, and answers that one.
    pub fn replace(&mut self, maker: &[u32], number: u32, item: T) -> T
        requires { IsSome (numbered (made_in self.old maker.now) number) }
        ensures before { numbered (made_in self.old maker.now) number ≡ Some result }
        ensures after { self.new ≡ with_made self.old maker.now (slice_set (made_in self.old maker.now) (number - 1) item) }
    {
        match self.makers.get_mut(maker) {
            Some(made) => made.replace(number as usize - 1, item),
            None => unreachable!(),
        }
    }
}
