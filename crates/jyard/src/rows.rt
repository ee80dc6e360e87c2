// Rows of places, filled, and what a row of words tells.
ghost use Rattle.std.specs.Prelude.{◌≡◌, ◌≢◌, false, replicate, IsTrue, None};
ghost use Rattle.core.specs.Mem.Slots.{slots_items, slots_len, IsFull};

use crate::ground::Blank;
use crate::strip::Strip;
use core::slots::Slots;

pub(crate) fn zeros(places: Blank<u64>, count: usize) -> Strip<u64>
    requires { count ≡ places.count }
    ensures { (result.items ≡ replicate count 0) × (result.ptr ≡ places.ptr) }
{
    let mut row = places.into_slots(count);
    let mut i = 0;
    while i < count {
        row.put(i, 0);
        i += 1;
    }
    Strip::of(row)
}

pub(crate) fn nones<T>(places: Blank<Option<T>>, count: usize) -> Strip<Option<T>>
    requires { count ≡ places.count }
    ensures { (result.items ≡ replicate count None) × (result.ptr ≡ places.ptr) }
{
    let mut row = places.into_slots(count);
    let mut i = 0;
    while i < count {
        row.put(i, None);
        i += 1;
    }
    Strip::of(row)
}

/// Whether all words are 0.
pub(crate) fn all_free(words: &Slots<u64>) -> bool
    requires { IsFull words.now }
    ensures free { IsTrue result → slots_items words.now ≡ replicate (slots_len words.now) 0 }
    ensures taken { result ≡ false → slots_items words.now ≢ replicate (slots_len words.now) 0 }
{
    let mut i = 0;
    while i < words.len() {
        if *words.get(i) != 0 {
            return false;
        }
        i += 1;
    }
    true
}
