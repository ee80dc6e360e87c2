// A table of blocks with its memory.
ghost use Rattle.std.specs.Prelude.{◌≡◌, ◌≢◌, ◌≤◌, length, replicate, IfOk, None};
ghost use Rattle.core.specs.Mem.Slots.{slots_items, slots_len};

use crate::ground::{Blank, Deed};
use crate::rows::{all_free, nones, zeros};
use crate::strip::Strip;
use crate::table::Table;
use core::slots::Slots;
use jdata::NoMemory;
use std::alloc::Global;
use std::mem::ManuallyDrop;

/// The value of a block is `None` while its word is 0.
pub struct Shelf<T> {
    pub(crate) table: Table<Option<T>>,
    pub(crate) blocks: u32,
    deed: Deed<Option<T>, Global>,
    heap: Global,
    pub ghost empty: { table.empty ≡ None },
    pub ghost count: { (length table.ids ≡ blocks) × (1 ≤ blocks) × (blocks ≤ 65536) },
    ghost deeded: { (deed.words ≡ table.words) × (deed.cells ≡ table.cells) × (deed.count ≡ blocks) × (deed.heap ≡ heap) },
}

impl<T> Shelf<T> {
    /// Blocks that are free, in one allocation: a row of words and after it one of values.
    pub(crate) fn new(alloc: Global, blocks: u32) -> Result<Shelf<T>, NoMemory>
        requires { (1 ≤ blocks) × (blocks ≤ 65536) }
        ensures { IfOk result (λ s. s.blocks ≡ blocks) }
    {
        let Some((words, (cells, deed))) = Deed::new(&alloc, blocks as usize) else {
            return Err(NoMemory);
        };
        Ok(Shelf::of(alloc, blocks, words, cells, deed))
    }

    fn of(
        heap: Global,
        blocks: u32,
        words: Blank<u64>,
        cells: Blank<Option<T>>,
        deed: Deed<Option<T>, Global>,
    ) -> Shelf<T>
        requires blocks { (1 ≤ blocks) × (blocks ≤ 65536) }
        requires rows { (words.count ≡ blocks) × (cells.count ≡ blocks) }
        requires deed { (deed.words ≡ words.ptr) × (deed.cells ≡ cells.ptr) × (deed.count ≡ blocks) × (deed.heap ≡ heap) }
        ensures { result.blocks ≡ blocks }
    {
        let count = blocks as usize;
        let words = zeros(words, count);
        let table = Table::lay(words, nones(cells, count));
        Shelf {
            table,
            blocks,
            deed,
            heap,
        }
    }
}

impl<T> Drop for Shelf<T> {
    fn drop(self) {
        let Self {
            table,
            blocks,
            deed,
            heap,
        } = self;
        let (words, cells) = table.close();
        let words = words.into_slots(blocks as usize);
        if all_free(&words) {
            let words = Strip::of(words);
            deed.free(&heap, words.into_blank(), cells.into_blank());
        } else {
            leave_behind(words, cells, deed);
        }
    }
}

// Some block is taken: a hold that was never given back may still read what lies there, so the memory stays.
fn leave_behind<T>(words: Slots<u64>, cells: Strip<Option<T>>, deed: Deed<Option<T>, Global>)
    requires { slots_items words ≢ replicate (slots_len words) 0 }
{
    let _ = unsafe { ManuallyDrop::new_unchecked(words) };
    let _ = unsafe { ManuallyDrop::new_unchecked(cells) };
    let _ = unsafe { ManuallyDrop::new_unchecked(deed) };
}
