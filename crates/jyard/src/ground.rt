// The one block of memory in which a yard's words and values lie: a row of words, and after it a row of values.
ghost use Rattle.std.specs.Prelude.{◌≡◌, ℕ, ◌≤◌, length, IfSome};
ghost use Rattle.core.specs.Mem.Slots.{slots_ptr, slots_len};
ghost use Rattle.jyard.specs.Grounds.{blank, deed_owns, IsPlan};
ghost use denote.RawPtr.{Ptr};

use crate::strip::Strip;
use core::slots::Slots;
use std::alloc::{Allocator, Layout};
use std::marker::{Model, PhantomData};
use std_alloc::room::may_hold;

/// Empty places side by side, owned by a pointer alone.
pub(crate) struct Blank<T> {
    pub(crate) ptr: *mut T,
    pub(crate) ghost count: { ℕ },
}

impl<T> Model for Blank<T> {
    ghost also_owns = { λ b. blank T.row b.ptr b.count };
}

/// The right to free the block, once its two rows are empty.
pub(crate) struct Deed<S, A: Allocator> {
    size: usize,
    align: usize,
    marker: PhantomData<(S, A)>,
    pub(crate) ghost words: { Ptr },
    pub(crate) ghost cells: { Ptr },
    pub(crate) ghost count: { ℕ },
    pub(crate) ghost heap: { A },
}

impl<S, A: Allocator> Model for Deed<S, A> {
    ghost also_owns = { λ d. deed_owns (A.dealloc_token d.heap) S.row d.words d.cells d.count d.size d.align };
}

/// The block's size and alignment in bytes, and where in it the values begin.
#[derive(Drop)]
struct Plan {
    size: usize,
    align: usize,
    cells_at: usize,
}

fn lay_out<S>(count: usize) -> Option<Plan>
    requires { (1 ≤ count) × (count ≤ 65536) }
    ensures { IfSome result (λ p. IsPlan S.row count p.size p.align p.cells_at) }
{
    if !may_hold::<S>(count) {
        return None;
    }
    let Ok(words) = Layout::array::<u64>(count) else {
        return None;
    };
    let Ok(values) = Layout::array::<S>(count) else {
        return None;
    };
    let Ok((both, cells_at)) = words.extend(values) else {
        return None;
    };
    let whole = both.pad_to_align();
    Some(Plan {
        size: whole.size(),
        align: whole.align(),
        cells_at,
    })
}

impl<T> Blank<T> {
    pub(crate) fn into_slots(self, len: usize) -> Slots<T>
        requires { T × (len ≡ self.count) }
        ensures { (slots_ptr result ≡ self.ptr) × (slots_len result ≡ len) }
    {
        let Blank { ptr } = self;
        unsafe { Slots::from_raw_parts(ptr, len) }
    }
}

impl<T> Strip<T> {
    /// The places, whatever lies there: a value that needs care must be gone.
    pub(crate) fn into_blank(self) -> Blank<T>
        ensures { (result.ptr ≡ self.ptr) × (result.count ≡ length self.items) }
    {
        let Strip { ptr } = self;
        Blank { ptr }
    }
}

impl<S, A: Allocator> Deed<S, A> {
    /// A block of empty places, by one allocation.
    pub(crate) fn new(alloc: &A, count: usize) -> Option<(Blank<u64>, (Blank<S>, Deed<S, A>))>
        requires { (1 ≤ count) × (count ≤ 65536) }
        ensures { IfSome result (λ g. (g.0.count ≡ count) × (g.1.0.count ≡ count) × (g.1.1.count ≡ count) × (g.1.1.words ≡ g.0.ptr) × (g.1.1.cells ≡ g.1.0.ptr) × (g.1.1.heap ≡ alloc.now)) }
    {
        let Some(plan) = lay_out::<S>(count) else {
            return None;
        };
        Deed::ask(alloc, count, plan.size, plan.align, plan.cells_at)
    }

    fn ask(
        alloc: &A,
        _count: usize,
        size: usize,
        align: usize,
        cells_at: usize,
    ) -> Option<(Blank<u64>, (Blank<S>, Deed<S, A>))>
        requires { IsPlan S.row _count size align cells_at }
        ensures { IfSome result (λ g. (g.0.count ≡ _count) × (g.1.0.count ≡ _count) × (g.1.1.count ≡ _count) × (g.1.1.words ≡ g.0.ptr) × (g.1.1.cells ≡ g.1.0.ptr) × (g.1.1.heap ≡ alloc.now)) }
    {
        match alloc.allocate(size, align) {
            Ok(block) => {
                let words = Blank {
                    ptr: block as *mut u64,
                };
                let cells = Blank {
                    ptr: unsafe { block.add(cells_at) } as *mut S,
                };
                let deed = Deed {
                    size,
                    align,
                    marker: PhantomData,
                };
                Some((words, (cells, deed)))
            }
            Err(_) => None,
        }
    }

    pub(crate) fn free(self, alloc: &A, words: Blank<u64>, cells: Blank<S>)
        requires { (words.ptr ≡ self.words) × (cells.ptr ≡ self.cells) × (words.count ≡ self.count) × (cells.count ≡ self.count) × (self.heap ≡ alloc.now) }
    {
        let Deed {
            size,
            align,
            marker: _,
        } = self;
        let Blank { ptr } = words;
        let Blank { ptr: _ } = cells;
        unsafe { alloc.deallocate(ptr as *mut u8, size, align) }
    }
}

unsafe impl<S, A: Allocator + Send> Send for Deed<S, A> {}

unsafe impl<S, A: Allocator + Send> Sync for Deed<S, A> {}
