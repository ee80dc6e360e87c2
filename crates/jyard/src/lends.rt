// Where a seat shows its value or lends it. `get_mut` and `sole` have a file of their own: their clauses name the row of `Seat`, which the file that declares `Seat` cannot import.
ghost use Rattle.std.specs.Prelude.{◌≡◌, ◌<◌, ◌≤◌, length, IfOk, IfErr};
ghost use Rattle.std.specs.Borrow.{Lends, LendsIfOk, sem};
ghost use Rattle.jyard.specs.contracts.table.Seat.{the_row};
ghost use Rattle.jyard.specs.Lent.{with_value, with_right, with_look, found_in};
ghost use Rattle.jyard.specs.Units.{IsHolding, id_at};

use crate::table::{Seat, Table};
use std::marker::Brand;
use std::sync::atomic::Ordering::SeqCst;
use std::sync::atomic::raw;

impl<S> Seat<S> {
    /// The value, to read.
    pub(crate) fn get<'a>(&'a self, table: &'a Table<S>, at: usize) -> &'a S
        requires { (at < length table.now.ids) × (0 < self.now.right) × (self.now.id ≡ id_at table.now.ids at) }
        ensures { result.now ≡ self.now.value }
    {
        unsafe { &*table.cells.add(at) }
    }

    /// The value, for whoever has it whole. When the borrow ends, the seat has what was written through it.
    pub(crate) fn get_mut<'a>(&'a mut self, table: &'a Table<S>, at: usize) -> &'a mut S
        requires { (at < length table.now.ids) × (1 < self.old.right) × (self.old.id ≡ id_at table.now.ids at) }
        ensures* writes_back { sem 𝓛 (Lends (the_row S.row) S.row self.entry result (with_value self.old)) }
        ensures value { result.now ≡ self.old.value }
    {
        unsafe { &mut *table.cells.add(at) }
    }

    /// `look`, and where it found 2 the value to write. Otherwise the word that was found.
    pub(crate) fn sole<'a>(&'a mut self, table: &Table<S>, at: usize) -> Result<&'a mut S, u64>
        requires { (at < length table.now.ids) × IsHolding self.old.right × (self.old.id ≡ id_at table.now.ids at) }
        ensures* writes_back { sem 𝓛 (LendsIfOk (the_row S.row) S.row self.entry result (λ w. with_look (with_right (with_value self.old w) 2) 2) (with_look (with_right self.old 1) (found_in result))) }
        ensures value { IfOk result (λ r. r.now ≡ self.old.value) }
        ensures found { IfErr result (λ n. (2 < n) × (n ≤ 4294967295)) }
    {
        let found = unsafe { raw::load::<Brand>(table.words.add(at), SeqCst) };
        if found != 2 {
            return Err(found);
        }
        unsafe { Ok(&mut *table.cells.add(at)) }
    }
}
