//! Where cells stand among others: the first or last place of one that matches.

ghost use Rattle.std.specs.Prelude.{◌≡◌, ◌≤◌, IfOk, length, map};
ghost use Rattle.std.specs.List.{range_with_len};
ghost use Rattle.jdata.specs.Limits.{IsArray};
ghost use Rattle.jsearch.specs.Finding as meant;
ghost use Rattle.jsearch.specs.Listed.{whole, cell_in, cell_count, cells_in};

use crate::cells::{Cells, codes_of};
use crate::keys::{first_places, last_places};
use jdata::NoMemory;
use std::alloc::Global;

/// For each of the wanted cells the first place of one that matches, or how many there are.
pub fn first_places_in(
    alloc: Global,
    among: Cells<'_>,
    wanted: Cells<'_>,
) -> Result<Vec<usize>, NoMemory>
    requires among { IsArray (whole among) }
    requires among_frame { among.frame ≤ length among.axes.now }
    requires wanted { IsArray (whole wanted) }
    requires wanted_frame { wanted.frame ≤ length wanted.axes.now }
    ensures { IfOk result (λ v. v.items ≡ map (λ j. meant.first_place (cells_in among.entry) (cell_in wanted.entry j)) (range_with_len 0 (cell_count wanted.entry))) }
{
    let among_codes = codes_of(alloc, among)?;
    let wanted_codes = codes_of(alloc, wanted)?;
    let among_keys = slices(alloc, among_codes.as_slice())?;
    let wanted_keys = slices(alloc, wanted_codes.as_slice())?;
    first_places(alloc, among_keys.as_slice(), wanted_keys.as_slice())
}

/// The same with the last place.
pub fn last_places_in(
    alloc: Global,
    among: Cells<'_>,
    wanted: Cells<'_>,
) -> Result<Vec<usize>, NoMemory>
    requires among { IsArray (whole among) }
    requires among_frame { among.frame ≤ length among.axes.now }
    requires wanted { IsArray (whole wanted) }
    requires wanted_frame { wanted.frame ≤ length wanted.axes.now }
    ensures { IfOk result (λ v. v.items ≡ map (λ j. meant.last_place (cells_in among.entry) (cell_in wanted.entry j)) (range_with_len 0 (cell_count wanted.entry))) }
{
    let among_codes = codes_of(alloc, among)?;
    let wanted_codes = codes_of(alloc, wanted)?;
    let among_keys = slices(alloc, among_codes.as_slice())?;
    let wanted_keys = slices(alloc, wanted_codes.as_slice())?;
    last_places(alloc, among_keys.as_slice(), wanted_keys.as_slice())
}

fn slices<'a>(alloc: Global, codes: &'a [Vec<i64>]) -> Result<Vec<&'a [i64]>, NoMemory>
    ensures { IfOk result (λ v. map (λ s. s.now) v.items ≡ map (λ c. c.items) codes.entry.now) }
{
    let mut slices = Vec::with_capacity(alloc, codes.len())?;
    for code in codes {
        slices.push(code.as_slice())?;
    }
    Ok(slices)
}
