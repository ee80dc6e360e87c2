//! Integers that count items.

ghost use Rattle.std.specs.Prelude.{◌≡◌, ℕ, ◌-◌, ◌^◌, ◌<◌, min, true, length};
ghost use Rattle.std.specs.List.{list_all};
ghost use Rattle.jselect.specs.Arguments.{is_count};
ghost use Rattle.jselect.specs.Copies as copies;
ghost use Rattle.jselect.specs.Picking as picking;

/// Whether none of them is negative.
pub fn are_counts(numbers: &[i64]) -> bool
    ensures { result ≡ list_all is_count numbers.now }
{
    numbers.iter().all(|&number| number >= 0)
}

/// Which item of an argument serves at a place: the one of an atom serves everywhere.
pub fn served(alone: bool, place: usize) -> usize
    ensures { result ≡ picking.served alone place }
{
    if alone { 0 } else { place }
}

/// How often the item at a place is repeated.
pub fn count_at(alone: bool, numbers: &[i64], place: usize) -> u64
    requires within { picking.served alone place < length numbers.now }
    requires counts { list_all is_count numbers.now ≡ true }
    ensures { result ≡ copies.count_at alone numbers.now place }
{
    numbers[served(alone, place)] as u64
}

/// How many items the copies are, or 2^64 - 1 where they are more.
pub fn total_of(one_count: bool, counts: &[i64], number: usize) -> u64
    requires counts { list_all is_count counts.now ≡ true }
    requires within { (i : ℕ) → i < number → picking.served one_count i < length counts.now }
    ensures { (place : ℕ → ℕ) → result ≡ min (length (picking.repeated (copies.count_at one_count counts.now) place number)) (2 ^ 64 - 1) }
{
    let mut total: u64 = 0;
    for place in 0..number {
        total = total.saturating_add(count_at(one_count, counts, place));
    }
    total
}
