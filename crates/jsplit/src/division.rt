//! How a list is divided into runs of items.

ghost use Rattle.std.specs.Prelude.{◌≡◌, ◌<◌, ◌≤◌, ◌-◌, ◌*◌, min, IfOk};
ghost use Rattle.std.specs.List.{All};
ghost use Rattle.jdata.specs.Limits.{most_atoms};
ghost use Rattle.jcut.specs.Runs.{Fits};
ghost use Rattle.jsplit.specs.Divisions as meant;

use jcut::Run;
use jdata::{NoMemory, Sequence};
use std::alloc::Global;

/// How a list is divided.
#[derive(Clone, Copy, Debug)]
pub enum Division {
    /// The first item, the first two, and so on.
    Prefixes,
    /// All items, all but the first, and so on.
    Suffixes,
    /// So many items, from each item on.
    Windows(u64),
    /// So many items, and then as many again.
    Blocks(u64),
}

impl Division {
    /// Windows of so many items, or blocks for a negative number.
    pub fn of(count: i64) -> Division
        ensures value { result ≡ meant.division_of count }
        ensures sound { meant.IsSound result }
    {
        if count < 0 {
            Division::Blocks(count.unsigned_abs())
        } else {
            Division::Windows(count.unsigned_abs())
        }
    }

    /// How many runs there are of so many items.
    fn how_many(self, count: u64) -> u64
        requires sound { meant.IsSound self }
        requires count { count ≤ most_atoms }
        ensures { result ≡ meant.how_many self count }
    {
        match self {
            Division::Prefixes | Division::Suffixes => count,
            Division::Windows(width) => (count + 1).saturating_sub(width),
            Division::Blocks(width) => (count + (width - 1)) / width,
        }
    }

    /// One of the runs.
    fn run(self, count: u64, number: u64) -> Run
        requires sound { meant.IsSound self }
        requires number { number < meant.how_many self count }
        ensures { result ≡ meant.run_of self count number }
    {
        match self {
            Division::Prefixes => run_from(0, number + 1),
            Division::Suffixes => run_from(number, count - number),
            Division::Windows(width) => run_from(number, width),
            Division::Blocks(width) => block(count, number, width),
        }
    }

    /// All runs of so many items.
    pub fn runs(self, alloc: Global, count: u64) -> Result<Sequence<Run>, NoMemory>
        requires sound { meant.IsSound self }
        requires count { count ≤ most_atoms }
        ensures value { IfOk result (λ l. l ≡ meant.runs self count) }
        ensures within { IfOk result (All (Fits count)) }
    {
        let many = self.how_many(count);
        let mut runs = Vec::with_capacity(alloc, many as usize)?;
        for number in 0..many {
            runs.push(self.run(count, number))?;
        }
        Ok(Sequence::of(runs))
    }
}

fn run_from(start: u64, count: u64) -> Run
    ensures { result ≡ meant.run_from start count }
{
    Run { start, count }
}

fn block(count: u64, number: u64, width: u64) -> Run
    requires { number * width < count }
    ensures { result ≡ meant.run_from (number * width) (min width (count - number * width)) }
{
    let start = number * width;
    run_from(start, width.min(count - start))
}
