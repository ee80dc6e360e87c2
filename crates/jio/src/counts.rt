//! Counts of calls and of faults, and the number at a first time.
ghost use Rattle.std.specs.Prelude.{◌≡◌, ◌≤◌};
ghost use Rattle.jio.specs.Counts as counts;
ghost use Rattle.jio.specs.Source as source;

// One more, or the greatest count again.
pub(crate) fn counted(count: u64) -> u64
    ensures next { result ≡ counts.counted count }
    ensures rises { counts.Rises count result }
    ensures least { count ≤ result }
{
    count.saturating_add(1)
}

// The earlier number, where there is one.
pub(crate) fn first_at(earlier: Option<u64>, now: u64) -> Option<u64>
    ensures { result ≡ source.first_at earlier now }
{
    earlier.or(Some(now))
}
