//! Runs of items.

ghost use Rattle.std.specs.Prelude.{◌≡◌, ◌-◌};
ghost use Rattle.jcut.specs.Runs.{between as places_between, run_places};

/// Items that stand together: the place of the first, and how many they are.
#[derive(Clone, Copy, Debug)]
pub struct Run {
    pub start: u64,
    pub count: u64,
}

/// The items from one up to before another.
pub fn between(start: u64, end: u64) -> Run
    ensures places { run_places result ≡ places_between start end }
    ensures start { result.start ≡ start }
    ensures count { result.count ≡ end - start }
{
    Run {
        start,
        count: end.saturating_sub(start),
    }
}
