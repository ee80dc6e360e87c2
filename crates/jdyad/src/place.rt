//! A place among atoms of which each is used several times.

ghost use Rattle.std.specs.Prelude.{◌≡◌, ◌+◌, ◌*◌, ◌<◌, ◌^◌};

/// The atom that is in use, and how often it was used before.
#[derive(Clone, Copy)]
pub struct Place {
    pub item: usize,
    pub used: usize,
}

impl Place {
    pub fn first() -> Place
        ensures item { result.item ≡ 0 }
        ensures used { result.used ≡ 0 }
    {
        Place { item: 0, used: 0 }
    }

    /// The place after this one, where each atom is used `times` times.
    pub fn next(self, times: usize) -> Place
        requires within { self.used < times }
        requires fits { self.item + 1 < 2 ^ 64 }
        ensures count { result.item * times + result.used ≡ self.item * times + self.used + 1 }
        ensures within { result.used < times }
    {
        if self.used + 1 == times {
            Place {
                item: self.item + 1,
                used: 0,
            }
        } else {
            Place {
                item: self.item,
                used: self.used + 1,
            }
        }
    }
}
