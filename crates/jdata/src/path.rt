ghost use Rattle.std.specs.Prelude.{◌≡◌, ◌≤◌, [], ◌∷◌, ◌++◌, length, IfSome, IsNone, ◌↔◌};

use std::marker::Model;

/// Where an activity stands among those that were started: main has no number, and the k-th task
/// that an activity starts has the number k behind those of its maker. At most 4 numbers.
#[derive(Clone, Copy, Debug, PartialEq, Eq)]
pub struct Path {
    numbers: [u32; 4],
    depth: usize,
}

impl Model for Path {
    ghost use Rattle.std.specs.Prelude.{List, ℕ};

    ghost Value = { List ℕ };

    ghost use Rattle.jdata.specs.Paths.{numbers_of, IsPadded, padded, padded_back};

    ghost view = { numbers_of };

    ghost invariant = { IsPadded };

    ghost inverse = { padded };

    ghost inverse_ok = { padded_back };
}

impl Path {
    /// The path of the session itself.
    pub fn main() -> Path
        ensures { result ≡ [] }
    {
        Path {
            numbers: [0; 4],
            depth: 0,
        }
    }

    /// The numbers, the outermost maker's first.
    pub fn parts(&self) -> &[u32]
        ensures { result.now ≡ self.now }
    {
        &self.numbers[..self.depth]
    }

    /// There are at most 4 numbers.
    pub fn known(&self)
        ensures { length self.now ≤ 4 }
    {
        let _depth = self.depth;
    }

    /// The path of the task that this activity starts with this number; none exactly where it has
    /// 4 numbers already.
    pub fn child(self, number: u32) -> Option<Path>
        ensures some { IfSome result (λ path. path ≡ self ++ number ∷ []) }
        ensures none { IsNone result ↔ (length self ≡ 4) }
    {
        if self.depth == 4 {
            return None;
        }
        let mut numbers = self.numbers;
        numbers[self.depth] = number;
        Some(Path {
            numbers,
            depth: self.depth + 1,
        })
    }
}

/// The name of a pyx: the activity that made it, and its number among the pyxes which that
/// activity set by hand, from 1 on. A task's own pyx has the task's path and the number 0.
#[derive(Clone, Copy, Debug, PartialEq, Eq)]
pub struct PyxId {
    pub path: Path,
    pub number: u32,
}
