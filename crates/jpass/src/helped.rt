//! The tasks that a pass helps: those that it began before it opened their pyxes.
ghost use Rattle.std.specs.Prelude.{◌≡◌, ◌<◌, ◌≤◌, ◌==◌, [], ◌∷◌, ◌++◌, true, if◌then◌else◌, length, remove, IfSome, IfNone};
ghost use Rattle.juses.specs.Activities.{without};
ghost use Rattle.jpass.specs.Timed.{most_helped};

use arrayvec::ArrayVec;
use jdata::Path;
use std::marker::Model;

// How many tasks a pass helps at most, one inside another.
const MOST_HELPED: usize = 8;

#[derive(Drop)]
struct Task {
    path: Path,
}

impl Model for Task {
    ghost use Rattle.std.specs.Prelude.{List, ℕ};

    ghost Value = { List ℕ };

    ghost view = { λ t. t.path };
}

impl Default for Task {
    fn default() -> Self {
        Task { path: Path::main() }
    }
}

/// The helped tasks, the first in front. It takes no memory.
#[derive(Drop)]
pub(crate) struct Helped {
    tasks: ArrayVec<Task, MOST_HELPED>,
}

impl Model for Helped {
    ghost use Rattle.std.specs.Prelude.{List, ℕ};

    ghost Value = { List (List ℕ) };

    ghost view = { λ h. h.tasks.items };
}

impl Helped {
    pub(crate) fn none() -> Helped
        ensures { result ≡ [] }
    {
        Helped {
            tasks: ArrayVec::new(),
        }
    }

    pub(crate) fn is_full(&self) -> bool
        ensures value { result ≡ (length self.now == most_helped) }
        ensures fits { length self.now ≤ most_helped }
    {
        self.tasks.is_full()
    }

    /// The task was begun. It is helped if it is to be opened.
    pub(crate) fn begin(&mut self, opening: bool, task: &Path)
        requires { opening ≡ true → length self.old < most_helped }
        ensures { self.new ≡ if opening then self.old ++ task.now ∷ [] else self.old }
    {
        if opening {
            self.tasks.push(Task { path: *task });
        }
    }

    // Where the task stands first.
    fn place_of(&self, task: &Path) -> Option<usize>
        ensures some { IfSome result (λ place. (place < length self.now) × (without task.now self.now ≡ remove self.now place)) }
        ensures none { IfNone result (without task.now self.now ≡ self.now) }
    {
        let tasks = self.tasks.as_slice();
        for place in 0..tasks.len() {
            let helped = &tasks[place];
            if helped.path.parts() == task.parts() {
                return Some(place);
            }
        }
        None
    }

    fn remove(&mut self, task: &Path)
        ensures { self.new ≡ without task.now self.old }
    {
        if let Some(place) = self.place_of(task) {
            let _task = self.tasks.remove(place);
        }
    }

    /// The activity made a use. Where that was its End it is no longer helped.
    pub(crate) fn end(&mut self, ends: bool, who: &Path)
        ensures { self.new ≡ if ends then without who.now self.old else self.old }
    {
        if ends {
            self.remove(who);
        }
    }
}
