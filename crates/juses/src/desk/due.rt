//! Which waiting task is handed out where one is asked for.
ghost use Rattle.std.specs.Prelude.{◌≡◌, ℕ, IfOk, OnErr, Some, nat_eq};
ghost use Rattle.std.specs.List.{find, list_any};
ghost use Rattle.std.specs.Option.{option_copied};
ghost use Rattle.juses.specs.Due.{is_waiting, waits_alone, waits_in, own_task, kept_due, with_that, none_due, due_answer, after_due, HandsTask};
ghost use Rattle.juses.specs.Desk.{waiting_work, has_unended};
ghost use Rattle.juses.specs.Keeping.{after_begin};
ghost use Rattle.juses.specs.Standing.{phase_in};
ghost use Rattle.juses.specs.Tables.{numbered};

use crate::desk::Desk;
use crate::kept::Phase;
use crate::uses::{Halt, Why, Work};
use jdata::{Path, PyxId};

fn is_waiting(phase: Option<&Phase>) -> bool
    ensures { result ≡ is_waiting (option_copied phase.entry) }
{
    match phase {
        Some(Phase::Waiting { .. }) => true,
        Some(Phase::Running { .. }) => false,
        Some(Phase::Over(_)) => false,
        None => false,
    }
}

fn waits_in(pool: u8, phase: Option<&Phase>) -> bool
    ensures { result ≡ waits_in (Some pool) (option_copied phase.entry) }
{
    match phase {
        Some(Phase::Waiting { pool: own, .. }) => pool == *own,
        Some(Phase::Running { .. }) => false,
        Some(Phase::Over(_)) => false,
        None => false,
    }
}

impl Desk {
    /// Makes the Begin, on the thread, of the waiting task that is asked for so, and gives the task
    /// with the work of its start. It takes no memory.
    ///
    /// Just started, a task is given where its pool has no thread; before an opening, the pyx's;
    /// to a worker, the first started of those that wait in the pool of its thread; and at the end
    /// the first started that waits. Where none is due at the end and a started task hasn't ended,
    /// the answer is `Wait`. After an `Err` or without a task the desk is as before.
    pub fn begin(&mut self, thread: u16, why: Why) -> Result<Option<(Path, Work)>, Halt>
        ensures answer { result ≡ due_answer self.old why }
        ensures state { self.new ≡ after_due self.old thread why }
        ensures hands { IfOk result (λ given. HandsTask self.old thread why given self.new) }
        ensures unchanged { OnErr result (self.new ≡ self.old) }
    {
        if let Some(cause) = self.closed {
            return Err(Halt::Closed(cause));
        }
        match self.due(&why) {
            Some(task) => Ok(self.hand_out(&task, thread)),
            None => self.none_due(&why),
        }
    }

    // A task that waits is handed out.
    fn hand_out(&mut self, task: &Path, thread: u16) -> Option<(Path, Work)>
        ensures given { result ≡ with_that task.now (waiting_work (phase_in self.old.tasks task.now)) }
        ensures state { self.new ≡ after_begin self.old task.now thread (phase_in self.old.tasks task.now) }
    {
        match self.begin_task(task, thread) {
            Some(work) => Some((*task, work)),
            None => None,
        }
    }

    fn due(&self, why: &Why) -> Option<Path>
        ensures { result ≡ kept_due self.now why.now }
    {
        match why {
            Why::Started(pyx) => self.just_started(pyx),
            Why::Opening(pyx) => self.about_to_open(pyx),
            Why::Working(thread) => self.of_thread(*thread),
            Why::Ending => self.first_waiting(),
        }
    }

    // Where none is due, main waits for those that haven't ended.
    fn none_due(&self, why: &Why) -> Result<Option<(Path, Work)>, Halt>
        ensures { result ≡ none_due why.now (has_unended (phase_in self.now.tasks) self.now.order) }
    {
        match why {
            Why::Ending if self.has_unended() => Err(Halt::Wait),
            _ => Ok(None),
        }
    }

    fn just_started(&self, pyx: &PyxId) -> Option<Path>
        ensures { result ≡ own_task pyx.now.number pyx.now.path (waits_alone self.now.threads (phase_in self.now.tasks pyx.now.path)) }
    {
        if pyx.number == 0 && self.waits_alone(&pyx.path) {
            return Some(pyx.path);
        }
        None
    }

    fn about_to_open(&self, pyx: &PyxId) -> Option<Path>
        ensures { result ≡ own_task pyx.now.number pyx.now.path (is_waiting (phase_in self.now.tasks pyx.now.path)) }
    {
        if pyx.number == 0 && is_waiting(self.phase(&pyx.path)) {
            return Some(pyx.path);
        }
        None
    }

    fn waits_alone(&self, task: &Path) -> bool
        ensures { result ≡ waits_alone self.now.threads (phase_in self.now.tasks task.now) }
    {
        match self.phase(task) {
            Some(Phase::Waiting { pool, .. }) => !self.has_thread(*pool),
            Some(Phase::Running { .. }) => false,
            Some(Phase::Over(_)) => false,
            None => false,
        }
    }

    fn has_thread(&self, pool: u8) -> bool
        ensures { result ≡ list_any (nat_eq pool) self.now.threads }
    {
        for own in &self.threads {
            if pool == *own {
                return true;
            }
        }
        false
    }

    // Threads are numbered from 1 on.
    fn pool_of(&self, thread: u16) -> Option<&u8>
        ensures { option_copied result ≡ numbered self.now.threads thread }
    {
        if thread == 0 {
            return None;
        }
        self.threads.get(thread as usize - 1)
    }

    fn of_thread(&self, thread: u16) -> Option<Path>
        ensures { result ≡ find (λ task. waits_in (numbered self.now.threads thread) (phase_in self.now.tasks task)) self.now.order }
    {
        match self.pool_of(thread) {
            Some(pool) => self.first_in_pool(*pool),
            None => None,
        }
    }

    fn first_in_pool(&self, pool: u8) -> Option<Path>
        ensures { result ≡ find (λ task. waits_in (Some pool) (phase_in self.now.tasks task)) self.now.order }
    {
        for task in &self.order {
            if waits_in(pool, self.phase(task)) {
                return Some(*task);
            }
        }
        None
    }

    fn first_waiting(&self) -> Option<Path>
        ensures { result ≡ find (λ task. is_waiting (phase_in self.now.tasks task)) self.now.order }
    {
        for task in &self.order {
            if is_waiting(self.phase(task)) {
                return Some(*task);
            }
        }
        None
    }
}
