//! Tasks: they are started, begin and come to an end.
ghost use Rattle.std.specs.Prelude.{◌≡◌, ◌<◌, IfOk, OnOk, OnErr, length};
ghost use Rattle.std.specs.Option.{option_copied};
ghost use Rattle.juses.specs.Desk.{start_reply, begin_reply, end_reply, waiting_work, most_tasks};
ghost use Rattle.juses.specs.Keeping.{with_task, after_start, after_begin, after_end};
ghost use Rattle.juses.specs.Entries.{pyx_of};
ghost use Rattle.juses.specs.Standing.{phase_in};
ghost use Rattle.juses.specs.Tables.{made_in, front, last_number};

use crate::desk::Desk;
use crate::kept::Phase;
use crate::uses::{Ended, Reply, Work};
use jdata::{Fault, NoMemory, Path, PyxId};

/// How many tasks a session starts at most.
pub const MOST_TASKS: usize = 1_000_000;

// Who started the task, and its number among the tasks of that activity: 0 for main.
pub(super) fn maker_of(task: &Path) -> (&[u32], u32)
    ensures maker { result.0.now ≡ front task.now }
    ensures number { result.1 ≡ last_number task.now }
{
    let parts = task.parts();
    match parts.len() {
        0 => (parts, 0),
        depth => (&parts[..depth - 1], parts[depth - 1]),
    }
}

impl Desk {
    // How far the task has come.
    pub(super) fn phase(&self, task: &Path) -> Option<&Phase>
        ensures { option_copied result ≡ phase_in self.now.tasks task.now }
    {
        let (maker, number) = maker_of(task);
        self.tasks.get(maker, number)
    }

    // Starts a task, where there may be one more.
    pub(super) fn start(&mut self, who: Path, pool: u8, work: Work) -> Result<Reply, NoMemory>
        ensures reply { IfOk result (λ replied. replied ≡ start_reply self.old.order (length (made_in self.old.tasks who)) who) }
        ensures state { OnOk result (self.new ≡ after_start self.old who pool work) }
        ensures unchanged { OnErr result (self.new ≡ self.old) }
    {
        who.known();
        if self.order.len() >= MOST_TASKS {
            return Ok(Reply::Refused(Fault::Limit));
        }
        let made = self.tasks.count(who.parts());
        match who.child(made as u32 + 1) {
            Some(task) => self.start_task(who, task, Phase::Waiting { pool, work }),
            None => Ok(Reply::Refused(Fault::Limit)),
        }
    }

    fn start_task(&mut self, who: Path, task: Path, waiting: Phase) -> Result<Reply, NoMemory>
        requires { length self.old.order < most_tasks }
        ensures reply { IfOk result (λ replied. replied ≡ Reply.Pyx (pyx_of task)) }
        ensures state { OnOk result (self.new ≡ with_task self.old who task waiting) }
        ensures unchanged { OnErr result (self.new ≡ self.old) }
    {
        self.order.push(task)?;
        match self.tasks.push(who.parts(), waiting) {
            Ok(()) => Ok(Reply::Pyx(PyxId {
                path: task,
                number: 0,
            })),
            Err(NoMemory) => {
                let _task = self.order.pop();
                Err(NoMemory)
            }
        }
    }

    /// The work of a task that waits: it runs on the thread from now on.
    pub(crate) fn begin_task(&mut self, task: &Path, thread: u16) -> Option<Work>
        ensures work { result ≡ waiting_work (phase_in self.old.tasks task.now) }
        ensures state { self.new ≡ after_begin self.old task.now thread (phase_in self.old.tasks task.now) }
    {
        let Some(Phase::Waiting { pool, .. }) = self.phase(task) else {
            return None;
        };
        let pool = *pool;
        let (maker, number) = maker_of(task);
        match self
            .tasks
            .replace(maker, number, Phase::Running { pool, thread })
        {
            Phase::Waiting { work, .. } => Some(work),
            _ => unreachable!(),
        }
    }

    pub(super) fn begin_use(&mut self, who: &Path, thread: u16) -> Option<Reply>
        ensures reply { result ≡ begin_reply (phase_in self.old.tasks who.now) }
        ensures state { self.new ≡ after_begin self.old who.now thread (phase_in self.old.tasks who.now) }
    {
        match self.begin_task(who, thread) {
            Some(_) => Some(Reply::Done),
            None => None,
        }
    }

    pub(super) fn end(&mut self, who: &Path, outcome: Ended) -> Option<Reply>
        ensures reply { result ≡ end_reply (phase_in self.old.tasks who.now) }
        ensures state { self.new ≡ after_end self.old who.now outcome (phase_in self.old.tasks who.now) }
    {
        let Some(Phase::Running { .. }) = self.phase(who) else {
            return None;
        };
        let (maker, number) = maker_of(who);
        let _running = self.tasks.replace(maker, number, Phase::Over(outcome));
        Some(Reply::Done)
    }
}
