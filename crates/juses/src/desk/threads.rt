//! The made threads and their pools.
ghost use Rattle.std.specs.Prelude.{◌≡◌, ◌≤◌, ℕ, pos, IfOk, OnOk, OnErr, length, nat_eq};
ghost use Rattle.std.specs.Option.{option_copied};
ghost use Rattle.juses.specs.Desk.{thread_reply, pool_reply, is_unfinished, is_unended, has_unended, is_running, is_idle, count_of, threads_of};
ghost use Rattle.juses.specs.Keeping.{after_make_thread};
ghost use Rattle.juses.specs.Standing.{phase_in};

use crate::desk::Desk;
use crate::kept::Phase;
use crate::uses::Reply;
use jdata::{Fault, NoMemory};

fn is_unfinished(pool: u8, phase: Option<&Phase>) -> bool
    ensures { result ≡ is_unfinished pool (option_copied phase.entry) }
{
    match phase {
        Some(Phase::Waiting { pool: own, .. }) => *own == pool,
        Some(Phase::Running { pool: own, .. }) => *own == pool,
        Some(Phase::Over(_)) => false,
        None => false,
    }
}

fn is_unended(phase: Option<&Phase>) -> bool
    ensures { result ≡ is_unended (option_copied phase.entry) }
{
    match phase {
        Some(Phase::Waiting { .. }) => true,
        Some(Phase::Running { .. }) => true,
        Some(Phase::Over(_)) => false,
        None => false,
    }
}

fn is_running(thread: u16, phase: Option<&Phase>) -> bool
    ensures { result ≡ is_running thread (option_copied phase.entry) }
{
    match phase {
        Some(Phase::Running { thread: own, .. }) => *own == thread,
        Some(Phase::Waiting { .. }) => false,
        Some(Phase::Over(_)) => false,
        None => false,
    }
}

impl Desk {
    pub(super) fn make_thread(&mut self, pool: u8) -> Result<Reply, NoMemory>
        ensures reply { IfOk result (λ replied. replied ≡ thread_reply self.old.workers self.old.threads) }
        ensures state { OnOk result (self.new ≡ after_make_thread self.old pool) }
        ensures unchanged { OnErr result (self.new ≡ self.old) }
    {
        if self.threads.len() >= self.workers as usize {
            return Ok(Reply::Refused(Fault::Limit));
        }
        self.threads.push(pool)?;
        Ok(Reply::Number(self.threads.len() as i64))
    }

    pub(super) fn made_threads(&self) -> Reply
        ensures { result ≡ Reply.Number (pos (length self.now.threads)) }
    {
        Reply::Number(self.threads.len() as i64)
    }

    fn unfinished(&self, pool: u8) -> u32
        ensures { result ≡ count_of (λ task. is_unfinished pool (phase_in self.now.tasks task)) self.now.order }
    {
        let mut count = 0;
        for task in &self.order {
            if is_unfinished(pool, self.phase(task)) {
                count += 1;
            }
        }
        count
    }

    fn is_idle(&self, thread: u16) -> bool
        ensures { result ≡ is_idle (phase_in self.now.tasks) self.now.order thread }
    {
        for task in &self.order {
            if is_running(thread, self.phase(task)) {
                return false;
            }
        }
        true
    }

    fn idle(&self, pool: u8) -> u32
        ensures { result ≡ threads_of (is_idle (phase_in self.now.tasks) self.now.order) pool 1 self.now.threads }
    {
        // threads are at most as many as workers
        let _most = self.workers;
        let mut count = 0;
        let mut number = 0;
        for own in &self.threads {
            number += 1;
            if *own == pool && self.is_idle(number) {
                count += 1;
            }
        }
        count
    }

    fn of_pool(&self, pool: u8) -> u32
        ensures { result ≡ count_of (nat_eq pool) self.now.threads }
    {
        let _most = self.workers;
        let mut count = 0;
        for own in &self.threads {
            if pool == *own {
                count += 1;
            }
        }
        count
    }

    /// Whether a started task hasn't ended.
    pub(crate) fn has_unended(&self) -> bool
        ensures { result ≡ has_unended (phase_in self.now.tasks) self.now.order }
    {
        for task in &self.order {
            if is_unended(self.phase(task)) {
                return true;
            }
        }
        false
    }

    pub(super) fn pool_state(&self, pool: u8) -> Reply
        ensures { result ≡ pool_reply (phase_in self.now.tasks) self.now.order self.now.threads pool }
    {
        Reply::Pool {
            idle: self.idle(pool),
            unfinished: self.unfinished(pool),
            threads: self.of_pool(pool),
        }
    }
}
