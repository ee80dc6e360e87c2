//! What a desk keeps of tasks, pyxes and mutexes.

use crate::uses::{Ended, Work};
use jdata::Path;

/// How far a task has come.
#[derive(Debug, Drop)]
pub enum Phase {
    /// It waits in its pool.
    Waiting { pool: u8, work: Work },
    Running { pool: u8, thread: u16 },
    Over(Ended),
}

/// What a pyx holds that is set by hand.
#[derive(Debug, Drop)]
pub enum Setting {
    Unset,
    Set(Ended),
}

/// Who holds a mutex.
#[derive(Debug, Drop)]
pub enum Holding {
    Free,
    Held(Path),
}
