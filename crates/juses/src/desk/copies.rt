//! Copies of uses.
ghost use Rattle.std.specs.Prelude.{◌≡◌, IfOk};

use crate::desk::Desk;
use crate::uses::{Ended, Use, Work};
use jdata::{Bytes, Name, NoMemory};
use jterm::{Term, copy_name};
use std::alloc::Global;

fn copy_value(alloc: Global, outcome: &Ended) -> Result<Ended, NoMemory>
    ensures { IfOk result (λ e. e ≡ outcome.now) }
{
    match outcome {
        Ended::Value(value) => Ok(Ended::Value(value.copy(alloc)?)),
        Ended::Raised(fault) => Ok(Ended::Raised(*fault)),
    }
}

fn copy_work(alloc: Global, work: &Work) -> Result<Work, NoMemory>
    ensures { IfOk result (λ w. w ≡ work.now) }
{
    let verb = work.verb.copy(alloc)?;
    let x = match &work.x {
        Some(x) => Some(x.copy(alloc)?),
        None => None,
    };
    let y = work.y.copy(alloc)?;
    let place = copy_name(alloc, &work.place)?;
    Ok(Work { verb, x, y, place })
}

fn copy_read(alloc: Global, from: &Name, name: &Name) -> Result<Use, NoMemory>
    ensures { IfOk result (λ u. u ≡ Use.Read from.now name.now) }
{
    let from = copy_name(alloc, from)?;
    let name = copy_name(alloc, name)?;
    Ok(Use::Read { from, name })
}

fn copy_write(alloc: Global, place: &Name, name: &Name, value: &Term) -> Result<Use, NoMemory>
    ensures { IfOk result (λ u. u ≡ Use.Write place.now name.now value.now) }
{
    let place = copy_name(alloc, place)?;
    let name = copy_name(alloc, name)?;
    let value = value.copy(alloc)?;
    Ok(Use::Write { place, name, value })
}

fn copy_print(alloc: Global, bytes: &Bytes) -> Result<Use, NoMemory>
    ensures { IfOk result (λ u. u ≡ Use.Print bytes.now) }
{
    let bytes = bytes.copy(alloc)?;
    Ok(Use::Print { bytes })
}

impl Desk {
    /// A use equal to this one, in memory of its own.
    pub fn copy_use(&self, asked: &Use) -> Result<Use, NoMemory>
        ensures { IfOk result (λ u. u ≡ asked.now) }
    {
        let alloc = self.alloc;
        match asked {
            Use::Read { from, name } => copy_read(alloc, from, name),
            Use::Write { place, name, value } => copy_write(alloc, place, name, value),
            Use::Print { bytes } => copy_print(alloc, bytes),
            Use::Start { pool, work } => Ok(Use::Start {
                pool: *pool,
                work: copy_work(alloc, work)?,
            }),
            Use::Begin => Ok(Use::Begin),
            Use::End { outcome } => Ok(Use::End {
                outcome: copy_value(alloc, outcome)?,
            }),
            Use::Open { pyx } => Ok(Use::Open { pyx: *pyx }),
            Use::MakePyx => Ok(Use::MakePyx),
            Use::SetPyx { pyx, outcome } => Ok(Use::SetPyx {
                pyx: *pyx,
                outcome: copy_value(alloc, outcome)?,
            }),
            Use::MakeMutex => Ok(Use::MakeMutex),
            Use::Lock { mutex } => Ok(Use::Lock { mutex: *mutex }),
            Use::Unlock { mutex } => Ok(Use::Unlock { mutex: *mutex }),
            Use::MakeThread { pool } => Ok(Use::MakeThread { pool: *pool }),
            Use::Threads => Ok(Use::Threads),
            Use::PoolState { pool } => Ok(Use::PoolState { pool: *pool }),
            Use::Current => Ok(Use::Current),
        }
    }
}
