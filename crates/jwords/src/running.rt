//! Lists of numbers, and of runs that look like numbers.

ghost use Rattle.std.specs.Prelude.{◌≡◌, ◌<◌, ◌≤◌, ◌↔◌, length, IsTrue};
ghost use Rattle.std.specs.Bool.{OnFalse};
ghost use Rattle.jnumber.specs.Reading.{IsReading};
ghost use Rattle.jwords.specs.Runs.{BeginsRun, BeginsNumber, IsList};

use crate::alphabet::{COLON, after_run, byte_at, is_number_start, run_length};
use jnumber::{Read, read};

/// Whether the bytes begin with a run that no colon follows.
pub fn begins_run(bytes: &[u8]) -> bool
    ensures { IsTrue result ↔ BeginsRun bytes.now }
{
    is_number_start(byte_at(bytes, 0)) && byte_at(bytes, run_length(bytes)) != COLON
}

/// Whether the bytes begin with a number.
pub fn begins_number(bytes: &[u8]) -> bool
    ensures { IsTrue result ↔ BeginsNumber bytes.now }
{
    begins_run(bytes) && is_number(&bytes[..run_length(bytes)])
}

/// Whether a run is a number, or the underscore that stands for no limit.
pub fn is_number(run: &[u8]) -> bool
    ensures number { IsTrue result ↔ (¬ IsReading run.now Read.Not) }
    ensures none { OnFalse result (IsReading run.now Read.Not) }
{
    match read(run) {
        Read::Number(_) | Read::Wide => true,
        Read::Not => false,
    }
}

/// How many bytes the numbers take with which these bytes begin.
pub fn number_list_length(bytes: &[u8]) -> usize
    requires { BeginsNumber bytes.now }
    ensures list { IsList BeginsNumber bytes.now result }
    ensures within { (0 < result) × (result ≤ length bytes.now) }
{
    let mut at = 0;
    loop {
        let rest = &bytes[at..];
        let next = at + after_run(rest);
        if !begins_number(&bytes[next..]) {
            return at + run_length(rest);
        }
        at = next;
    }
}

/// How many bytes the runs take with which these bytes begin.
pub fn run_list_length(bytes: &[u8]) -> usize
    requires { BeginsRun bytes.now }
    ensures list { IsList BeginsRun bytes.now result }
    ensures within { (0 < result) × (result ≤ length bytes.now) }
{
    let mut at = 0;
    loop {
        let rest = &bytes[at..];
        let next = at + after_run(rest);
        if !begins_run(&bytes[next..]) {
            return at + run_length(rest);
        }
        at = next;
    }
}
