//! Reading a script.
ghost use Rattle.std.specs.Prelude.{◌≡◌, ◌≤◌, ◌<◌, ◌+◌, ◌++◌, length, OnOk};
ghost use Rattle.jsession.specs.Reads.{IsRead, IsKept};

use jdata::NoMemory;
use jio::{Got, Source};
use std::alloc::Global;

/// How many bytes a script may have.
const SCRIPT_LIMIT: usize = 16_777_216;

/// How many bytes are asked for at a time.
const CHUNK: usize = 65_536;

/// How the reading of a script ended.
#[derive(Clone, Copy, Debug, PartialEq, Eq)]
pub enum Reading {
    /// It was read to its end.
    Whole,
    /// A read failed.
    Broken,
    /// One byte more than a script may have was read.
    Long,
    /// There was no memory for what was read.
    Short,
}

fn append(bytes: &mut Vec<u8>, piece: &[u8]) -> Result<(), NoMemory>
    ensures { OnOk result (bytes.new.items ≡ bytes.old.items ++ piece.now) }
{
    match bytes.extend_from_slice(piece) {
        Ok(()) => Ok(()),
        Err(_) => Err(NoMemory),
    }
}

// Keeps a piece of the script; how the reading ends if it ends with that. A byte beyond the limit isn't kept.
fn keep(bytes: &mut Vec<u8>, piece: &[u8]) -> Option<Reading>
    requires room { length bytes.old.items + length piece.now ≤ 16777217 }
    requires some { 0 < length piece.now }
    ensures { IsKept bytes.old.items piece.now bytes.new.items result }
{
    if bytes.len() + piece.len() > SCRIPT_LIMIT {
        match append(bytes, &piece[..piece.len() - 1]) {
            Ok(()) => Some(Reading::Long),
            Err(NoMemory) => Some(Reading::Short),
        }
    } else {
        match append(bytes, piece) {
            Ok(()) => None,
            Err(NoMemory) => Some(Reading::Short),
        }
    }
}

/// The bytes of a script, and how their reading ended. Nothing is read after a failed read, after the end or past the
/// first byte beyond the limit, and that byte isn't given.
pub(crate) fn read_script<S: Source>(alloc: Global, script: &mut S) -> (Vec<u8>, Reading)
    ensures read { IsRead (S.reads script.old) (S.reads script.new) result.1 result.0.items }
    ensures count { (S.reads script.old).faults ≤ (S.reads script.new).faults }
{
    let mut bytes = Vec::new(alloc);
    let mut chunk = [0; CHUNK];
    loop {
        let room = CHUNK.min(SCRIPT_LIMIT + 1 - bytes.len());
        match script.read(&mut chunk[..room]) {
            Got::End => return (bytes, Reading::Whole),
            Got::Failed => return (bytes, Reading::Broken),
            Got::Bytes(count) => {
                if let Some(how) = keep(&mut bytes, &chunk[..count]) {
                    return (bytes, how);
                }
            }
        }
    }
}
