//! Callers of passes.
ghost use Rattle.jpass.specs.Parts.{IsSame};

use crate::Pass;
use jdata::{Bytes, Path};
use juses::{Halt, Reply, Use, Uses};
use std::alloc::Global;
use std::sync::Wait;

/// Asks as main.
pub(crate) fn ask<R: Wait>(uses: &mut Pass<'_, R>, asked: Use) -> Result<Reply, Halt>
    ensures { IsSame uses.old uses.new }
{
    uses.call(Path::main(), asked)
}

/// Prints as main.
pub(crate) fn prints<R: Wait>(uses: &mut Pass<'_, R>, alloc: Global, text: &[u8]) -> bool
    ensures { IsSame uses.old uses.new }
{
    match Vec::from_slice(alloc, text) {
        Ok(bytes) => {
            let bytes = Bytes::of(bytes);
            ask(uses, Use::Print { bytes }).is_ok()
        }
        Err(_) => false,
    }
}
