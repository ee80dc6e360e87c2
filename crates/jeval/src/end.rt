//! How an evaluation ends without a value.

ghost use Rattle.std.specs.Prelude.{◌≡◌};
ghost use Rattle.jeval.specs.Made.{end_of, heard_of};

use jdata::Fault;
use juses::Halt;

/// Why there is no value.
#[derive(Clone, Copy, Debug, PartialEq, Eq)]
pub enum EvalEnd {
    Fault(Fault),
    Halt(Halt),
}

/// What want of memory is to an evaluation.
pub(crate) const NO_MEMORY: EvalEnd = EvalEnd::Halt(Halt::NoMemory);

/// An answer as the end of an evaluation.
pub(crate) fn ended<A>(answer: Result<A, Fault>) -> Result<A, EvalEnd>
    ensures { result ≡ end_of answer }
{
    match answer {
        Ok(value) => Ok(value),
        Err(fault) => Err(EvalEnd::Fault(fault)),
    }
}

/// The answer that is heard: a value, or a fault but TimeLimit. Anything else is the end.
pub(crate) fn heard<A>(came: Result<A, EvalEnd>) -> Result<Result<A, Fault>, EvalEnd>
    ensures { result ≡ heard_of came }
{
    match came {
        Ok(value) => Ok(Ok(value)),
        Err(EvalEnd::Fault(Fault::TimeLimit)) => Err(EvalEnd::Fault(Fault::TimeLimit)),
        Err(EvalEnd::Fault(fault)) => Ok(Err(fault)),
        Err(EvalEnd::Halt(halt)) => Err(EvalEnd::Halt(halt)),
    }
}
