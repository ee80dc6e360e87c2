//! How far a verb has come that is applied several times.
ghost use Rattle.jplan.specs.Several.{IsGoing};

use crate::parts::Parts;
use jframe::Results;

/// How far a verb has come that is applied several times.
#[derive(Debug, Drop)]
pub struct Series {
    pub(crate) parts: Parts,
    // the number of the application that is waited for
    pub(crate) at: u64,
    pub(crate) results: Results,
    ghost going: { IsGoing parts at results },
}
