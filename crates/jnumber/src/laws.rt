//! What holds of reading and writing altogether. Each function does nothing: its contract is the law.

ghost use Rattle.jnumber.specs.Laws.{EachRunHasOneReading, WrittenIsRead, ReadIsSpelled, WrittenIsShortest};

/// Each run has exactly one reading.
pub fn each_run_has_one_reading()
    ensures { EachRunHasOneReading }
{}

/// What is written of a number is read as this number.
pub fn written_is_read()
    ensures { WrittenIsRead }
{}

/// A run that is read as a number is a spelling of this number.
pub fn read_is_spelled()
    ensures { ReadIsSpelled }
{}

/// The spelling that is written has no leading zero: none is shorter.
pub fn written_is_shortest()
    ensures { WrittenIsShortest }
{}
