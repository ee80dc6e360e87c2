//! Sentences: a line is cut into words, these are executed, and what came of them is printed.
ghost use Rattle.std.specs.Prelude.{◌≡◌};
ghost use Rattle.juses.specs.Events.{RunsWhole};
ghost use Rattle.jeval.specs.Made.{Makes, Tells, beside};
ghost use Rattle.jeval.specs.Queue.{queue_of};
ghost use Rattle.jeval.specs.Sentence as sentence;
ghost use Rattle.jeval.specs.Showing as showing;
ghost use Rattle.jeval.specs.declared.sentence.Shown.TheVariants as shown;

use crate::activity::Activity;
use crate::applying::MOST_LEVELS;
use crate::end::{EvalEnd, NO_MEMORY};
use crate::queue::queue;
use crate::showing::{fault_lines, shown};
use jdata::{Bytes, Fault, NoMemory};
use juses::{Halt, Use, Uses};
use jwords::{Word, WordFault, words};

/// How many bytes a line may have.
pub const LINE_LIMIT: usize = 65_536;

/// What became of a sentence.
#[derive(Clone, Copy, Debug, PartialEq, Eq)]
pub enum Shown {
    /// Nothing was printed.
    Silent,
    /// Its value was printed.
    Printed,
    /// Its fault was printed.
    Faulted(Fault),
}

// The fault of a line that can't be cut; want of memory is none.
fn fault_of(why: WordFault) -> EvalEnd
    ensures { sentence.IsWhy why result }
{
    match why {
        WordFault::OpenQuote { .. } => EvalEnd::Fault(Fault::OpenQuote),
        WordFault::Spelling { .. } => EvalEnd::Fault(Fault::Spelling),
        WordFault::IllFormed { .. } => EvalEnd::Fault(Fault::IllFormed),
        WordFault::NoMemory => NO_MEMORY,
    }
}

impl<U: Uses> Activity<U> {
    fn run_words(&mut self, line: &[u8], words: &[Word]) -> Result<Option<Bytes>, EvalEnd>
        ensures { Makes U.leads U.refuses self.old self.new (sentence.run_queue (queue_of line.now words.now)) result }
    {
        let Ok(waiting) = queue(self.alloc, line, words) else {
            return Err(NO_MEMORY);
        };
        let Some(waiting) = waiting else {
            return Err(EvalEnd::Fault(Fault::Nonce));
        };
        let (parts, assigned) = self.execute(MOST_LEVELS, waiting)?;
        shown(self.alloc, &mut self.room, parts, assigned)
    }

    fn run_line(&mut self, line: &[u8]) -> Result<Option<Bytes>, EvalEnd>
        ensures { Makes U.leads U.refuses self.old self.new (sentence.run_line line.now) result }
    {
        if line.len() > LINE_LIMIT {
            return Err(EvalEnd::Fault(Fault::Limit));
        }
        match words(self.alloc, line) {
            Ok(words) => self.run_words(line, &words),
            Err(why) => Err(fault_of(why)),
        }
    }

    // Prints, and says what was printed.
    fn print(&mut self, bytes: Bytes, shown: Shown) -> Result<Shown, Halt>
        ensures { Tells U.leads U.refuses self.old self.new (sentence.prints bytes shown) result }
    {
        self.uses.call(self.who, Use::Print { bytes })?;
        Ok(shown)
    }

    fn print_fault(&mut self, line: &[u8], fault: Fault) -> Result<Shown, Halt>
        ensures { Tells U.leads U.refuses self.old self.new (sentence.prints (showing.fault_lines fault line.now) (shown.Faulted fault)) result }
    {
        match fault_lines(self.alloc, fault, line) {
            Ok(bytes) => self.print(bytes, Shown::Faulted(fault)),
            Err(NoMemory) => Err(Halt::NoMemory),
        }
    }

    // Prints what came of a sentence.
    fn tell(&mut self, line: &[u8], came: Result<Option<Bytes>, Fault>) -> Result<Shown, Halt>
        ensures { Tells U.leads U.refuses self.old self.new (λ s. sentence.tells line.now (came, s)) result }
    {
        match came {
            Ok(None) => Ok(Shown::Silent),
            Ok(Some(bytes)) => self.print(bytes, Shown::Printed),
            Err(fault) => self.print_fault(line, fault),
        }
    }

    /// Runs a sentence with so many turns, and prints its result or fault.
    pub(crate) fn run(&mut self, turns: u64, line: &[u8]) -> Result<Shown, Halt>
        ensures { Tells U.leads U.refuses self.old self.new (sentence.line_sentence turns line.now) result }
    {
        self.state.left = turns;
        match self.run_line(line) {
            Ok(bytes) => self.tell(line, Ok(bytes)),
            Err(EvalEnd::Fault(fault)) => self.tell(line, Err(fault)),
            Err(EvalEnd::Halt(halt)) => Err(halt),
        }
    }

    /// The same, after which the session is closed if there was no memory.
    pub(crate) fn run_whole(&mut self, turns: u64, line: &[u8]) -> Result<Shown, Halt>
        ensures same { self.new.who ≡ self.old.who }
        ensures made { RunsWhole U.leads U.refuses self.old.who self.old.uses self.new.uses (sentence.line_sentence turns line.now self.old.state) (beside result self.new.state) }
    {
        match self.run(turns, line) {
            Ok(shown) => Ok(shown),
            Err(halt) => {
                self.close_after(halt);
                Err(halt)
            }
        }
    }
}
