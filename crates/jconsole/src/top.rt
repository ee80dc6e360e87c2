//! The top call.
ghost use Rattle.std.specs.Prelude.{◌≡◌, ◌≢◌, ◌≤◌, ◌↔◌, ◌⊎◌, [], IfSome, length};
ghost use Rattle.jio.specs.Counts.{Rises};
ghost use Rattle.jsession.specs.Reads.{ReadPastLimit};
ghost use Rattle.jsession.specs.declared.status.Status.TheVariants as status;
ghost use Rattle.jconsole.specs.Session.{IsDone, IsReadFault, IsTooLong, IsWriteFault, IsShort};

use crate::outcome::Outcome;
use crate::session::session;
use jio::{Sink, Source};
use jsession::Status;
use std::alloc::Global;

/// Reads a script and runs its sentences on one thread, over a desk without workers. The prints of each are written in
/// one piece.
pub fn run_solo<S: Source, K: Sink>(
    alloc: Global,
    words: &[String],
    script: &mut S,
    out: &mut K,
) -> Outcome
    // Any word is a faulty command line.
    ensures usage { (result.status ≡ status.Usage) ↔ (words.now ≢ []) }
    ensures unread { result.status ≡ status.Usage → script.new ≡ script.old }
    ensures unwritten { result.status ≡ status.Usage → out.new ≡ out.old }

    // The script was read to its end without a fault, and the prints of the one-thread run of its sentences are
    // written, in order.
    ensures done { result.status ≡ status.Done → IsDone (S.reads script.old) (S.reads script.new) (K.writes out.old) (K.writes out.new) }

    // Where reading broke off, the sentences whose line end was read before that are run, and nothing is read after it.
    ensures read_fault { result.status ≡ status.ReadFault → IsReadFault (S.reads script.old) (S.reads script.new) (K.writes out.old) (K.writes out.new) }
    ensures long { result.status ≡ status.TooLong → IsTooLong (S.reads script.old) (S.reads script.new) (K.writes out.old) (K.writes out.new) }

    // A failed write, or want of memory, leaves a beginning of what the one-thread run of the items prints: all that the
    // sentences before printed, and of the sentence in progress perhaps a part; all where each write was answered All.
    ensures write_fault { result.status ≡ status.WriteFault → IsWriteFault (S.reads script.old) (S.reads script.new) (K.writes out.old) (K.writes out.new) }
    ensures no_memory { result.status ≡ status.NoMemory → IsShort (S.reads script.old) (S.reads script.new) (K.writes out.old) (K.writes out.new) }

    // Byte 16,777,217 is read only of a script that is too long, and a fault of writing or of memory may come before
    // that is told.
    ensures past_limit { ReadPastLimit (S.reads script.old) (S.reads script.new) →
        (result.status ≡ status.TooLong) ⊎ (result.status ≡ status.WriteFault) ⊎ (result.status ≡ status.NoMemory) }
    ensures short { IfSome (S.reads script.old).left (λ bytes. length bytes ≤ 16777216 → ¬ ReadPastLimit (S.reads script.old) (S.reads script.new)) }

    // Without words, without a fault, and with a script that isn't too long the session is done, or memory was missing.
    ensures complete { words.now ≡ [] → ¬ Rises (S.reads script.old).faults (S.reads script.new).faults → ¬ Rises (K.writes out.old).faults (K.writes out.new).faults
        → ¬ ReadPastLimit (S.reads script.old) (S.reads script.new)
        → (result.status ≡ status.Done) ⊎ (result.status ≡ status.NoMemory) }
{
    if !words.is_empty() {
        return Outcome {
            status: Status::Usage,
        };
    }
    Outcome {
        status: session(alloc, script, out),
    }
}
