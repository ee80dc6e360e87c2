//! Laws of histories of many activities, each the contract of a function without parameters.
ghost use Rattle.std.specs.Prelude.{◌≡◌, ◌⊎◌, ℕ, List, [], None, Result};
ghost use Rattle.juses.specs.Activities.{Legal, Faithful, Complete, OneThread, OneThreadRun, Stuck};
ghost use Rattle.juses.specs.ByActivity.{ByActivity, FaithfulIn, Together};
ghost use Rattle.juses.specs.Desk.{first};
ghost use Rattle.juses.specs.Doings.{Doings, told, Does, Runs, passing};
ghost use Rattle.juses.specs.Histories.{Once};
ghost use Rattle.juses.specs.Leading.{Leads};
ghost use Rattle.juses.specs.OldestFirst.{history};
ghost use Rattle.juses.specs.Program.{Program};
ghost use Rattle.juses.specs.SoloRuns.{SoloRun};
ghost use Rattle.juses.specs.Standing.{Kept, Stands, Refuses, Delays};
ghost use Rattle.juses.specs.Told.{Told};
ghost use Rattle.juses.specs.Wishes.{Wish};
ghost use Rattle.juses.specs.declared.uses.Cause.{Cause};
ghost use Rattle.juses.specs.declared.uses.Ended.{Ended};
ghost use Rattle.juses.specs.declared.uses.Entry.{Entry};
ghost use Rattle.juses.specs.declared.uses.Halt.{Halt};
ghost use Rattle.juses.specs.declared.uses.Reply.{Reply};
ghost use Rattle.juses.specs.declared.uses.Use.{Use};
ghost use Rattle.juses.specs.declared.uses.Work.{Work};

use crate::uses::Uses;

/// What main did on one thread, the uses of its tasks among it, is a history of one thread, and so
/// legal and faithful. It is complete and the one-thread run where the script ended, and the
/// one-thread run where a use had no reply. There is exactly one such run, and it ends where main and
/// each started task have ended, or where the next use has no reply.
pub fn solo_law<A>()
    ensures there { (meaning : Work → Program Wish Reply Ended) (script : Program Wish Reply A) (workers : ℕ) → (r : List Entry) × OneThreadRun meaning script workers r }
    ensures solo { (meaning : Work → Program Wish Reply Ended) (script : Program Wish Reply A) (workers : ℕ) (d d' : Kept) (ds : Doings) (handed : List ℕ) (closed : List Cause) (r : Result A Halt) → Stands d (first workers) → Leads d (record { told = told ds; handed = handed; closed = closed }) d' → Does meaning (Refuses d') (Delays d') None [] script ds r → SoloRun meaning script workers d' (history (told ds)) r }
    ensures legal { (meaning : Work → Program Wish Reply Ended) (script : Program Wish Reply A) (workers : ℕ) (h : List Entry) → OneThread meaning script workers h → Legal workers h }
    ensures faithful { (meaning : Work → Program Wish Reply Ended) (script : Program Wish Reply A) (workers : ℕ) (h : List Entry) → OneThread meaning script workers h → Faithful meaning script h }
    ensures part { (meaning : Work → Program Wish Reply Ended) (script : Program Wish Reply A) (workers : ℕ) (r h : List Entry) → OneThreadRun meaning script workers r → OneThread meaning script workers h → Once h r }
    ensures one { (meaning : Work → Program Wish Reply Ended) (script : Program Wish Reply A) (workers : ℕ) (r h : List Entry) → OneThreadRun meaning script workers r → OneThreadRun meaning script workers h → h ≡ r }
    ensures ends { (meaning : Work → Program Wish Reply Ended) (script : Program Wish Reply A) (workers : ℕ) (r : List Entry) → OneThreadRun meaning script workers r → Complete meaning script r ⊎ Stuck meaning script workers r }
{}

/// Whoever answers the uses: what an activity did with the tasks that it ran, taken activity by
/// activity, is its program's uses and those of each task's work.
pub fn activities_law<U: Uses, A>()
    ensures { (meaning : Work → Program Wish Reply Ended) (who : List ℕ) (p : Program Wish Reply A) (f : A → Program Use Reply (Unit {0})) (s t : U) (r : Result A Halt) → Runs U.leads U.refuses U.delays meaning who s t p r → (ds : Doings) × (closed : List Cause) × U.leads s (passing ds closed) t × ByActivity meaning who f p (told ds) r }
{}

/// A history in which each activity's entries are its program's is faithful, whichever thread made
/// them. So is one that several passes made together, each of which did what its program and the
/// works of its tasks say.
pub fn faithful_law<A>()
    ensures passes { (meaning : Work → Program Wish Reply Ended) (script : Program Wish Reply A) (tells : ℕ → List Told) (h : List Entry) → Together meaning script tells h → Faithful meaning script h }
    ensures each { (meaning : Work → Program Wish Reply Ended) (script : Program Wish Reply A) (h : List Entry) → ((x : List ℕ) → FaithfulIn meaning script x h) → Faithful meaning script h }
{}
