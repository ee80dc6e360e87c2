//! Laws of histories of many activities, each the contract of a function without parameters.
#![tactic(auto)]

ghost use Rattle.std.specs.Prelude.{◌≡◌, ◌⊎◌, ℕ, List, ◌∷◌, true};
ghost use Rattle.jdata.specs.declared.path.PyxId.{PyxId};
ghost use Rattle.jlaws.specs.Quiet.{Quiet};
ghost use Rattle.jlaws.specs.Tests.{is_quiet};
ghost use Rattle.juses.specs.Activities.{Legal, Faithful, Complete, OneThreadRun, Stuck};
ghost use Rattle.juses.specs.Histories.{Once, prints};
ghost use Rattle.juses.specs.Program.{Program};
ghost use Rattle.juses.specs.Wishes.{Wish};
ghost use Rattle.juses.specs.declared.uses.Ended.{Ended};
ghost use Rattle.juses.specs.declared.uses.Entry.{Entry};
ghost use Rattle.juses.specs.declared.uses.Reply.{Reply};
ghost use Rattle.juses.specs.declared.uses.Use.TheVariants.{Open};
ghost use Rattle.juses.specs.declared.uses.Work.{Work};

/// Whatever the script and its tasks do: where the one-thread run is quiet, each legal, faithful and
/// complete history prints what that run prints.
pub fn quiet_law<A>()
    ensures { (meaning : Work → Program Wish Reply Ended) (script : Program Wish Reply A) (workers : ℕ) (r h : List Entry) → OneThreadRun meaning script workers r → Quiet meaning script workers r → Legal workers h → Faithful meaning script h → Complete meaning script h → prints h ≡ prints r }
{}

/// The one-thread run is legal and faithful, and it is complete unless its next use has no reply.
pub fn one_thread_law<A>()
    ensures legal { (meaning : Work → Program Wish Reply Ended) (script : Program Wish Reply A) (workers : ℕ) (r : List Entry) → OneThreadRun meaning script workers r → Legal workers r }
    ensures faithful { (meaning : Work → Program Wish Reply Ended) (script : Program Wish Reply A) (workers : ℕ) (r : List Entry) → OneThreadRun meaning script workers r → Faithful meaning script r }
    ensures complete { (meaning : Work → Program Wish Reply Ended) (script : Program Wish Reply A) (workers : ℕ) (r : List Entry) → OneThreadRun meaning script workers r → Complete meaning script r ⊎ Stuck meaning script workers r }
{}

/// What a legal and faithful history once was is legal and faithful.
pub fn prefix_law<A>()
    ensures legal { (workers : ℕ) (p h : List Entry) → Once p h → Legal workers h → Legal workers p }
    ensures faithful { (meaning : Work → Program Wish Reply Ended) (script : Program Wish Reply A) (p h : List Entry) → Once p h → Faithful meaning script h → Faithful meaning script p }
{}

/// In a legal history each Open of a pyx has the same reply.
pub fn open_law()
    ensures { (workers : ℕ) (h : List Entry) (pyx : PyxId) (e f : Entry) (p q : List Entry) → Legal workers h → Once (e ∷ p) h → Once (f ∷ q) h → e.asked ≡ Open pyx → f.asked ≡ Open pyx → e.reply ≡ f.reply }
{}

/// The test decides of a complete run whether it is quiet.
pub fn test_law<A>()
    ensures passes { (meaning : Work → Program Wish Reply Ended) (script : Program Wish Reply A) (workers : ℕ) (r : List Entry) → Complete meaning script r → is_quiet workers r ≡ true → Quiet meaning script workers r }
    ensures passed { (meaning : Work → Program Wish Reply Ended) (script : Program Wish Reply A) (workers : ℕ) (r : List Entry) → Quiet meaning script workers r → is_quiet workers r ≡ true }
{}
