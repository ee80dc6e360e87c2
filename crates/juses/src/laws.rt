//! Laws of programs, of the desk and of histories, each the contract of a function without
//! parameters.
ghost use Rattle.std.specs.Prelude.{◌≡◌, ◌≢◌, ◌⊎◌, ℕ, List, [], ◌∷◌, ◌++◌, map, true, false, Some, None, Result, Ok, Err};
ghost use Rattle.juses.specs.Program.{Program, next, Begins, Ends};
ghost use Rattle.juses.specs.Keys.{Key, is_among, changed_by};
ghost use Rattle.juses.specs.Activities as many;
ghost use Rattle.juses.specs.Agreeing.{AgreeBeside, AgreeOnHolder};
ghost use Rattle.juses.specs.Desk.{State, first, reply, moved, depends_on};
ghost use Rattle.juses.specs.Events.{Events, told, Does, Runs};
ghost use Rattle.juses.specs.Histories.{Once, after, prints, Legal, Asks, Faithful, Complete, OneThread, OneThreadRun, Stuck};
ghost use Rattle.juses.specs.Leading.{Leads};
ghost use Rattle.juses.specs.OldestFirst.{Tells, history, taken, written};
ghost use Rattle.juses.specs.Standing.{Kept, Refuses};
ghost use Rattle.juses.specs.Told.{Told};
ghost use Rattle.juses.specs.Wishes.{Wish};
ghost use Rattle.juses.specs.declared.uses.Ended.{Ended};
ghost use Rattle.juses.specs.declared.uses.Entry.{Entry};
ghost use Rattle.juses.specs.declared.uses.Work.{Work};
ghost use Rattle.juses.specs.declared.uses.Halt.{Halt};
ghost use Rattle.juses.specs.declared.uses.Halt.TheVariants as halts;
ghost use Rattle.juses.specs.declared.uses.Reply.{Reply};
ghost use Rattle.juses.specs.declared.uses.Use.{Use};

/// What a program asks is a function of the replies, and so is its answer.
pub fn determinism_law<A>()
    ensures uses { (p : Program Wish Reply A) (es fs : List (Wish × Reply)) → Begins p es → Begins p fs → map (λ e. e.1) es ≡ map (λ e. e.1) fs → es ≡ fs }
    ensures answers { (p : Program Wish Reply A) (es fs : List (Wish × Reply)) (a b : A) → Ends p es a → Ends p fs b → map (λ e. e.1) es ≡ map (λ e. e.1) fs → (es ≡ fs) × (a ≡ b) }
{}

/// The use that a program makes at a place is its next after the replies before, and after its end
/// there is none.
pub fn next_law<A>()
    ensures at_each { (p : Program Wish Reply A) (es fs : List (Wish × Reply)) (e : Wish × Reply) → Begins p (es ++ e ∷ fs) → next p (map (λ d. d.1) es) ≡ Some e.0 }
    ensures at_end { (p : Program Wish Reply A) (es : List (Wish × Reply)) (a : A) → Ends p es a → next p (map (λ d. d.1) es) ≡ None }
    ensures begins { (p : Program Wish Reply A) (es : List (Wish × Reply)) (a : A) → Ends p es a → Begins p es }
{}

/// An entry changes what stands at its keys alone, and there what was there before and the entry
/// determine the change, on whichever thread, and at all keys but mutexes whoever asked. Where two
/// states agree on what a use depends on in one of them, its reply is the same in both.
pub fn desk_law()
    ensures others { (s : State) (e : Entry) (k : Key) → changed_by e k ≡ false → (moved s e).at k ≡ s.at k }
    ensures changes { (s t : State) (e d : Entry) (k : Key) → e.asked ≡ d.asked → e.reply ≡ d.reply → AgreeOnHolder k e.who d.who → s.at k ≡ t.at k → (moved s e).at k ≡ (moved t d).at k }
    ensures replies { (s t : State) (who : List ℕ) (thread thread' : ℕ) (asked : Use) → ((k : Key) → is_among (depends_on s asked) k ≡ true → s.at k ≡ t.at k) → AgreeBeside s t who thread thread' asked → reply s who thread asked ≡ reply t who thread' asked }
{}

/// What main did, as contracts tell it, is a legal and faithful history with these prints. It is
/// complete where the script has ended, and where a use was refused, that is main's next.
pub fn history_law<A>()
    ensures legal { (workers : ℕ) (script : Program Wish Reply A) (d : Kept) (es : Events) (r : Result A Halt) → Does (Refuses d) [] script es r → Tells 0 (first workers) (told es) → Legal workers (history (told es)) }
    ensures faithful { (script : Program Wish Reply A) (d : Kept) (es : Events) (r : Result A Halt) → Does (Refuses d) [] script es r → Faithful script (history (told es)) }
    ensures complete { (script : Program Wish Reply A) (d : Kept) (es : Events) (a : A) → Does (Refuses d) [] script es (Ok a) → Complete script (history (told es)) }
    ensures refused { (script : Program Wish Reply A) (d : Kept) (es : Events) (halt : Halt) → Does (Refuses d) [] script es (Err halt) → halt ≢ halts.NoMemory → (asked : Use) × Asks script (history (told es)) [] asked × Refuses d [] asked halt }
    ensures state { (workers : ℕ) (xs : List Told) → after workers (history xs) ≡ taken (first workers) xs }
    ensures prints { (xs : List Told) → prints (history xs) ≡ written xs }
    ensures printed { (workers : ℕ) (h : List Entry) → (after workers h).printed ≡ prints h }
{}

/// A legal, faithful and complete history of a script with one activity is the one-thread run. There
/// is exactly one such run, and what was done on the way to it was done at some time in it. It ends
/// where the script has ended, or where the next use has no reply.
pub fn one_thread_law<A>()
    ensures there { (script : Program Wish Reply A) (workers : ℕ) → (r : List Entry) × OneThreadRun script workers r }
    ensures run { (script : Program Wish Reply A) (workers : ℕ) (h : List Entry) → Legal workers h → Faithful script h → Complete script h → OneThreadRun script workers h }
    ensures one { (script : Program Wish Reply A) (workers : ℕ) (r h : List Entry) → OneThreadRun script workers r → OneThreadRun script workers h → h ≡ r }
    ensures part { (script : Program Wish Reply A) (workers : ℕ) (r h : List Entry) → OneThreadRun script workers r → Legal workers h → Faithful script h → Once h r }
    ensures legal { (script : Program Wish Reply A) (workers : ℕ) (r : List Entry) → OneThreadRun script workers r → Legal workers r }
    ensures faithful { (script : Program Wish Reply A) (workers : ℕ) (r : List Entry) → OneThreadRun script workers r → Faithful script r }
    ensures complete { (script : Program Wish Reply A) (workers : ℕ) (r : List Entry) → OneThreadRun script workers r → Complete script r ⊎ Stuck script workers r }
{}

/// What a legal or faithful history once was is legal or faithful.
pub fn prefix_law<A>()
    ensures legal { (workers : ℕ) (p h : List Entry) → Once p h → Legal workers h → Legal workers p }
    ensures faithful { (script : Program Wish Reply A) (p h : List Entry) → Once p h → Faithful script h → Faithful script p }
{}

/// Whatever the works of tasks mean, a history of main alone in which no task was started is one of
/// many activities: legal, faithful, complete, and the one-thread run.
pub fn alone_law<A>()
    ensures legal { (workers : ℕ) (h : List Entry) → Legal workers h → many.Legal workers h }
    ensures faithful { (meaning : Work → Program Wish Reply Ended) (script : Program Wish Reply A) (h : List Entry) → many.StartsNone h → Faithful script h → many.Faithful meaning script h }
    ensures complete { (meaning : Work → Program Wish Reply Ended) (script : Program Wish Reply A) (h : List Entry) → many.StartsNone h → Complete script h → many.Complete meaning script h }
    ensures run { (meaning : Work → Program Wish Reply Ended) (script : Program Wish Reply A) (workers : ℕ) (h : List Entry) → many.StartsNone h → OneThreadRun script workers h → many.OneThreadRun meaning script workers h }
{}
