//! Laws of the document machine, for any kit: what follows from its definitions and from the laws
//! of kits alone, whatever broker runs it. Each is a function with an empty body whose contract is
//! the law.
#![tactic(auto)]

ghost use Rattle.std.specs.Prelude.{◌≡◌, ◌≢◌, ℕ, ◌+◌, ◌^◌, ◌≤◌, ◌<◌, ◌⊎◌, true, false, List, [], ◌∷◌, ◌++◌, length, nat_eq, ◌&&◌, Option, Some, Result, Ok};
ghost use Rattle.cool_message.specs.Reading.{reading};
ghost use Rattle.cool_message.specs.Writing.{written};
ghost use Rattle.cool_message.specs.declared.message.ClientMessage.TheVariants.{TileProcessed};
ghost use Rattle.std.specs.List.{list_any, AllByRecursion};
ghost use Rattle.document_laws.specs.AtOnce.{acknowledges, all_answered, numbers, IsAcknowledged};
ghost use Rattle.document_laws.specs.Saved.{ArePut, FollowsItsSave, IsOfRun, IsTrue};
ghost use Rattle.document_laws.specs.Turns.{IsUnderWay, TurnWorks};
ghost use Rattle.document_laws.specs.Tiles.{IsShown, IsNoStepBack, AreNumbered, AreDelivered, StepsWith, versions_to};
ghost use Rattle.document_machine.specs.Due.{touched, is_due, has_room, keys};
ghost use Rattle.document_machine.specs.Event.{Event as Happening, Painted, PutAnswered};
ghost use Rattle.document_machine.specs.Goes.{DoesNext, Moves};
ghost use Rattle.document_machine.specs.Held.{Held, opening_held};
ghost use Rattle.document_machine.specs.Kept.{IsHeld, IsKept, AreApart};
ghost use Rattle.document_machine.specs.Next.{Rest, can_serve, next_pair, none_kept, pick};
ghost use Rattle.document_machine.specs.Outputs.{nothing};
ghost use Rattle.document_machine.specs.Quiet.{IsQuiet, is_quiet, IsRight, AllRight};
ghost use Rattle.document_machine.specs.Rank.{IsLower, due_pairs, jobs_due, left_to_do, rank};
ghost use Rattle.document_machine.specs.Run.{Run, Segment};
ghost use Rattle.document_machine.specs.Saves.{Serves, receipt_of};
ghost use Rattle.document_machine.specs.State.{View, Job, Document, find_job, find_view, opening};
ghost use Rattle.document_machine.specs.Step.{Applies, Cuts, Rests, Says, Sends, Step, Works};
ghost use Rattle.document_machine.specs.declared.limits.TheConstants.{MOST_JOBS};
ghost use Rattle.document_machine.specs.declared.outs.Outs.{Outs as Given};
ghost use Rattle.document_machine.specs.declared.outs.Turned.{Turned as TurnAnswer};
ghost use Rattle.kit_trait.specs.declared.jobs.PaintJob.{PaintJob as Task};
ghost use Rattle.kit_trait.specs.Rules.{doc, shown};
ghost use Rattle.kit_trait.specs.declared.values.Input.{Input as Typed};
ghost use Rattle.outside.specs.declared.errands.Receipt.{Receipt as Paper};
ghost use Rattle.outside.specs.declared.faults.StoreFault.{StoreFault as Fault};
ghost use Rattle.save_core.specs.Saving.{answered_put};
ghost use Rattle.save_core.specs.declared.values.Put.{Put as Under};
ghost use Rattle.tile_key.specs.Places.{Place};

use kit_trait::Kit;

/// In a quiet document that a broker keeps every view has on its screen each key that it sees or
/// asked for, in a version that looks like the document after all accepted inputs, point by point.
/// Of what a broker keeps this wants that zooms are zooms, so that each tile has a point, and that
/// the versions on screens are of inputs that are applied.
pub fn quiet_is_right<K: Kit>()
    ensures { (d : Document K.Scene) → IsKept K.rules K.cut d → IsQuiet K.rules d
        → AllRight K.rules d }
{}

/// A place looks the same after the first `n` inputs as after the first `version` of them, where no
/// input between damaged a rectangle that meets it. The place is any of at least one twip each way,
/// as every key and every area is.
pub fn untouched_is_unchanged<K: Kit>()
    ensures { (base : List ℕ) (journal : List Typed) (version n : ℕ) (place : Place)
        → 1 ≤ place.tilewidth → 1 ≤ place.tileheight → version ≤ n
        → touched K.rules base journal version place n ≡ false
        → shown K.rules (doc K.rules base journal n) place
        ≡ shown K.rules (doc K.rules base journal version) place }
{}

/// The test of a quiet document passes exactly where the document is quiet.
pub fn quiet_test<K: Kit>()
    ensures passed { (d : Document K.Scene) → is_quiet K.rules d ≡ true → IsQuiet K.rules d }
    ensures passes { (d : Document K.Scene) → IsQuiet K.rules d → is_quiet K.rules d ≡ true }
{}

/// Each tile shows the document after as many inputs as its version says, in one step (`step`),
/// where that many are applied, and in a run (`run`), where that many are accepted at its end.
pub fn tiles_show_prefixes<K: Kit>()
    ensures step { (old new : Document K.Scene) (event : Happening K.Scene) (outs : Given K.Scene)
        → IsKept K.rules K.cut old → Step K.rules K.cut old event outs new
        → AllByRecursion (IsShown K.rules old.base old.journal old.applied) outs.frames }
    ensures run { (events : List (Happening K.Scene)) (old new : Document K.Scene)
        (outs : Given K.Scene)
        → IsKept K.rules K.cut old → Segment K.rules K.cut old events outs new
        → AllByRecursion (IsShown K.rules new.base new.journal (length new.journal)) outs.frames }
{}

/// No event takes a screen a step back: what a view was sent of a key is later no older, as long as
/// its screen has the key.
pub fn screens_never_step_back<K: Kit>()
    ensures { (old new : Document K.Scene) (event : Happening K.Scene) (outs : Given K.Scene)
        → IsKept K.rules K.cut old → Step K.rules K.cut old event outs new
        → (id : ℕ) (before later : View) → find_view old.views id ≡ Some before
        → find_view new.views id ≡ Some later → IsNoStepBack before later }
{}

/// Of the tiles of a key that a step gives to a view none is a step back on the screen that the
/// view had, and each is what its screen then has (`step`). Of two tiles of a key that a view was
/// given in a run, and between which its screen had the key, the later has no lower version
/// (`run`).
pub fn frames_never_step_back<K: Kit>()
    ensures step { (old new : Document K.Scene) (event : Happening K.Scene) (outs : Given K.Scene)
        → IsKept K.rules K.cut old → Step K.rules K.cut old event outs new
        → (id : ℕ) (key : Place) → (versions_to id key outs.frames ≡ [])
        ⊎ AreDelivered K.rules old new id key (versions_to id key outs.frames) }
    ensures run { (old mid late new : Document K.Scene) (first last : Happening K.Scene)
        (between : List (Happening K.Scene)) (outs held later : Given K.Scene) (id : ℕ)
        (key : Place)
        → IsKept K.rules K.cut old → StepsWith K.rules K.cut id key old first outs mid
        → Run (StepsWith K.rules K.cut id key) mid between held late
        → Step K.rules K.cut late last later new
        → AllByRecursion (λ n. AllByRecursion (λ m. n ≤ m) (versions_to id key later.frames))
        (versions_to id key outs.frames) }
{}

/// The tiles that a step gives to a view that was there and stays have the view's next numbers, one
/// after the other, whatever other views get. A view's first number is 1, so its tiles are numbered
/// from 1 on without a gap.
pub fn tiles_are_numbered<K: Kit>()
    ensures { (old new : Document K.Scene) (event : Happening K.Scene) (outs : Given K.Scene)
        → IsKept K.rules K.cut old → Step K.rules K.cut old event outs new
        → (id : ℕ) (before later : View) → find_view old.views id ≡ Some before
        → find_view new.views id ≡ Some later → AreNumbered id before later outs.frames }
{}

/// The accepted inputs of a run begin with those that there were, and the file stays.
pub fn inputs_go_on<K: Kit>()
    ensures { (events : List (Happening K.Scene)) (old new : Document K.Scene)
        (outs : Given K.Scene)
        → Segment K.rules K.cut old events outs new
        → (new.base ≡ old.base) × (more : List Typed) × (new.journal ≡ old.journal ++ more) }
{}

/// In a document that a broker keeps each pair of a view and a key that it sees or asked for is
/// right, or it is due, or an input is not applied yet.
pub fn right_or_due<K: Kit>()
    ensures { (d : Document K.Scene) → IsKept K.rules K.cut d
        → AllByRecursion (λ view. AllByRecursion (λ key. IsRight K.rules d view key
        ⊎ ((is_due K.rules d view key ≡ true) ⊎ (d.applied
        < length d.journal))) (keys K.rules d view)) d.views }
{}

/// Serving the ready saves leaves less to do.
pub fn served_lowers<K: Kit>()
    ensures { (old new : Document K.Scene) (outs : Given K.Scene) → Serves K.rules old outs new
        → left_to_do K.rules new < left_to_do K.rules old }
{}

/// Applying an input leaves less to do, where no more jobs are out than may be, and the same jobs.
pub fn applied_lowers<K: Kit>()
    ensures { (old new : Document K.Scene) (outs : Given K.Scene) → Applies K.rules old outs new
        → length old.jobs ≤ MOST_JOBS
        → (new.jobs ≡ old.jobs) × (left_to_do K.rules new < left_to_do K.rules old) }
{}

/// Sending a tile that is there already leaves less to do.
pub fn sent_lowers<K: Kit>()
    ensures { (old new : Document K.Scene) (outs : Given K.Scene) → Sends K.rules old outs new
        → IsKept K.rules K.cut old → left_to_do K.rules new < left_to_do K.rules old }
{}

/// Cutting a job leaves less to do, since it is wanted.
pub fn cut_lowers<K: Kit>()
    ensures { (old new : Document K.Scene) (outs : Given K.Scene) → Cuts K.rules K.cut old outs new
        → IsKept K.rules K.cut old → left_to_do K.rules new < left_to_do K.rules old }
{}

/// So each work of a turn leaves less to do, whichever it is.
pub fn works_leave_less<K: Kit>()
    ensures { (old new : Document K.Scene) (outs : Given K.Scene) → Works K.rules K.cut old outs new
        → IsKept K.rules K.cut old → left_to_do K.rules new < left_to_do K.rules old }
{}

/// A painted result of a job that is out leaves less to do, also where it is of fewer inputs than
/// are applied and where no view takes it.
pub fn painted_lowers<K: Kit>()
    ensures { (old new : Document K.Scene) (ticket : ℕ) (job : Job K.Scene) (outs : Given K.Scene)
        → find_job old.jobs ticket ≡ Some job → IsKept K.rules K.cut old
        → Step K.rules K.cut old (Painted ticket job.scene) outs new
        → left_to_do K.rules new < left_to_do K.rules old }
{}

/// The answer to the put that is under way leaves less to do, whether it is a receipt or a fault.
pub fn put_answered_lowers<K: Kit>()
    ensures { (old new : Document K.Scene) (ticket : ℕ) (result : Result Paper Fault) (put : Under)
        (outs : Given K.Scene)
        → answered_put ticket (receipt_of result) old.saving.put ≡ Some put
        → Step K.rules K.cut old (PutAnswered ticket result) outs new
        → left_to_do K.rules new < left_to_do K.rules old }
{}

/// A job that is cut and painted directly behind it leaves less to do, and the jobs that were out.
pub fn cut_and_painted_lowers<K: Kit>()
    ensures { (old mid new : Document K.Scene) (outs later : Given K.Scene) (job : Task K.Scene)
        → Cuts K.rules K.cut old outs mid → IsKept K.rules K.cut old
        → outs.jobs ≡ job ∷ [] → Step K.rules K.cut mid (Painted job.ticket.0 job.scene) later new
        → (new.jobs ≡ old.jobs) × (left_to_do K.rules new < left_to_do K.rules old) }
{}

/// A turn that does a work, with each job that it gives out painted directly behind it and its put
/// answered by a receipt of its content, leaves less to do, the jobs that were out, and no other put
/// under way. So turns whose jobs are painted and whose puts are answered at once come to an end.
pub fn at_once_lowers<K: Kit>()
    ensures { (old mid new : Document K.Scene) (outs later : Given K.Scene)
        → Works K.rules K.cut old outs mid → IsKept K.rules K.cut old
        → Segment K.rules K.cut mid (all_answered outs) later new
        → (new.jobs ≡ old.jobs) × (new.saving.put ≡ old.saving.put)
        × (left_to_do K.rules new < left_to_do K.rules old) }
{}

/// Acknowledging the numbers of a window that isn't empty makes it empty and leaves less to do.
pub fn acknowledged_lowers<K: Kit>()
    ensures { (d : Document K.Scene) (id : ℕ) (view : View) → find_view d.views id ≡ Some view
        → view.window ≢ []
        → (find_view (acknowledges d id (numbers view)).views id
        ≡ Some (record view { window = [] }))
        × (left_to_do K.rules (acknowledges d id (numbers view)) < left_to_do K.rules d) }
{}

/// Acknowledging never leaves more to do, whatever the numbers are.
pub fn acknowledging_adds_nothing<K: Kit>()
    ensures { (d : Document K.Scene) (id : ℕ) (wids : List ℕ)
        → left_to_do K.rules (acknowledges d id wids) ≤ left_to_do K.rules d }
{}

/// Acknowledging changes no other view, whatever the numbers are.
pub fn others_stay<K: Kit>()
    ensures { (d : Document K.Scene) (id other : ℕ) (wids : List ℕ) → other ≢ id
        → find_view (acknowledges d id wids).views other ≡ find_view d.views other }
{}

/// A text that is a `tileprocessed` acknowledges just its numbers, and nothing is sent for it.
pub fn said_acknowledges<K: Kit>()
    ensures { (d new : Document K.Scene) (id : ℕ) (wids text : List ℕ) (outs : Given K.Scene)
        → reading text ≡ Ok (TileProcessed wids) → Says K.rules d id text outs new
        → (outs ≡ nothing) × (new ≡ acknowledges d id wids) }
{}

/// A view that says the text that is written of all its numbers has acknowledged all that it was
/// sent. The numbers are those of a broker, below 2^64; a window that a broker keeps has at most 64
/// of them, so they are one message.
pub fn written_lowers<K: Kit>()
    ensures { (d new : Document K.Scene) (id : ℕ) (view : View) (outs : Given K.Scene)
        → IsKept K.rules K.cut d → find_view d.views id ≡ Some view → view.window ≢ []
        → AllByRecursion (λ n. n < 2 ^ 64) (numbers view)
        → Says K.rules d id (written (TileProcessed (numbers view))) outs new
        → IsAcknowledged K.rules d id view outs new }
{}

/// Whatever is kept, there is nothing to do where no work is next and no more inputs are applied
/// than accepted (`idle`), and with nothing kept no work is next where there is nothing to do
/// (`rests`). A pair that is next can be served, and is one of a view with room that is due the key
/// (`next`). So a broker that does the work that is next leaves none undone.
pub fn idle_exactly<K: Kit>()
    ensures idle { (kept : Place → Option ℕ) (d : Document K.Scene)
        → d.applied ≤ length d.journal → pick K.rules kept d ≡ Rest → Rests K.rules d }
    ensures rests { (d : Document K.Scene) → Rests K.rules d → pick K.rules none_kept d ≡ Rest }
    ensures next { (kept : Place → Option ℕ) (d : Document K.Scene) (id : ℕ) (key : Place)
        → next_pair K.rules kept d ≡ Some (id, key)
        → (can_serve kept d.jobs key ≡ true) × (list_any
        (λ view. nat_eq view.id id && (has_room view && is_due K.rules d view key)) d.views
        ≡ true) }
{}

/// The work that is next can be done: each document that a broker keeps has a turn that does it.
pub fn next_is_done<K: Kit>()
    ensures { (held : Held K.Scene) → IsHeld K.rules K.cut held
        → (turned : TurnAnswer K.Scene) × (new : Held K.Scene)
        × DoesNext K.rules K.cut held turned new }
{}

/// Whatever is kept, each due pair has its key in a job out, or its view has no room, or 64 jobs
/// are out, or a work is next.
pub fn due_is_under_way<K: Kit>()
    ensures { (kept : Place → Option ℕ) (d : Document K.Scene)
        → AllByRecursion (λ view. AllByRecursion (λ key. is_due K.rules d view key ≡ true
        → IsUnderWay K.rules kept d view key) (keys K.rules d view)) d.views }
{}

/// Each work of a turn lowers the rank.
pub fn work_lowers<K: Kit>()
    ensures { (old new : Document K.Scene) (outs : Given K.Scene) → Works K.rules K.cut old outs new
        → IsKept K.rules K.cut old → IsLower K.rules new old }
{}

/// Where no key is in two jobs out, no more jobs have a due pair than there are due pairs. So the
/// rank is never below nothing.
pub fn rank_counts<K: Kit>()
    ensures { (d : Document K.Scene) → AreApart d.jobs → jobs_due K.rules d ≤ due_pairs K.rules d }
{}

/// At most as many turns in a row do a work as the rank of the document says.
pub fn turns_end<K: Kit>()
    ensures { (turns : List (Happening K.Scene)) (old new : Document K.Scene) (outs : Given K.Scene)
        → Run (TurnWorks K.rules K.cut) old turns outs new → IsKept K.rules K.cut old
        → length turns + rank K.rules new ≤ rank K.rules old }
{}

/// A document as it is loaded keeps all that is said of documents (`IsKept`), and so does every
/// step.
pub fn steps_keep<K: Kit>()
    ensures opening { (file base : List ℕ) → K.rules.accepts base ≡ true
        → IsKept K.rules K.cut (opening {S = K.Scene} file base) }
    ensures step { (old new : Document K.Scene) (event : Happening K.Scene) (outs : Given K.Scene)
        → Step K.rules K.cut old event outs new → IsKept K.rules K.cut old
        → IsKept K.rules K.cut new }
    ensures run { (events : List (Happening K.Scene)) (old new : Document K.Scene)
        (outs : Given K.Scene)
        → Segment K.rules K.cut old events outs new → IsKept K.rules K.cut old
        → IsKept K.rules K.cut new }
{}

/// A document as it is loaded, of which no tile is kept, has all that holds of one that a broker
/// keeps with its tiles (`IsHeld`), and so has every move.
pub fn moves_keep<K: Kit>()
    ensures opening { (file base : List ℕ) → K.rules.accepts base ≡ true
        → IsHeld K.rules K.cut (opening_held {S = K.Scene} file base) }
    ensures step { (old new : Held K.Scene) (event : Happening K.Scene) (outs : Given K.Scene)
        → Moves K.rules K.cut old event outs new → IsHeld K.rules K.cut old
        → IsHeld K.rules K.cut new }
    ensures run { (events : List (Happening K.Scene)) (old new : Held K.Scene)
        (outs : Given K.Scene)
        → Run (Moves K.rules K.cut) old events outs new → IsHeld K.rules K.cut old
        → IsHeld K.rules K.cut new }
{}

/// Each view that a step tells that its save is done had one that waited: no more inputs were
/// accepted before it than the number in the frame says, that many are applied, and a content of
/// that many is stored. Where the frame says `put`, the step is a receipt of that very content in
/// the document's file (`step`). In a run that began with a loaded document each save that waits
/// was said by its view, where as many inputs were accepted as its mark says (`waiting`). And each
/// view that is told behind such a run that its save is done said one in it, with no more inputs
/// accepted than the number says, and by then a content of that many was stored: the loaded file,
/// or one that a receipt came for (`run`).
pub fn saves_are_stored<K: Kit>()
    ensures step { (old new : Document K.Scene) (event : Happening K.Scene) (outs : Given K.Scene)
        → IsKept K.rules K.cut old → Step K.rules K.cut old event outs new
        → AllByRecursion (IsTrue K.rules old event new) outs.frames }
    ensures waiting { (file base : List ℕ) (events : List (Happening K.Scene))
        (outs : Given K.Scene) (d : Document K.Scene)
        → Segment K.rules K.cut (opening file base) events outs d
        → AllByRecursion (IsOfRun K.rules K.cut (opening file base) events d) d.saving.saves }
    ensures run { (file base : List ℕ) (events : List (Happening K.Scene))
        (given : Given K.Scene) (d : Document K.Scene)
        (event : Happening K.Scene) (outs : Given K.Scene) (new : Document K.Scene)
        → K.rules.accepts base ≡ true
        → Segment K.rules K.cut (opening file base) events given d
        → Step K.rules K.cut d event outs new
        → AllByRecursion (FollowsItsSave K.rules K.cut (opening file base) events d event)
        outs.frames }
{}

/// In a run that began with a loaded document each stored content but the loaded file was put: a
/// receipt of it came, and it is the document's after as many inputs as its number says.
pub fn contents_were_put<K: Kit>()
    ensures { (file base : List ℕ) (events : List (Happening K.Scene)) (outs : Given K.Scene)
        (d : Document K.Scene) → K.rules.accepts base ≡ true
        → Segment K.rules K.cut (opening file base) events outs d
        → ArePut K.rules events d }
{}

/// Whatever events come to a loaded document: whenever it is quiet, each key that a view sees is on
/// its screen in a version that looks like the document after all accepted inputs.
pub fn quiet_runs_are_right<K: Kit>()
    ensures { (file base : List ℕ) (events : List (Happening K.Scene)) (outs : Given K.Scene)
        (d : Document K.Scene)
        → K.rules.accepts base ≡ true → Segment K.rules K.cut (opening file base) events outs d
        → IsQuiet K.rules d → AllRight K.rules d }
{}
