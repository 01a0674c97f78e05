//! What a poll over many documents does, said from scratch: what it owes one document, its house of
//! documents and links, what one turn does and in which order, and the run of one document, taken
//! alone. It has definitions and laws of them; it runs nothing. Nothing here knows what a document
//! is: its steps are a relation.
//!
//! - `Ways`, `Event`, `Outs` (specs/Words): what a poll knows of a kind of document.
//! - `HeldDocument`, `HeldStep` (specs/Agenda): a held document with what is owed to it, its steps.
//! - `House`, `HouseStep` (specs/House): all that a poll holds, and what one event does to it.
//! - `Plan`, `Follows` (specs/Plans): what is done one after the other, as answers and state
//!   decide.
//! - `hears`, `loads` (specs/Lobby): what a link without a document is answered, and how it loads.
//! - `IsTurn`, `outcome`, `Polls` (specs/Turn): one turn, what it answers, and a run of turns.
//! - `Hears` (specs/Told): what the outside is told.
//! - `Carries` (specs/Carried): what a call did of a plan, all of it or a part.
//! - `Headline` (specs/Project): each document, taken alone.
#![tactic(auto)]

ghost use Rattle.std.specs.Prelude.{◌≡◌, ◌≢◌, ℕ, List, [], ◌++◌};
ghost use Rattle.net_traits.specs.Nets.{LinkEvent};
ghost use Rattle.poll_machine.specs.Words.{Ways, Moves};
ghost use Rattle.poll_machine.specs.Agenda.{HeldDocument, Here};
ghost use Rattle.poll_machine.specs.House.{House, Happens, HouseStep, SlotStep, slot_of};
ghost use Rattle.poll_machine.specs.Turn.{IsTurn, End, Polls};
ghost use Rattle.poll_machine.specs.Told.{Heard, Hears};
ghost use Rattle.poll_machine.specs.Project.{acts_of, moves_of, frames_of, frames_owed, frames_out};
ghost use Rattle.poll_machine.specs.Project.{HeldMove, Headline};
ghost use Rattle.poll_machine.specs.Runs.{Run, all_events};

/// A kind of document that a poll can hold, with its jobs, what painting them gives, and the links
/// of its net on their way from one net to another.
pub trait Polled {
    ghost Document: { Type 0 };

    ghost Job: { Type 0 };

    ghost Painted: { Type 0 };

    ghost Link: { Type 0 };

    /// What a poll knows of such a document.
    ghost ways: { Ways Document Job Painted };

    /// The events that wait for a link on its way.
    ghost carried: { Link → List LinkEvent };
}

/// One turn of a poll is a run of the house, step by step, whatever the outside answers.
pub fn turns_are_runs<M: Polled>()
    ensures { (old new : House M.Document M.Job M.Painted M.Link)
        (events : List (Happens M.Document M.Job M.Painted M.Link))
        → IsTurn M.ways old events new → Run (HouseStep M.ways) old events new }
{}

/// So is a run of turns, however it ends: the events of its turns in order, and then those of a
/// last turn that was idle, that failed or that was out of memory before its end.
pub fn polls_are_runs<M: Polled>()
    ensures { (old new : House M.Document M.Job M.Painted M.Link) (given : ℕ) (how : End)
        (turns : List (List (Happens M.Document M.Job M.Painted M.Link)))
        (rest : List (Happens M.Document M.Job M.Painted M.Link))
        → Polls M.ways given how old turns rest new
        → Run (HouseStep M.ways) old (all_events turns ++ rest) new }
{}

/// What is done to one document in a run of the house, taken alone, leads from what was held of it,
/// if anything, to what is held of it.
pub fn documents_run_alone<M: Polled>()
    ensures { (old new : House M.Document M.Job M.Painted M.Link)
        (events : List (Happens M.Document M.Job M.Painted M.Link)) (id : ℕ)
        → Run (HouseStep M.ways) old events new
        → Run (SlotStep M.ways) (slot_of id old.docs) (acts_of id events) (slot_of id new.docs) }
{}

/// What happens to a held document is a run of its machine, from its state to its state.
pub fn held_runs_are_segments<M: Polled>()
    ensures { (old new : HeldDocument M.Document M.Job M.Painted M.Link)
        (heres : List (ℕ × Here M.Job M.Painted M.Link))
        → Run (HeldMove M.ways) old heres new
        → Run (Moves M.ways) old.doc (moves_of heres) new.doc }
{}

/// From a state in which nothing is owed, the frames given to the views' links or skipped, and then
/// those still owed, are those that the document's events gave out, in order.
pub fn frames_in_order<M: Polled>()
    ensures { (old new : HeldDocument M.Document M.Job M.Painted M.Link)
        (heres : List (ℕ × Here M.Job M.Painted M.Link))
        → Run (HeldMove M.ways) old heres new → old.todo ≡ []
        → frames_of heres ++ frames_owed new.todo ≡ frames_out (moves_of heres) }
{}

/// The headline of a run of the house: each document, taken alone, and the outside as it was told.
pub fn headline<M: Polled>()
    ensures { (old new : House M.Document M.Job M.Painted M.Link)
        (events : List (Happens M.Document M.Job M.Painted M.Link))
        (before after : Heard M.Document M.Job M.Painted M.Link)
        → Run (HouseStep M.ways) old events new → Hears M.ways M.carried before events after
        → Headline M.ways M.carried old before events new after }
{}
