//! Laws of what a lobby does.
ghost use Rattle.std.specs.Prelude.{ℕ, List};
ghost use Rattle.cool_message.specs.Reading.{reading};
ghost use Rattle.poll_machine.specs.House.{House, Happens, HouseStep};
ghost use Rattle.poll_machine.specs.Lobby.{hears};
ghost use Rattle.poll_machine.specs.Plans.{Follows};
ghost use Rattle.poll_lobby.specs.Acts.{act_for, plan_of};

use poll_machine::Polled;

/// Who does what comes of a link's message carries out what the poll does when it hears it.
pub fn lobby_acts_carry_out<M: Polled>()
    ensures { (link : ℕ) (text : List ℕ)
        (old new : House M.Document M.Job M.Painted M.Link)
        (events : List (Happens M.Document M.Job M.Painted M.Link))
        → Follows (HouseStep M.ways) (plan_of M.ways link (act_for text (reading text)))
        old events new
        → Follows (HouseStep M.ways) (hears M.ways link text (reading text)) old events new }
{}
