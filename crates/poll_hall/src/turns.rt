//! What one turn does to the state: a call, and the length of the book after it.
ghost use Rattle.std.specs.Prelude.{◌≡◌, [], MatchResult};
ghost use Rattle.hall_machine.specs.States.{Collects};
ghost use Rattle.poll_hall.specs.Says.{CollectSays};

use cool_base::DocId;
use hall_machine::{HallState, Labelled, MailBag, Owner};
use turn_lock::Booked;

/// `collect`, with the labels of what it took.
pub fn collect_turn<P: Drop, M: Labelled>(
    hall: &mut HallState<P, M>,
    who: u32,
    doc: DocId,
    bag: MailBag<M>,
) -> (Result<u32, Owner>, MailBag<M>)
    requires { bag ≡ [] }
    ensures ground { hall.new.ground_of ≡ hall.old.ground_of }
    ensures says { CollectSays M.tag who doc.0 hall.old.ground_of hall.old.book
        (result.0, result.1) hall.new.book }
    ensures values { MatchResult result.0
        (λ _. Collects doc.0 result.1 hall.old.opens hall.new.opens)
        (λ _. hall.new.opens ≡ hall.old.opens) }
{
    hall.is_reached();
    hall.collect(who, doc, bag)
}
