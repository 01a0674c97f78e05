//! Moves up to where nothing is left to do.
ghost use Rattle.std.specs.Prelude.{◌≡◌, ◌<◌, [], length, map, IfOk, IfErr, Err};
ghost use Rattle.std.specs.List.Sorted.{IsStrictlySortedBy};
ghost use Rattle.std.specs.Ordering.{nat_cmp};
ghost use Rattle.outside.specs.Causes.{HasCause};
ghost use Rattle.script_run.specs.Play.{Stopped};
ghost use Rattle.script_world.specs.House.{document_of, acknowledgements, IsHoused};
ghost use Rattle.script_world.specs.Moved.{Came, MadeFrom, AreSmall, left_of};
ghost use Rattle.script_world.specs.World.{Moves, IsAtRest};

use crate::acknowledging::acknowledge_all;
use crate::event::Waiting;
use crate::moves::{all_events, one_turn, works};
use crate::seats::Seats;
use broker_core::Broker;
use document_laws::{moves_keep, quiet_is_right};
use kit_trait::Kit;
use outside::Sink;
use script_lines::Stop;
use std::alloc::Global;
use std::collections::VecDeque;

/// Where the acknowledgements wait: poll turns up to the one that takes the last of them.
fn acknowledged<K: Kit, T: Sink>(
    alloc: Global,
    broker: Option<Broker<K>>,
    seats: &mut Seats,
    waiting: &mut VecDeque<Waiting>,
    sink: &mut T,
) -> Result<Option<Broker<K>>, Stop>
    requires housed { IsHoused K.rules K.cut (record { seats = seats.old; document = document_of broker }) }
    requires are { waiting.old.items ≡ acknowledgements (record { seats = seats.old; document = document_of broker }) }
    requires some { 0 < length waiting.old.items }
    requires small { AreSmall (document_of broker) seats.old.views }
    requires sorted { IsStrictlySortedBy nat_cmp (map (λ seat. seat.0) seats.old.views) }
    ensures ok { IfOk result (λ new. Came (Moves K.rules K.cut) (record { waiting = waiting.old.items; house = record { seats = seats.old; document = document_of broker } }) (record { waiting = []; house = record { seats = seats.new; document = document_of new } }) (T.written sink.old) (T.written sink.new)) }
    ensures none { IfOk result (λ _. waiting.new.items ≡ []) }
    ensures housed_still { IfOk result (λ new. IsHoused K.rules K.cut (record { seats = seats.new; document = document_of new })) }
    ensures less { IfOk result (λ new. left_of K.rules (document_of new) < left_of K.rules (document_of broker)) }
    ensures stop { IfErr result (λ stop. Stopped stop (MadeFrom (Moves K.rules K.cut) (record { waiting = waiting.old.items; house = record { seats = seats.old; document = document_of broker } })) (T.written sink.old) (T.written sink.new)) }
    ensures cause { HasCause (T.faults sink.old) (T.faults sink.new) (result ≡ Err Stop.Sink) }
{
    moves_keep::<K>();
    let (next, _) = one_turn(alloc, broker, seats, waiting, sink)?;
    all_events(alloc, next, seats, waiting, sink)
}

/// Where no event waits: turns up to the last that works, then the acknowledgements and what they bring, and
/// anew while there were some.
pub(crate) fn comes_to_rest<K: Kit, T: Sink>(
    alloc: Global,
    broker: Option<Broker<K>>,
    seats: &mut Seats,
    waiting: &mut VecDeque<Waiting>,
    sink: &mut T,
) -> Result<Option<Broker<K>>, Stop>
    requires housed { IsHoused K.rules K.cut (record { seats = seats.old; document = document_of broker }) }
    requires none { waiting.old.items ≡ [] }
    ensures ok { IfOk result (λ new. Came (Moves K.rules K.cut) (record { waiting = []; house = record { seats = seats.old; document = document_of broker } }) (record { waiting = []; house = record { seats = seats.new; document = document_of new } }) (T.written sink.old) (T.written sink.new)) }
    ensures none_still { IfOk result (λ _. waiting.new.items ≡ []) }
    ensures housed_still { IfOk result (λ new. IsHoused K.rules K.cut (record { seats = seats.new; document = document_of new })) }
    ensures rests { IfOk result (λ new. IsAtRest K.rules (document_of new)) }
    ensures stop { IfErr result (λ stop. Stopped stop (MadeFrom (Moves K.rules K.cut) (record { waiting = []; house = record { seats = seats.old; document = document_of broker } })) (T.written sink.old) (T.written sink.new)) }
    ensures cause { HasCause (T.faults sink.old) (T.faults sink.new) (result ≡ Err Stop.Sink) }
{
    quiet_is_right::<K>();
    let mut broker = broker;
    'passes: loop {
        let still = works(alloc, broker, seats, waiting, sink)?;
        acknowledge_all(alloc, &still, seats, waiting)?;
        if waiting.is_empty() {
            return Ok(still);
        }
        broker = acknowledged(alloc, still, seats, waiting, sink)?;
    }
}
