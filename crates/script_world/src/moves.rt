//! Poll turns, one after the other, with what they write.
ghost use Rattle.std.specs.Prelude.{◌≡◌, ◌≤◌, [], ◌∷◌, List, IfOk, IfErr, Err};
ghost use Rattle.outside.specs.Causes.{HasCause};
ghost use Rattle.script_run.specs.Play.{Stopped};
ghost use Rattle.script_world.specs.House.{document_of, IsHoused, PollTurn};
ghost use Rattle.script_world.specs.Moved.{Came, MadeFrom, TurnedTo, TurnWritten, AllAcknowledge, left_of};
ghost use Rattle.script_world.specs.World.{Moves, RestsNow};

use crate::event::Waiting;
use crate::seats::Seats;
use crate::takes::{Step, takes};
use crate::turning::{Turn, turns};
use broker_core::Broker;
use cool_base::Memory;
use document_laws::moves_keep;
use kit_trait::Kit;
use outside::Sink;
use script_lines::{Stop, write_whole};
use std::alloc::Global;
use std::collections::VecDeque;

/// One event, and after it one turn of the document, if there is one.
fn event_turn<K: Kit>(
    alloc: Global,
    broker: Option<Broker<K>>,
    seats: &mut Seats,
    event: Waiting,
) -> Result<Turn<K>, Memory>
    requires { IsHoused K.rules K.cut (record { seats = seats.old; document = document_of broker }) }
    ensures { IfOk result (λ turn. (rest : List Waiting) → PollTurn K.rules K.cut (event ∷ rest) (record { seats = seats.old; document = document_of broker }) turn.bytes.items turn.worked rest (record { seats = seats.new; document = document_of turn.broker })) }
{
    moves_keep::<K>();
    let taken = takes(alloc, broker, seats, event)?;
    let Step { broker, mut bytes } = taken;
    let turned = turns(alloc, broker, seats)?;
    let Turn {
        broker,
        bytes: later,
        worked: _,
    } = turned;
    bytes.extend_from_slice(&later)?;
    Ok(Turn {
        broker,
        bytes,
        worked: true,
    })
}

/// One poll turn: the first event that waits, if one does, and one turn of the document.
fn poll_turn<K: Kit>(
    alloc: Global,
    broker: Option<Broker<K>>,
    seats: &mut Seats,
    waiting: &mut VecDeque<Waiting>,
) -> Result<Turn<K>, Memory>
    requires { IsHoused K.rules K.cut (record { seats = seats.old; document = document_of broker }) }
    ensures { IfOk result (λ turn. PollTurn K.rules K.cut waiting.old.items (record { seats = seats.old; document = document_of broker }) turn.bytes.items turn.worked waiting.new.items (record { seats = seats.new; document = document_of turn.broker })) }
{
    match waiting.pop_front() {
        Some(event) => event_turn(alloc, broker, seats, event),
        None => turns(alloc, broker, seats),
    }
}

/// One poll turn, and its records.
pub(crate) fn one_turn<K: Kit, T: Sink>(
    alloc: Global,
    broker: Option<Broker<K>>,
    seats: &mut Seats,
    waiting: &mut VecDeque<Waiting>,
    sink: &mut T,
) -> Result<(Option<Broker<K>>, bool), Stop>
    requires { IsHoused K.rules K.cut (record { seats = seats.old; document = document_of broker }) }
    ensures ok { IfOk result (λ new. TurnWritten K.rules K.cut waiting.old.items (record { seats = seats.old; document = document_of broker }) new.1 waiting.new.items (record { seats = seats.new; document = document_of new.0 }) (T.written sink.old) (T.written sink.new)) }
    ensures housed { IfOk result (λ new. IsHoused K.rules K.cut (record { seats = seats.new; document = document_of new.0 })) }
    ensures stop { IfErr result (λ stop. Stopped stop (MadeFrom (Moves K.rules K.cut) (record { waiting = waiting.old.items; house = record { seats = seats.old; document = document_of broker } })) (T.written sink.old) (T.written sink.new)) }
    ensures cause { HasCause (T.faults sink.old) (T.faults sink.new) (result ≡ Err Stop.Sink) }
{
    moves_keep::<K>();
    let turned = poll_turn(alloc, broker, seats, waiting)?;
    let Turn {
        broker,
        bytes,
        worked,
    } = turned;
    write_whole(sink, &bytes)?;
    Ok((broker, worked))
}

/// Poll turns up to the one that takes the last event.
pub(crate) fn all_events<K: Kit, T: Sink>(
    alloc: Global,
    broker: Option<Broker<K>>,
    seats: &mut Seats,
    waiting: &mut VecDeque<Waiting>,
    sink: &mut T,
) -> Result<Option<Broker<K>>, Stop>
    requires { IsHoused K.rules K.cut (record { seats = seats.old; document = document_of broker }) }
    ensures ok { IfOk result (λ new. Came (Moves K.rules K.cut) (record { waiting = waiting.old.items; house = record { seats = seats.old; document = document_of broker } }) (record { waiting = []; house = record { seats = seats.new; document = document_of new } }) (T.written sink.old) (T.written sink.new)) }
    ensures none { IfOk result (λ _. waiting.new.items ≡ []) }
    ensures less { IfOk result (λ new. AllAcknowledge waiting.old.items → left_of K.rules (document_of new) ≤ left_of K.rules (document_of broker)) }
    ensures housed { IfOk result (λ new. IsHoused K.rules K.cut (record { seats = seats.new; document = document_of new })) }
    ensures stop { IfErr result (λ stop. Stopped stop (MadeFrom (Moves K.rules K.cut) (record { waiting = waiting.old.items; house = record { seats = seats.old; document = document_of broker } })) (T.written sink.old) (T.written sink.new)) }
    ensures cause { HasCause (T.faults sink.old) (T.faults sink.new) (result ≡ Err Stop.Sink) }
{
    moves_keep::<K>();
    let mut broker = broker;
    'events: while !waiting.is_empty() {
        let (next, _) = one_turn(alloc, broker, seats, waiting, sink)?;
        broker = next;
    }
    Ok(broker)
}

/// Poll turns where no event waits, up to the last that works.
pub(crate) fn works<K: Kit, T: Sink>(
    alloc: Global,
    broker: Option<Broker<K>>,
    seats: &mut Seats,
    waiting: &mut VecDeque<Waiting>,
    sink: &mut T,
) -> Result<Option<Broker<K>>, Stop>
    requires housed { IsHoused K.rules K.cut (record { seats = seats.old; document = document_of broker }) }
    requires none { waiting.old.items ≡ [] }
    ensures ok { IfOk result (λ new. Came (Moves K.rules K.cut) (record { waiting = []; house = record { seats = seats.old; document = document_of broker } }) (record { waiting = []; house = record { seats = seats.new; document = document_of new } }) (T.written sink.old) (T.written sink.new)) }
    ensures none_still { IfOk result (λ _. waiting.new.items ≡ []) }
    ensures housed_still { IfOk result (λ new. IsHoused K.rules K.cut (record { seats = seats.new; document = document_of new })) }
    ensures rests { IfOk result (λ new. RestsNow K.rules (document_of new)) }
    ensures less { IfOk result (λ new. left_of K.rules (document_of new) ≤ left_of K.rules (document_of broker)) }
    ensures stop { IfErr result (λ stop. Stopped stop (MadeFrom (Moves K.rules K.cut) (record { waiting = []; house = record { seats = seats.old; document = document_of broker } })) (T.written sink.old) (T.written sink.new)) }
    ensures cause { HasCause (T.faults sink.old) (T.faults sink.new) (result ≡ Err Stop.Sink) }
{
    let mut broker = broker;
    let mut busy = true;
    'turns: while busy {
        let (next, worked) = one_turn(alloc, broker, seats, waiting, sink)?;
        broker = next;
        busy = worked;
    }
    Ok(broker)
}

/// So many poll turns, or fewer up to one that would do nothing.
pub(crate) fn turns_up_to<K: Kit, T: Sink>(
    alloc: Global,
    broker: Option<Broker<K>>,
    seats: &mut Seats,
    waiting: &mut VecDeque<Waiting>,
    sink: &mut T,
    count: u32,
) -> Result<Option<Broker<K>>, Stop>
    requires { IsHoused K.rules K.cut (record { seats = seats.old; document = document_of broker }) }
    ensures ok { IfOk result (λ new. TurnedTo K.rules K.cut count (record { waiting = waiting.old.items; house = record { seats = seats.old; document = document_of broker } }) (record { waiting = waiting.new.items; house = record { seats = seats.new; document = document_of new } }) (T.written sink.old) (T.written sink.new)) }
    ensures housed { IfOk result (λ new. IsHoused K.rules K.cut (record { seats = seats.new; document = document_of new })) }
    ensures stop { IfErr result (λ stop. Stopped stop (MadeFrom (Moves K.rules K.cut) (record { waiting = waiting.old.items; house = record { seats = seats.old; document = document_of broker } })) (T.written sink.old) (T.written sink.new)) }
    ensures cause { HasCause (T.faults sink.old) (T.faults sink.new) (result ≡ Err Stop.Sink) }
{
    let mut broker = broker;
    'turns: for made in 0..count {
        let (next, worked) = one_turn(alloc, broker, seats, waiting, sink)?;
        broker = next;
        if !worked {
            return Ok(broker);
        }
    }
    Ok(broker)
}
