//! One event, as the records that taking it writes.
ghost use Rattle.std.specs.Prelude.{◌≡◌, IfOk};
ghost use Rattle.std.specs.Option.{option_map};
ghost use Rattle.script_world.specs.House.{document_of, seated_at, SaysAs, LeavesAs, TakesOne};
ghost use Rattle.script_world.specs.Seats.{view_of};
ghost use Rattle.script_world.specs.Taken.{LeavesDocument};

use crate::event::Waiting;
use crate::joining::loads;
use crate::lobby::lobby_record;
use crate::seats::{Seats, records};
use broker_core::Broker;
use cool_base::{Memory, ViewId};
use kit_trait::Kit;
use std::alloc::Global;

/// A document, if there is one, and the records that a step wrote.
#[derive(Drop)]
pub(crate) struct Step<K: Kit> {
    pub(crate) broker: Option<Broker<K>>,
    pub(crate) bytes: Vec<u8>,
}

/// The id of the view that the link is, where the document has it.
fn live_view<K: Kit>(broker: &Broker<K>, seats: &Seats, link: u32) -> Option<u32>
    ensures { result ≡ option_map (λ seat. seat.1) (seated_at broker.now (view_of seats.now link)) }
{
    let view = seats.view_of(link)?;
    if broker.is_live(ViewId(view)) {
        Some(view)
    } else {
        None
    }
}

/// A message, where there is a document.
fn says_to<K: Kit>(
    alloc: Global,
    mut broker: Broker<K>,
    seats: &Seats,
    link: u32,
    text: &[u8],
) -> Result<Step<K>, Memory>
    ensures { IfOk result (λ step. SaysAs K.rules K.cut (record { seats = seats.now; document = broker }) link text.now (seated_at broker (view_of seats.now link)) step.bytes.items (record { seats = seats.now; document = document_of step.broker })) }
{
    let Some(view) = live_view(&broker, seats, link) else {
        let bytes = lobby_record(alloc, seats, link, text)?;
        return Ok(Step {
            broker: Some(broker),
            bytes,
        });
    };
    let outs = broker.message(ViewId(view), text)?;
    let bytes = records(alloc, seats, outs.frames.get())?;
    Ok(Step {
        broker: Some(broker),
        bytes,
    })
}

/// A message.
fn says<K: Kit>(
    alloc: Global,
    broker: Option<Broker<K>>,
    seats: &Seats,
    link: u32,
    text: &[u8],
) -> Result<Step<K>, Memory>
    ensures { IfOk result (λ step. SaysAs K.rules K.cut (record { seats = seats.now; document = document_of broker }) link text.now (seated_at (document_of broker) (view_of seats.now link)) step.bytes.items (record { seats = seats.now; document = document_of step.broker })) }
{
    match broker {
        Some(broker) => says_to(alloc, broker, seats, link, text),
        None => {
            let bytes = lobby_record(alloc, seats, link, text)?;
            Ok(Step {
                broker: None,
                bytes,
            })
        }
    }
}

/// The link's view leaves the document, if it is one of its views.
fn leaves_it<K: Kit>(mut broker: Broker<K>, seats: &Seats, link: u32) -> Broker<K>
    ensures { LeavesDocument K.rules K.cut broker (seated_at broker (view_of seats.now link)) result }
{
    if let Some(view) = live_view(&broker, seats, link) {
        broker.leave(ViewId(view));
    }
    broker
}

/// A link is gone.
fn leaves<K: Kit>(alloc: Global, broker: Option<Broker<K>>, seats: &mut Seats, link: u32) -> Step<K>
    ensures { LeavesAs K.rules K.cut (record { seats = seats.old; document = document_of broker }) link (seated_at (document_of broker) (view_of seats.old link)) result.bytes.items (record { seats = seats.new; document = document_of result.broker }) }
{
    let broker = match broker {
        Some(broker) => Some(leaves_it(broker, seats, link)),
        None => None,
    };
    seats.leave(link);
    Step {
        broker,
        bytes: Vec::new(alloc),
    }
}

/// Takes one event.
pub(crate) fn takes<K: Kit>(
    alloc: Global,
    broker: Option<Broker<K>>,
    seats: &mut Seats,
    event: Waiting,
) -> Result<Step<K>, Memory>
    ensures { IfOk result (λ step. TakesOne K.rules K.cut event (record { seats = seats.old; document = document_of broker }) step.bytes.items (record { seats = seats.new; document = document_of step.broker })) }
{
    match event {
        Waiting::Opened(link) => {
            seats.enter(link)?;
            Ok(Step {
                broker,
                bytes: Vec::new(alloc),
            })
        }
        Waiting::Loads(link, file, writes) => loads(alloc, broker, seats, link, &file, writes),
        Waiting::Says(link, text) => says(alloc, broker, seats, link, text.get()),
        Waiting::Gone(link) => Ok(leaves(alloc, broker, seats, link)),
    }
}
