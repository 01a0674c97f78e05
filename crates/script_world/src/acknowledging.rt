//! The acknowledgements of all tiles that were sent.
ghost use Rattle.std.specs.Prelude.{◌≡◌, ◌<◌, ◌^◌, ◌++◌, map, IfOk, OnOk};
ghost use Rattle.std.specs.List.{AllByRecursion};
ghost use Rattle.std.specs.List.Sorted.{IsStrictlySortedBy};
ghost use Rattle.std.specs.Ordering.{nat_cmp};
ghost use Rattle.script_world.specs.House.{document_of, window_in, says_processed, acknowledgements};
ghost use Rattle.script_world.specs.Moved.{AreSmall};

use crate::event::Waiting;
use crate::seats::Seats;
use broker_core::Broker;
use cool_base::{ListOf, Memory, ViewId};
use cool_message::{ClientMessage, write_message};
use kit_trait::Kit;
use std::alloc::Global;
use std::collections::VecDeque;

/// A number of 64 bits is below 2^64.
fn are_small(wids: &[u64])
    ensures { AllByRecursion (λ n. n < 2 ^ 64) wids.now }
{}

/// The numbers of the tiles that the view has not acknowledged, in order.
fn window_to<K: Kit>(alloc: Global, broker: &Broker<K>, view: u32) -> Result<Vec<u64>, Memory>
    ensures window { IfOk result (λ wids. wids.items ≡ window_in broker.now view) }
    ensures small { IfOk result (λ wids. AllByRecursion (λ n. n < 2 ^ 64) wids.items) }
{
    if !broker.is_live(ViewId(view)) {
        return Ok(Vec::new(alloc));
    }
    let wids = broker.unprocessed(ViewId(view));
    let found: Vec<u64> = wids.as_slice().iter().map(|wid| wid.0).collect(alloc)?;
    are_small(&found);
    Ok(found)
}

/// The same where there may be no document.
fn window_of<K: Kit>(
    alloc: Global,
    broker: &Option<Broker<K>>,
    view: u32,
) -> Result<Vec<u64>, Memory>
    ensures window { IfOk result (λ wids. wids.items ≡ window_in (document_of broker.now) view) }
    ensures small { IfOk result (λ wids. AllByRecursion (λ n. n < 2 ^ 64) wids.items) }
{
    match broker {
        Some(broker) => window_to(alloc, broker, view),
        None => Ok(Vec::new(alloc)),
    }
}

/// The link says that it has processed tiles with these numbers, if there are some.
fn acknowledge(
    alloc: Global,
    link: u32,
    wids: Vec<u64>,
    waiting: &mut VecDeque<Waiting>,
) -> Result<(), Memory>
    ensures { OnOk result (waiting.new.items ≡ waiting.old.items ++ says_processed link wids.items) }
{
    if wids.is_empty() {
        return Ok(());
    }
    let message = ClientMessage::TileProcessed {
        wids: ListOf::of(wids),
    };
    let text = write_message(alloc, &message)?;
    waiting.push_back(Waiting::Says(link, ListOf::of(text)))?;
    Ok(())
}

/// Each view whose window isn't empty acknowledges all its tiles, in order of links.
pub(crate) fn acknowledge_all<K: Kit>(
    alloc: Global,
    broker: &Option<Broker<K>>,
    seats: &Seats,
    waiting: &mut VecDeque<Waiting>,
) -> Result<(), Memory>
    ensures ok { OnOk result (waiting.new.items ≡ waiting.old.items ++ acknowledgements (record { seats = seats.now; document = document_of broker.now })) }
    ensures small { OnOk result (AreSmall (document_of broker.now) seats.now.views) }
    ensures sorted { IsStrictlySortedBy nat_cmp (map (λ seat. seat.0) seats.now.views) }
{
    for (link, view) in seats.views() {
        let wids = window_of(alloc, broker, *view)?;
        acknowledge(alloc, *link, wids, waiting)?;
    }
    Ok(())
}
