//! Loads: a document begins, and a link becomes a view of it or is refused.
ghost use Rattle.std.specs.Prelude.{◌≡◌, [], IfOk, true};
ghost use Rattle.script_world.specs.House.{document_of, rights, LoadsOne, LoadsWhere, BeginsWhere};
ghost use Rattle.script_world.specs.Seats.{is_waiting};
ghost use Rattle.script_world.specs.Taken.{JoinsBy};

use crate::lobby::load_refusal;
use crate::seats::{Seats, records};
use crate::takes::Step;
use broker_core::{Broker, JoinFault};
use bytes::Bytes;
use cool_base::{FileId, Memory, Token};
use cool_frame::ErrorKind;
use document_machine::Rights;
use kit_trait::{Kit, LoadFault};
use std::alloc::Global;

/// The rights of a link.
fn rights(alloc: Global, writes: bool) -> Result<Rights, Memory>
    ensures { IfOk result (λ given. given ≡ rights writes) }
{
    let text = if writes { "t-rw" } else { "t-ro" };
    match Token::read(alloc, text)? {
        Some(token) => Ok(Rights {
            can_write: writes,
            token,
        }),
        None => unreachable!(),
    }
}

/// The link becomes a view of the document, or is refused where it has 64 views.
fn joins<K: Kit>(
    alloc: Global,
    mut broker: Broker<K>,
    seats: &mut Seats,
    link: u32,
    writes: bool,
) -> Result<Step<K>, Memory>
    ensures { IfOk result (λ step. JoinsBy K.rules K.cut seats.old link (rights writes) broker step.bytes.items (record { seats = seats.new; document = document_of step.broker })) }
{
    let given = rights(alloc, writes)?;
    match broker.join(given) {
        Ok((view, outs)) => {
            seats.sit(link, view.0)?;
            let bytes = records(alloc, seats, outs.frames.get())?;
            Ok(Step {
                broker: Some(broker),
                bytes,
            })
        }
        Err(JoinFault::ViewsFull) => {
            let bytes = load_refusal(alloc, link, ErrorKind::ViewsFull)?;
            Ok(Step {
                broker: Some(broker),
                bytes,
            })
        }
        Err(JoinFault::Memory) => Err(Memory),
    }
}

/// The document begins over no bytes, and the link is its first view; or the kit refuses no bytes.
fn begins<K: Kit>(
    alloc: Global,
    seats: &mut Seats,
    link: u32,
    file: &FileId,
    writes: bool,
) -> Result<Step<K>, Memory>
    ensures { IfOk result (λ step. BeginsWhere (K.rules.accepts []) K.rules K.cut seats.old link file.now (rights writes) step.bytes.items (record { seats = seats.new; document = document_of step.broker })) }
{
    match Broker::start(alloc, file, Bytes::new()) {
        Ok(broker) => joins(alloc, broker, seats, link, writes),
        Err(LoadFault::BadFile) => {
            let bytes = load_refusal(alloc, link, ErrorKind::BadFile)?;
            Ok(Step {
                broker: None,
                bytes,
            })
        }
        Err(LoadFault::Memory) => Err(Memory),
    }
}

/// A load of a link in the lobby.
fn loads_one<K: Kit>(
    alloc: Global,
    broker: Option<Broker<K>>,
    seats: &mut Seats,
    link: u32,
    file: &FileId,
    writes: bool,
) -> Result<Step<K>, Memory>
    ensures { IfOk result (λ step. LoadsOne K.rules K.cut seats.old (document_of broker) link file.now (rights writes) step.bytes.items (record { seats = seats.new; document = document_of step.broker })) }
{
    match broker {
        Some(broker) => joins(alloc, broker, seats, link, writes),
        None => begins(alloc, seats, link, file, writes),
    }
}

/// A load.
pub(crate) fn loads<K: Kit>(
    alloc: Global,
    broker: Option<Broker<K>>,
    seats: &mut Seats,
    link: u32,
    file: &FileId,
    writes: bool,
) -> Result<Step<K>, Memory>
    ensures { IfOk result (λ step. LoadsWhere (is_waiting seats.old link) K.rules K.cut (record { seats = seats.old; document = document_of broker }) link file.now (rights writes) step.bytes.items (record { seats = seats.new; document = document_of step.broker })) }
{
    if !seats.is_waiting(link) {
        return Ok(Step {
            broker,
            bytes: Vec::new(alloc),
        });
    }
    loads_one(alloc, broker, seats, link, file, writes)
}
