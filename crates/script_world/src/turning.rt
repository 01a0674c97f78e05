//! One turn of the document, with all that it gives out answered at once.
ghost use Rattle.std.specs.Prelude.{◌≡◌, ◌++◌, [], ◌∷◌, map, IfOk, IsSome};
ghost use Rattle.document_laws.specs.AtOnce.{answered, stored};
ghost use Rattle.script_world.specs.House.{document_of, TurnsDocument};
ghost use Rattle.script_world.specs.Answered.{TakesAll};

use crate::seats::{Seats, records};
use broker_core::Broker;
use cool_base::Memory;
use document_machine::Turned;
use kit_trait::{Kit, PaintJob, paint};
use outside::{Errand, Receipt};
use std::alloc::Global;

/// The same of a turn, and whether it did a work.
#[derive(Drop)]
pub(crate) struct Turn<K: Kit> {
    pub(crate) broker: Option<Broker<K>>,
    pub(crate) bytes: Vec<u8>,
    pub(crate) worked: bool,
}

/// The job is painted and comes back: the records of the frames that it gives.
fn paints<K: Kit>(
    alloc: Global,
    broker: &mut Broker<K>,
    seats: &Seats,
    job: PaintJob<K::Scene>,
) -> Result<Vec<u8>, Memory>
    requires { IsSome broker.old }
    ensures { IfOk result (λ bytes. TakesAll K.rules K.cut seats.now broker.old (answered job ∷ []) bytes.items broker.new) }
{
    let done = paint(alloc, job)?;
    let outs = broker.painted(&done)?;
    let bytes = records(alloc, seats, outs.frames.get())?;
    Ok(bytes)
}

/// The jobs are painted and come back, in order: the records of the frames that they give.
fn paints_all<K: Kit>(
    alloc: Global,
    broker: &mut Broker<K>,
    seats: &Seats,
    jobs: Vec<PaintJob<K::Scene>>,
) -> Result<Vec<u8>, Memory>
    requires { IsSome broker.old }
    ensures { IfOk result (λ bytes. TakesAll K.rules K.cut seats.now broker.old (map answered jobs.items) bytes.items broker.new) }
{
    let mut bytes = Vec::new(alloc);
    for job in jobs {
        let more = paints(alloc, broker, seats, job)?;
        bytes.extend_from_slice(&more)?;
    }
    Ok(bytes)
}

/// The store takes the errand's content and answers by its receipt: the records of the frames that it gives.
fn stores<K: Kit>(
    alloc: Global,
    broker: &mut Broker<K>,
    seats: &Seats,
    errand: Errand,
) -> Result<Vec<u8>, Memory>
    requires { IsSome broker.old }
    ensures { IfOk result (λ bytes. TakesAll K.rules K.cut seats.now broker.old (stored errand ∷ []) bytes.items broker.new) }
{
    let Errand {
        ticket,
        file,
        token: _,
        content,
        number: _,
    } = errand;
    let answer = Ok(Receipt { file, content });
    let outs = broker.put_done(ticket, &answer)?;
    let bytes = records(alloc, seats, outs.frames.get())?;
    Ok(bytes)
}

/// The store takes each content, in order, and answers by its receipt: the records of the frames that they give.
fn stores_all<K: Kit>(
    alloc: Global,
    broker: &mut Broker<K>,
    seats: &Seats,
    errands: Vec<Errand>,
) -> Result<Vec<u8>, Memory>
    requires { IsSome broker.old }
    ensures { IfOk result (λ bytes. TakesAll K.rules K.cut seats.now broker.old (map stored errands.items) bytes.items broker.new) }
{
    let mut bytes = Vec::new(alloc);
    for errand in errands {
        let more = stores(alloc, broker, seats, errand)?;
        bytes.extend_from_slice(&more)?;
    }
    Ok(bytes)
}

/// The jobs come back, and then the store answers: the records of the frames that this gives.
fn answers_all<K: Kit>(
    alloc: Global,
    broker: &mut Broker<K>,
    seats: &Seats,
    jobs: Vec<PaintJob<K::Scene>>,
    errands: Vec<Errand>,
) -> Result<Vec<u8>, Memory>
    requires { IsSome broker.old }
    ensures { IfOk result (λ bytes. TakesAll K.rules K.cut seats.now broker.old (map answered jobs.items ++ map stored errands.items) bytes.items broker.new) }
{
    let mut bytes = paints_all(alloc, broker, seats, jobs)?;
    let more = stores_all(alloc, broker, seats, errands)?;
    bytes.extend_from_slice(&more)?;
    Ok(bytes)
}

/// One turn of a document.
fn turns_one<K: Kit>(alloc: Global, mut broker: Broker<K>, seats: &Seats) -> Result<Turn<K>, Memory>
    ensures { IfOk result (λ turn. TurnsDocument K.rules K.cut seats.now broker turn.bytes.items turn.worked (document_of turn.broker)) }
{
    match broker.turn()? {
        Turned::Worked(outs) => {
            let mut bytes = records(alloc, seats, outs.frames.get())?;
            let jobs = outs.jobs.into_inner();
            let errands = outs.errands.into_inner();
            let later = answers_all(alloc, &mut broker, seats, jobs, errands)?;
            bytes.extend_from_slice(&later)?;
            Ok(Turn {
                broker: Some(broker),
                bytes,
                worked: true,
            })
        }
        Turned::Idle => Ok(Turn {
            broker: Some(broker),
            bytes: Vec::new(alloc),
            worked: false,
        }),
    }
}

/// One turn of the document, if there is one.
pub(crate) fn turns<K: Kit>(
    alloc: Global,
    broker: Option<Broker<K>>,
    seats: &Seats,
) -> Result<Turn<K>, Memory>
    ensures { IfOk result (λ turn. TurnsDocument K.rules K.cut seats.now (document_of broker) turn.bytes.items turn.worked (document_of turn.broker)) }
{
    match broker {
        Some(broker) => turns_one(alloc, broker, seats),
        None => Ok(Turn {
            broker: None,
            bytes: Vec::new(alloc),
            worked: false,
        }),
    }
}
