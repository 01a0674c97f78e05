//! The works of a document: each is offered to the yard, and what the yard doesn't take is done at
//! once, and its answer is taken.
ghost use Rattle.std.specs.Prelude.{◌≡◌, ◌∷◌, ◌+◌, ◌≤◌, ◌^◌, [], ℕ, List, Option, None, Err, map};
ghost use Rattle.std.specs.Prelude.{IsSome, IsTrue, IfOk, OnOk, MatchOption, MatchResult, ◌↔◌};
ghost use Rattle.std.specs.Option.{option_map};
ghost use Rattle.document_machine.specs.Event.{PutAnswered};
ghost use Rattle.document_machine.specs.Goes.{Goes};
ghost use Rattle.document_machine.specs.Outputs.{frames_only};
ghost use Rattle.load_address.specs.declared.served.Served.{Served};
ghost use Rattle.net_traits.specs.Nets.{NetTold};
ghost use Rattle.outside.specs.Stores.{StoreCall};
ghost use Rattle.outside.specs.declared.faults.StoreFault.TheVariants.{Memory as NoMemory};
ghost use Rattle.poll_instance.specs.Instance.{broker_lock, given_out, ways};
ghost use Rattle.poll_machine.specs.Agenda.{Offer, Do, Take, lock_after, lock_given, todo_of};
ghost use Rattle.poll_machine.specs.Words.{event_of, Paint, Put};
ghost use Rattle.poll_documents.specs.Outside.{BrokersHeard, BrokerHeld, outside, with_store};
ghost use Rattle.poll_documents.specs.Outside.{with_net};
ghost use Rattle.poll_documents.specs.Outside.{work_in, answer_in, to_do};
ghost use Rattle.poll_documents.specs.Settling.{Passes, Stops, Settles};

use crate::owned::{HeldLock, OwnedDocument};
use crate::parcels::{Mail, Parcel};
use cool_base::{DocId, Memory, Ticket, Token};
use document_machine::Outs;
use kit_trait::{Done, Kit, PaintJob, paint};
use net_traits::Net;
use outside::{Errand, Receipt, Store, StoreFault};
use poll_hall::Port;
use std::alloc::Global;
use yard_traits::{Answer, Answered, Work, Yard};

/// A document of the hall at a moment, in seconds.
#[derive(Clone, Copy, Debug)]
pub(crate) struct At {
    pub doc: DocId,
    pub moment: u64,
}

/// A sum of counts. One beyond 2^64 - 1, and no other, is answered as out of memory.
pub fn sum_of(count: u64, more: u64) -> Result<u64, Memory>
    ensures { MatchResult result (λ sum. sum ≡ count + more) (λ _. 2 ^ 64 ≤ count + more) }
{
    match count.checked_add(more) {
        Some(sum) => Ok(sum),
        None => Err(Memory),
    }
}

/// The first of some items, taken out; None where there is none. An event gives out one job or one
/// errand at most, and a document has few links, so little moves.
pub(crate) fn take_first<W: Drop>(works: &mut Vec<W>) -> Option<W>
    ensures { MatchOption result ((works.old.items ≡ []) × (works.new.items ≡ []))
        (λ work. works.old.items ≡ work ∷ works.new.items) }
{
    if works.is_empty() {
        return None;
    }
    Some(works.remove(0))
}

// Whether the store answered that it had no memory.
fn lacked_memory(answer: &Result<Receipt, StoreFault>) -> bool
    ensures { IsTrue result ↔ (answer.now ≡ Err NoMemory) }
{
    matches!(answer, Err(StoreFault::Memory))
}

impl<K: Kit, N: Net> OwnedDocument<K, N> {
    // The work, where it is to be done at once: there is no room to spare, or the yard gave it
    // back.
    fn offered<Y: Yard<Work<K::Scene>>, P: Port<Parcel<K, N::Link>, Mail<K::Scene, N::Link>>>(
        yard: &mut Y,
        port: &mut P,
        doc: DocId,
        work: Work<K::Scene>,
    ) -> Option<Work<K::Scene>>
        ensures { (served : Served) (moment : ℕ) (owned : BrokerHeld K.Scene N.Link)
            (net : Option NetTold) (store : Option (List StoreCall)) (clock : Option (List ℕ))
            → Passes (ways K.rules K.cut served) N.carried doc.0 moment owned
            (Offer (work_in work) ∷ [])
            (outside net (P.view port.old) store clock (Y.took yard.old)) 0 owned (to_do result)
            (outside net (P.view port.new) store clock (Y.took yard.new)) }
    {
        if !port.spare() {
            return Some(work);
        }
        yard.offer(doc, work)
    }

    // The work is done at once, and this is its answer.
    fn answer_to<H: Store>(
        alloc: Global,
        store: &mut H,
        work: Work<K::Scene>,
    ) -> Result<Answer<K::Scene>, Memory>
        ensures { (served : Served) (id moment : ℕ) (owned : BrokerHeld K.Scene N.Link)
            (s : BrokersHeard K.Scene N.Link)
            → MatchResult result
            (λ answer. Passes (ways K.rules K.cut served) N.carried id moment owned
            (Do (work_in work) ∷ []) (with_store s (H.calls store.old)) 0 owned
            (Take (answer_in (λ d. record {
              ticket = d.ticket.0;
              scene =
                  d.scene;
            }) answer) ∷ []) (with_store s (H.calls store.new)))
            (λ _. Stops (ways K.rules K.cut served) N.carried id moment owned
            (Do (work_in work) ∷ []) (with_store s (H.calls store.old))
            (with_store s (H.calls store.new))) }
    {
        match work {
            Work::Paint(job) => Ok(Answered::Painted(paint(alloc, job)?)),
            Work::Put(errand) => {
                let result = store.put(alloc, &errand);
                if lacked_memory(&result) {
                    return Err(Memory);
                }
                Ok(Answered::PutDone {
                    ticket: errand.ticket,
                    result,
                })
            }
        }
    }

    // The lock that an answer of the store gives the document, at this moment.
    #[tactic(auto, using(crate::proofs::Working::same_lock))]
    fn lock_given(
        &self,
        alloc: Global,
        moment: u64,
        ticket: Ticket,
        answer: &Result<Receipt, StoreFault>,
    ) -> Result<Option<HeldLock>, Memory>
        ensures { IfOk result (λ lock. lock ≡ option_map
            (λ token. record { token = token; moment = moment })
            (broker_lock self.now.doc ticket.0 answer.now)) }
    {
        match self.broker.lock_token(ticket, answer) {
            Some(token) => Ok(Some(HeldLock {
                token: token.copy(alloc)?,
                moment,
            })),
            None => Ok(None),
        }
    }

    // The document takes what the store answered to its errand.
    fn take_put(
        &mut self,
        alloc: Global,
        moment: u64,
        ticket: Ticket,
        answer: &Result<Receipt, StoreFault>,
    ) -> Result<Outs<K::Scene>, Memory>
        ensures step { IfOk result (λ outs. Goes K.rules K.cut self.old.doc
            (PutAnswered ticket.0 answer.now) outs self.new.doc) }
        ensures rest { IfOk result (λ outs. self.new ≡ record self.old {
          doc = self.new.doc;
          lock = lock_given moment (broker_lock self.old.doc ticket.0 answer.now) self.old.lock;
        }) }
    {
        let lock = self.lock_given(alloc, moment, ticket, answer)?;
        let outs = self.broker.put_done(ticket, answer)?;
        if let Some(lock) = lock {
            self.lock = Some(lock);
        }
        Ok(outs)
    }

    /// The document takes the answer to one of its works, at this moment. It gives out frames
    /// alone.
    pub(crate) fn take(
        &mut self,
        alloc: Global,
        moment: u64,
        answer: &Answer<K::Scene>,
    ) -> Result<Outs<K::Scene>, Memory>
        ensures step { IfOk result (λ outs. (served : Served)
            → (ways K.rules K.cut served).Steps self.old.doc
            (event_of (answer_in (λ d. record { ticket = d.ticket.0; scene = d.scene }) answer.now))
            (given_out outs) self.new.doc) }
        ensures rest { IfOk result (λ outs. (served : Served) → self.new ≡ record self.old {
          doc = self.new.doc;
          lock = lock_after (ways K.rules K.cut served) moment self.old.doc
              (event_of (answer_in (λ d. record {
                ticket = d.ticket.0;
                scene =
                    d.scene;
              }) answer.now))
              self.old.lock;
        }) }
        ensures frames { IfOk result (λ outs. outs ≡ frames_only outs.frames) }
        ensures alive { OnOk result (IsSome self.new.doc) }
    {
        match answer {
            Answered::Painted(done) => self.broker.painted(done),
            Answered::PutDone { ticket, result } => self.take_put(alloc, moment, *ticket, result),
        }
    }

    // The document takes the answer to a work that was owed one, and its frames are given. How many
    // links ended.
    fn take_answer(
        &mut self,
        alloc: Global,
        net: &mut N,
        moment: u64,
        answer: &Answer<K::Scene>,
    ) -> Result<u64, Memory>
        ensures settled { (served : Served) (id : ℕ) (s : BrokersHeard K.Scene N.Link)
            → Settles (ways K.rules K.cut served) N.carried id moment self.old
            (Take (answer_in (λ d. record {
              ticket = d.ticket.0;
              scene =
                  d.scene;
            }) answer.now) ∷ [])
            (with_net s (N.told net.old)) result self.new (with_net s (N.told net.new)) }
        ensures alive { OnOk result (IsSome self.new.doc) }
        ensures takes { N.take_faults net.new ≡ N.take_faults net.old }
    {
        let outs = self.take(alloc, moment, answer)?;
        self.give_all(alloc, net, outs.frames.get())
    }

    // The work is done at once, its answer is taken, and its frames are given. How many links
    // ended.
    fn do_now<H: Store>(
        &mut self,
        alloc: Global,
        net: &mut N,
        store: &mut H,
        moment: u64,
        work: Work<K::Scene>,
    ) -> Result<u64, Memory>
        ensures settled { (served : Served) (id : ℕ) (s : BrokersHeard K.Scene N.Link)
            → Settles (ways K.rules K.cut served) N.carried id moment self.old
            (Do (work_in work) ∷ []) (with_net (with_store s (H.calls store.old)) (N.told net.old))
            result self.new
            (with_net (with_store s (H.calls store.new)) (N.told net.new)) }
        ensures alive { OnOk result (IsSome self.new.doc) }
        ensures takes { N.take_faults net.new ≡ N.take_faults net.old }
    {
        let answer = Self::answer_to(alloc, store, work)?;
        self.take_answer(alloc, net, moment, &answer)
    }

    // The work is offered to the yard, and done at once where the yard doesn't take it. How many
    // links ended.
    fn do_work<
        H: Store,
        Y: Yard<Work<K::Scene>>,
        P: Port<Parcel<K, N::Link>, Mail<K::Scene, N::Link>>,
    >(
        &mut self,
        alloc: Global,
        net: &mut N,
        store: &mut H,
        yard: &mut Y,
        port: &mut P,
        at: At,
        work: Work<K::Scene>,
    ) -> Result<u64, Memory>
        ensures settled { (served : Served) (clock : Option (List ℕ))
            → Settles (ways K.rules K.cut served) N.carried at.doc.0 at.moment self.old
            (Offer (work_in work) ∷ [])
            (outside (N.told net.old) (P.view port.old) (H.calls store.old) clock (Y.took yard.old))
            result self.new
            (outside (N.told net.new) (P.view port.new) (H.calls store.new) clock
            (Y.took yard.new)) }
        ensures alive { OnOk result (IsSome self.old.doc → IsSome self.new.doc) }
        ensures takes { N.take_faults net.new ≡ N.take_faults net.old }
    {
        match Self::offered(yard, port, at.doc, work) {
            Some(work) => self.do_now(alloc, net, store, at.moment, work),
            None => Ok(0),
        }
    }

    // All jobs are offered or painted, in order. How many links ended.
    fn do_jobs<
        H: Store,
        Y: Yard<Work<K::Scene>>,
        P: Port<Parcel<K, N::Link>, Mail<K::Scene, N::Link>>,
    >(
        &mut self,
        alloc: Global,
        net: &mut N,
        store: &mut H,
        yard: &mut Y,
        port: &mut P,
        at: At,
        jobs: Vec<PaintJob<K::Scene>>,
    ) -> Result<u64, Memory>
        ensures settled { (served : Served) (clock : Option (List ℕ))
            → Settles (ways K.rules K.cut served) N.carried at.doc.0 at.moment self.old
            (map (λ job. Offer (Paint job)) jobs.items)
            (outside (N.told net.old) (P.view port.old) (H.calls store.old) clock (Y.took yard.old))
            result self.new
            (outside (N.told net.new) (P.view port.new) (H.calls store.new) clock
            (Y.took yard.new)) }
        ensures alive { OnOk result (IsSome self.old.doc → IsSome self.new.doc) }
        ensures takes { N.take_faults net.new ≡ N.take_faults net.old }
    {
        let mut left = jobs;
        let mut ended = 0;
        'works: while let Some(job) = take_first(&mut left) {
            let more = self.do_work(alloc, net, store, yard, port, at, Work::Paint(job))?;
            ended = sum_of(ended, more)?;
        }
        Ok(ended)
    }

    // All errands are offered or put, in order. How many links ended.
    fn do_errands<
        H: Store,
        Y: Yard<Work<K::Scene>>,
        P: Port<Parcel<K, N::Link>, Mail<K::Scene, N::Link>>,
    >(
        &mut self,
        alloc: Global,
        net: &mut N,
        store: &mut H,
        yard: &mut Y,
        port: &mut P,
        at: At,
        errands: Vec<Errand>,
    ) -> Result<u64, Memory>
        ensures settled { (served : Served) (clock : Option (List ℕ))
            → Settles (ways K.rules K.cut served) N.carried at.doc.0 at.moment self.old
            (map (λ errand. Offer (Put errand)) errands.items)
            (outside (N.told net.old) (P.view port.old) (H.calls store.old) clock (Y.took yard.old))
            result self.new
            (outside (N.told net.new) (P.view port.new) (H.calls store.new) clock
            (Y.took yard.new)) }
        ensures alive { OnOk result (IsSome self.old.doc → IsSome self.new.doc) }
        ensures takes { N.take_faults net.new ≡ N.take_faults net.old }
    {
        let mut left = errands;
        let mut ended = 0;
        'works: while let Some(errand) = take_first(&mut left) {
            let more = self.do_work(alloc, net, store, yard, port, at, Work::Put(errand))?;
            ended = sum_of(ended, more)?;
        }
        Ok(ended)
    }

    /// All that is owed for what an event gave out is done: its frames are given, in order, and
    /// then its jobs and its errands are offered or done. How many links ended.
    pub(crate) fn settle<
        H: Store,
        Y: Yard<Work<K::Scene>>,
        P: Port<Parcel<K, N::Link>, Mail<K::Scene, N::Link>>,
    >(
        &mut self,
        alloc: Global,
        net: &mut N,
        store: &mut H,
        yard: &mut Y,
        port: &mut P,
        at: At,
        outs: Outs<K::Scene>,
    ) -> Result<u64, Memory>
        requires { IsSome self.old.doc }
        ensures settled { (served : Served) (clock : Option (List ℕ))
            → Settles (ways K.rules K.cut served) N.carried at.doc.0 at.moment self.old
            (todo_of (given_out outs))
            (outside (N.told net.old) (P.view port.old) (H.calls store.old) clock (Y.took yard.old))
            result self.new
            (outside (N.told net.new) (P.view port.new) (H.calls store.new) clock
            (Y.took yard.new)) }
        ensures takes { N.take_faults net.new ≡ N.take_faults net.old }
    {
        let Outs {
            frames,
            jobs,
            errands,
        } = outs;
        let shown = self.give_all(alloc, net, frames.get())?;
        let painted = self.do_jobs(alloc, net, store, yard, port, at, jobs.into_inner())?;
        let stored = self.do_errands(alloc, net, store, yard, port, at, errands.into_inner())?;
        let sum = sum_of(shown, painted)?;
        sum_of(sum, stored)
    }
}
