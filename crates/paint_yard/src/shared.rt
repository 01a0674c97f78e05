//! `yard`, and its end for polls.
ghost use Rattle.std.specs.Prelude.{◌≡◌, ◌≤◌, [], IfOk, IfSome, MatchOption};
ghost use Rattle.paint_yard.specs.declared.passes.Item.TheVariants.{Work as WorkItem};
ghost use Rattle.paint_yard.specs.declared.passes.Item.TheVariants.{Close as CloseItem};
ghost use Rattle.paint_yard.specs.Hands.{no_hand};
ghost use Rattle.paint_yard.specs.Offers.{WasFull, none_offered, with_full, with_put, work_in};

use crate::ends::WorkEnd;
use crate::passes::{Fresh, Hand, Item, MOST_WORKS, Open, Puts};
use cool_base::{DocId, Memory};
use crossbeam_channel::{Pass, RuledReceiver, RuledSender, TrySendError, bounded_with};
use std::alloc::Global;
use std::marker::Model;
use std::sync::Wait;
use yard_traits::Yard;

pub(crate) type Sender<W> = RuledSender<Item<W>, Hand<W>, Open>;

pub(crate) type Receiver<W> = RuledReceiver<Item<W>, Hand<W>, Open>;

pub(crate) type Token<W> = Pass<Item<W>, Hand<W>>;

/// An end of the queue for a poll. It also holds the other end, so the queue is never left alone.
#[derive(Drop)]
pub struct SharedYard<W: Drop> {
    sender: Sender<W>,
    receiver: Receiver<W>,
    pass: Token<W>,
    full: u64,
}

impl<W: Drop> Model for SharedYard<W> {
    ghost use Rattle.std.specs.Prelude.{◌≡◌};
    ghost use Rattle.crossbeam_channel.specs.Claims.{IsSeatAt, view as seen};
    ghost use Rattle.crossbeam_channel.specs.Ends.{sends_on, receives_on, ruled_capacity};
    ghost use Rattle.paint_yard.specs.Offers.{Offered};
    ghost use Rattle.paint_yard.specs.declared.passes.TheConstants.{MOST_WORKS};

    ghost Value = { Offered W };

    ghost view = { λ y. record { put = (seen y.pass).put; full = y.full } };

    ghost invariant = { λ y. IsSeatAt (sends_on y.sender) y.pass
        × (ruled_capacity (sends_on y.sender) ≡ MOST_WORKS)
        × (receives_on y.receiver ≡ sends_on y.sender) };
}

/// A queue that holds at most [`MOST_WORKS`] works: its end for a poll, which offered nothing, and
/// its end for a thread, which took nothing.
pub fn yard<W: Drop>(alloc: Global) -> Result<(SharedYard<W>, WorkEnd<W>), Memory>
    ensures { IfOk result (λ ends. (ends.0 ≡ none_offered) × (ends.1 ≡ [])) }
{
    let (sender, receiver, mut pass) = bounded_with::<Item<W>, Hand<W>, Open, Global>(
        alloc, MOST_WORKS,
    )?;
    let other = sender.another::<Fresh>(&mut pass);
    let end = WorkEnd::of(receiver.try_clone()?, sender.try_clone()?, other);
    Ok((
        SharedYard {
            sender,
            receiver,
            pass,
            full: 0,
        },
        end,
    ))
}

impl<W: Drop> SharedYard<W> {
    /// A further end of the same queue, which offered nothing. This end stays as it is.
    pub fn split(&mut self) -> Result<SharedYard<W>, Memory>
        ensures fresh { IfOk result (λ other. other ≡ none_offered) }
        ensures stays { self.new ≡ self.old }
    {
        let sender = self.sender.try_clone()?;
        let receiver = self.receiver.try_clone()?;
        let pass = self.sender.another::<Fresh>(&mut self.pass);
        Ok(SharedYard {
            sender,
            receiver,
            pass,
            full: 0,
        })
    }

    /// Puts the work at the back of the queue, in one step; or gives it back, where the queue held
    /// [`MOST_WORKS`] items at a moment of the call, which is counted. It takes no memory.
    pub fn offer<R: Wait>(&mut self, rt: &R, doc: DocId, work: W) -> Option<W>
        ensures put { MatchOption result (self.new ≡ with_put self.old (WorkItem doc work))
            (λ back. (back ≡ work) × (self.new ≡ with_full self.old)) }
        ensures full { IfSome result (λ _. WasFull W) }
        ensures later { self.old.full ≤ self.new.full }
    {
        let mut item = Item::Work(doc, work);
        for _ in rt.forever() {
            match self.sender.try_send_as::<Puts, R>(rt, &mut self.pass, item) {
                Ok(()) => return None,
                Err(TrySendError::Full(back)) => {
                    self.full = self.full.saturating_add(1);
                    return work_in(back);
                }
                Err(error) => item = error.into_inner(),
            }
        }
        unreachable!()
    }

    /// Puts a close mark at the back of the queue: the thread that takes it ends. It waits while
    /// the queue is full.
    pub fn close<R: Wait>(&mut self, rt: &R)
        ensures { self.new ≡ with_put self.old CloseItem }
    {
        for _ in rt.forever() {
            let sent = self
                .sender
                .send_as::<Puts, R>(rt, &mut self.pass, Item::Close);
            if sent.is_ok() {
                return;
            }
        }
        unreachable!()
    }

    /// How many full moments this end met; at 2^64 - 1 it stands still.
    pub fn full(&self) -> u64
        ensures { result ≡ self.now.full }
    {
        self.full
    }
}

// The work that stands in the item.
fn work_in<W>(item: Item<W>) -> Option<W>
    ensures { result ≡ work_in item }
{
    match item {
        Item::Work(_, work) => Some(work),
        Item::Close => None,
    }
}

/// A yard over an end of the queue, with the runtime by which it waits.
#[derive(Drop)]
pub struct RtYard<'a, R: Wait, W: Drop> {
    pub rt: &'a R,
    pub yard: SharedYard<W>,
}

impl<'a, R: Wait, W: Drop> Yard<W> for RtYard<'a, R, W> {
    ghost use Rattle.std.specs.Prelude.{Some};
    ghost use Rattle.paint_yard.specs.Offers.{works_of};

    ghost took = { λ y. Some (works_of y.yard.put) };

    ghost full = { λ y. y.yard.full };

    #[tactic(auto, using(crate::proofs::Offering::told_by))]
    fn offer(&mut self, doc: DocId, work: W) -> Option<W> {
        self.yard.offer(self.rt, doc, work)
    }
}
