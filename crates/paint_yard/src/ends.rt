//! The end of the queue for a thread that does works.
ghost use Rattle.std.specs.Prelude.{◌≡◌, ◌++◌, ◌∷◌, [], IfOk};
ghost use Rattle.crossbeam_channel.specs.Claims.{IsSeatAt, view as seen};
ghost use Rattle.crossbeam_channel.specs.Ends.{sends_on, receives_on};

use crate::passes::{Fresh, Item, Takes};
use crate::shared::{Receiver, Sender, Token};
use cool_base::Memory;
use std::marker::Model;
use std::sync::Wait;

/// An end of the queue for a thread. It also holds the other end, by which it makes further ends.
#[derive(Drop)]
pub struct WorkEnd<W: Drop> {
    receiver: Receiver<W>,
    sender: Sender<W>,
    pass: Token<W>,
}

impl<W: Drop> Model for WorkEnd<W> {
    ghost use Rattle.std.specs.Prelude.{◌≡◌, List};
    ghost use Rattle.crossbeam_channel.specs.Claims.{IsSeatAt, view as seen};
    ghost use Rattle.crossbeam_channel.specs.Ends.{sends_on, receives_on};
    ghost use Rattle.paint_yard.specs.declared.passes.Item.{Item as Taken};

    ghost Value = { List (Taken W) };

    ghost view = { λ e. (seen e.pass).took };

    ghost invariant = { λ e. IsSeatAt (sends_on e.sender) e.pass
        × (receives_on e.receiver ≡ sends_on e.sender) };
}

impl<W: Drop> WorkEnd<W> {
    /// An end of these.
    pub(crate) fn of(receiver: Receiver<W>, sender: Sender<W>, pass: Token<W>) -> WorkEnd<W>
        requires pass { IsSeatAt (sends_on sender) pass }
        requires same { receives_on receiver ≡ sends_on sender }
        ensures { result ≡ (seen pass).took }
    {
        WorkEnd {
            receiver,
            sender,
            pass,
        }
    }

    /// A further end of the same queue, which took nothing. This end stays as it is.
    pub fn split(&mut self) -> Result<WorkEnd<W>, Memory>
        ensures fresh { IfOk result (λ other. other ≡ []) }
        ensures stays { self.new ≡ self.old }
    {
        let sender = self.sender.try_clone()?;
        let receiver = self.receiver.try_clone()?;
        let pass = self.sender.another::<Fresh>(&mut self.pass);
        Ok(WorkEnd {
            receiver,
            sender,
            pass,
        })
    }

    /// Takes the item at the front of the queue, in one step. It waits while the queue is empty.
    pub fn take<R: Wait>(&mut self, rt: &R) -> Item<W>
        ensures { self.new ≡ self.old ++ result ∷ [] }
    {
        for _ in rt.forever() {
            if let Ok(item) = self.receiver.recv_as::<Takes, R>(rt, &mut self.pass) {
                return item;
            }
        }
        unreachable!()
    }
}
