//! The frames of a document are given to the links of its views.
ghost use Rattle.std.specs.Prelude.{◌≡◌, ◌≤◌, ◌∷◌, [], ℕ, Some, IsSome, IfOk, map};
ghost use Rattle.cool_frame.specs.Frames.{frame_bytes};
ghost use Rattle.document_machine.specs.Event.{Left};
ghost use Rattle.document_machine.specs.Goes.{Goes};
ghost use Rattle.document_machine.specs.Outputs.{nothing};
ghost use Rattle.load_address.specs.declared.served.Served.{Served};
ghost use Rattle.poll_machine.specs.Agenda.{Give, link_of, without_view};
ghost use Rattle.poll_instance.specs.Instance.{ways};
ghost use Rattle.poll_documents.specs.Outside.{BrokersHeard, with_net};
ghost use Rattle.poll_documents.specs.Settling.{Settles, give_of};

use crate::owned::OwnedDocument;
use broker_core::Broker;
use cool_base::{LinkId, Memory, ViewId};
use cool_frame::{Frame, write_frame};
use kit_trait::Kit;
use net_traits::{Given, Net};
use std::alloc::Global;

// The view leaves its broker, where it is there. It takes no memory.
fn leave<K: Kit>(broker: &mut Broker<K>, view: ViewId)
    requires { IsSome broker.old }
    ensures step { Goes K.rules K.cut broker.old (Left view.0) nothing broker.new }
    ensures alive { IsSome broker.new }
{
    if !broker.is_live(view) {
        return;
    }
    broker.leave(view);
}

impl<K: Kit, N: Net> OwnedDocument<K, N> {
    /// The view leaves, where it is there, and is among the views with links no more. It takes no
    /// memory.
    pub(crate) fn drop_view(&mut self, view: ViewId)
        requires { IsSome self.old.doc }
        ensures step { Goes K.rules K.cut self.old.doc (Left view.0) nothing self.new.doc }
        ensures rest { self.new ≡ record self.old {
          doc = self.new.doc;
          views = without_view self.old.views view.0;
        } }
        ensures alive { IsSome self.new.doc }
    {
        leave(&mut self.broker, view);
        self.links.remove(view);
    }

    /// Gives the bytes of one frame to the link of its view. Where the give fails the view leaves,
    /// and the link is released and ends. How many links ended.
    fn give_bytes(
        &mut self,
        alloc: Global,
        net: &mut N,
        view: ViewId,
        link: LinkId,
        bytes: &[u8],
    ) -> Result<u64, Memory>
        requires alive { IsSome self.old.doc }
        requires linked { link_of self.old.views view.0 ≡ Some link.0 }
        ensures settled { (served : Served) (id moment : ℕ) (s : BrokersHeard K.Scene N.Link)
            → Settles (ways K.rules K.cut served) N.carried id moment self.old
            (Give view.0 bytes.now ∷ []) (with_net s (N.told net.old)) result self.new
            (with_net s (N.told net.new)) }
        ensures few { IfOk result (λ ended. ended ≤ 1) }
        ensures alive { IsSome self.new.doc }
        ensures takes { N.take_faults net.new ≡ N.take_faults net.old }
    {
        match net.give(alloc, link, bytes)? {
            Given::Sent => Ok(0),
            Given::Failed => {
                self.drop_view(view);
                let _gone = net.release(link);
                Ok(1)
            }
        }
    }

    /// Gives one frame to the link of its view, and skips it where the view has none. How many
    /// links ended.
    fn give_one(
        &mut self,
        alloc: Global,
        net: &mut N,
        view: ViewId,
        frame: &Frame,
    ) -> Result<u64, Memory>
        requires { IsSome self.old.doc }
        ensures settled { (served : Served) (id moment : ℕ) (s : BrokersHeard K.Scene N.Link)
            → Settles (ways K.rules K.cut served) N.carried id moment self.old
            (Give view.0 (frame_bytes frame.now) ∷ []) (with_net s (N.told net.old)) result
            self.new (with_net s (N.told net.new)) }
        ensures few { IfOk result (λ ended. ended ≤ 1) }
        ensures alive { IsSome self.new.doc }
        ensures takes { N.take_faults net.new ≡ N.take_faults net.old }
    {
        match self.link_of(view) {
            Some(link) => {
                let bytes = write_frame(alloc, frame)?;
                self.give_bytes(alloc, net, view, link, bytes.as_slice())
            }
            None => Ok(0),
        }
    }

    /// Gives frames to the links of their views, in order. How many links ended.
    pub(crate) fn give_all(
        &mut self,
        alloc: Global,
        net: &mut N,
        frames: &[(ViewId, Frame)],
    ) -> Result<u64, Memory>
        requires { IsSome self.old.doc }
        ensures settled { (served : Served) (id moment : ℕ) (s : BrokersHeard K.Scene N.Link)
            → Settles (ways K.rules K.cut served) N.carried id moment self.old
            (map give_of frames.now) (with_net s (N.told net.old)) result self.new
            (with_net s (N.told net.new)) }
        ensures alive { IsSome self.new.doc }
        ensures takes { N.take_faults net.new ≡ N.take_faults net.old }
    {
        let mut ended = 0;
        for given in frames {
            ended += self.give_one(alloc, net, given.0, &given.1)?;
        }
        Ok(ended)
    }
}
