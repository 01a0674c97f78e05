//! Views join and leave.
ghost use Rattle.std.specs.Prelude.{◌≡◌, ◌<◌, ◌≤◌, ◌+◌, ◌≢◌, ◌&&◌, [], ◌∷◌, true, false, not, nat_eq, length, IfOk, IsSome, if◌then◌else◌};
ghost use Rattle.cool_frame.specs.declared.frame.Frame.TheVariants.{Status as StatusFrame};
ghost use Rattle.document_machine.specs.Event.{Joined, Left};
ghost use Rattle.document_machine.specs.Goes.{Moves};
ghost use Rattle.document_machine.specs.Outputs.{named, nothing};
ghost use Rattle.document_machine.specs.State.{find_view};
ghost use Rattle.save_core.specs.Saving.{final_waits, has_mark, last_stored};

use crate::core_of::{Core, Frames, frames_only};
use crate::faults::JoinFault;
use crate::members::{Member, member_at};
use cool_base::{ListOf, Memory, ViewId};
use cool_frame::Frame;
use document_machine::{MOST_VIEWS, Outs, Rights};
use kit_trait::Kit;
use save_core::Saves;
use std::alloc::Global;
use view_session::View;

/// One frame.
pub(crate) fn one_frame(alloc: Global, id: u32, frame: Frame) -> Result<Frames, Memory>
    ensures { IfOk result (λ frames. frames ≡ (named id, frame) ∷ []) }
{
    let mut frames = ListOf::new(alloc);
    frames.push((ViewId(id), frame))?;
    Ok(frames)
}

/// The id after this one; `Memory` where there is none.
fn next_id(id: u32) -> Result<u32, Memory>
    ensures { IfOk result (λ next. next ≡ id + 1) }
{
    match id.checked_add(1) {
        Some(next) => Ok(next),
        None => Err(Memory),
    }
}

/// The first frame of a view.
fn status<K: Kit>(kit: &K, id: u32, can_write: bool) -> Frame
    requires { 0 < K.rules.parts (K.rules.body (K.contents kit.now)) }
    ensures { result ≡ StatusFrame K.rules.name (K.rules.parts (K.rules.body (K.contents kit.now))) (K.rules.size (K.rules.body (K.contents kit.now)) 0) (named id) (not can_write) }
{
    Frame::Status {
        kit: kit.name(),
        parts: kit.parts(),
        size: kit.size(0),
        view: ViewId(id),
        readonly: !can_write,
    }
}

impl<K: Kit> Core<K> {
    /// How many views the document has.
    pub(crate) fn views(&self) -> usize
        ensures { result ≡ length self.now.document.views }
    {
        self.views.members.len()
    }

    /// The document gets one more view, with the next id, and the view its status.
    pub(crate) fn join(self, rights: Rights) -> Result<(Core<K>, ViewId, Outs<K::Scene>), Memory>
        requires { length self.document.views < MOST_VIEWS }
        ensures step { IfOk result (λ r. Moves K.rules K.cut self (Joined rights) r.2 r.0) }
        ensures view { IfOk result (λ r. r.1.0 ≡ self.document.next_view) }
    {
        let alloc = self.allocator();
        let Core {
            kit,
            source,
            inputs,
            mut views,
            jobs,
            tiles,
            saves,
        } = self;
        let id = views.next;
        let next = next_id(id)?;
        let frame = status(&kit, id, rights.can_write);
        let frames = one_frame(alloc, id, frame)?;
        let size = kit.size(0);
        let view = View::new(alloc, rights, &size)?;
        views.members.push(Member { id, view })?;
        views.next = next;
        let core = Core {
            kit,
            source,
            inputs,
            views,
            jobs,
            tiles,
            saves,
        };
        Ok((core, ViewId(id), frames_only(alloc, frames)))
    }

    /// The view leaves, with its window, its asked keys and its screen. Where it was the last view, a final
    /// save waits if one is needed. It takes no memory.
    pub(crate) fn leave(&mut self, id: u32)
        requires { IsSome (find_view self.old.document.views id) }
        ensures { Moves K.rules K.cut self.old (Left id) nothing self.new }
    {
        let Some(i) = member_at(&self.views.members, id) else {
            unreachable!()
        };
        let is_last = self.views.members.len() == 1;
        let count = self.inputs.accepted.len() as u64;
        save_last(&mut self.saves, is_last, count);
        let _ = self.views.members.remove(i);
    }
}

/// A view leaves a document of so many inputs: where it is the last one, a final save waits if one is needed.
fn save_last(saves: &mut Saves, is_last: bool, count: u64)
    requires { last_stored saves.old ≢ count → has_mark count saves.old ≡ false → saves.old.has_room ≡ true }
    ensures { saves.new ≡ (if is_last && (not (nat_eq (last_stored saves.old) count) && not (has_mark count saves.old)) then final_waits count saves.old else saves.old) }
{
    if is_last && saves.last_stored() != count && !saves.has_mark(count) {
        saves.wait_final(count);
    }
}
