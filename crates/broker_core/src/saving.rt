//! The ready saves are served, and puts come back.
ghost use Rattle.std.specs.Prelude.{◌≡◌, ◌++◌, true, option_to_list, Some, IfOk, OnOk};
ghost use Rattle.std.specs.Option.{option_copied};
ghost use Rattle.document_machine.specs.Event.{PutAnswered};
ghost use Rattle.document_machine.specs.Goes.{DoesNext, Moves};
ghost use Rattle.document_machine.specs.Saves.{ending_frame, ending_frames, has_ready_save, receipt_of, told_view, unmodified_frames};
ghost use Rattle.document_machine.specs.declared.outs.Turned.TheVariants.{Worked};
ghost use Rattle.broker_core.specs.Members.{views_of};
ghost use Rattle.broker_core.specs.Stored.{lock_token};

use crate::core_of::{Core, Frames, frames_only};
use crate::members::{Member, is_there};
use bytes::Bytes;
use cool_base::{ListOf, Memory, TextOf, Ticket, Token, ViewId};
use cool_frame::{ErrorKind, Frame};
use document_machine::Outs;
use kit_trait::Kit;
use outside::{Errand, Receipt, StoreFault};
use save_core::SaveAnswer;
use std::alloc::Global;

/// Adds the frame for this view, where it is still there.
#[tactic(auto, using(crate::proofs::Served::told_gone, crate::proofs::Served::told_there))]
fn tell_view(
    frames: &mut Frames,
    members: &Vec<Member>,
    id: ViewId,
    frame: Frame,
) -> Result<(), Memory>
    ensures { OnOk result (frames.new ≡ frames.old ++ told_view (views_of members.now.items) frame (Some id)) }
{
    if !is_there(members, id.0) {
        return Ok(());
    }
    frames.push((id, frame))
}

/// The frames that answer these views, as far as they are still there, that nothing was new since so many
/// inputs were stored.
fn unmodified_frames(
    alloc: Global,
    members: &Vec<Member>,
    number: u64,
    ids: &[ViewId],
) -> Result<Frames, Memory>
    ensures { IfOk result (λ frames. frames ≡ unmodified_frames (views_of members.now.items) number ids.now) }
{
    let mut frames = ListOf::new(alloc);
    for id in ids {
        let frame = Frame::SaveDone {
            inputs: number,
            put: false,
        };
        tell_view(&mut frames, members, *id, frame)?;
    }
    Ok(frames)
}

/// The errand alone, where there is one.
fn errands_of(alloc: Global, errand: Option<Errand>) -> Result<ListOf<Errand>, Memory>
    ensures { IfOk result (λ errands. errands ≡ option_to_list errand) }
{
    let mut errands = ListOf::new(alloc);
    if let Some(errand) = errand {
        errands.push(errand)?;
    }
    Ok(errands)
}

/// The receipt, where the store answered by one.
fn receipt_of(answer: &Result<Receipt, StoreFault>) -> Option<&Receipt>
    ensures { option_copied result ≡ receipt_of answer.now }
{
    match answer {
        Ok(receipt) => Some(receipt),
        Err(_) => None,
    }
}

/// What a save is told whose put of so many inputs the store answered so.
fn ending_frame(
    alloc: Global,
    answer: &Result<Receipt, StoreFault>,
    number: u64,
) -> Result<Frame, Memory>
    ensures { IfOk result (λ frame. frame ≡ ending_frame answer.now number) }
{
    match answer {
        Ok(_) => Ok(Frame::SaveDone {
            inputs: number,
            put: true,
        }),
        Err(fault) => Ok(Frame::Error {
            cmd: TextOf::of(String::from_str(alloc, "storage")?),
            kind: ErrorKind::SaveFailed,
            code: Some(fault.code()),
        }),
    }
}

/// Tells the save's view how its put ended, where it has one that is still there.
fn tell_ending(
    alloc: Global,
    frames: &mut Frames,
    members: &Vec<Member>,
    answer: &Result<Receipt, StoreFault>,
    save: &SaveAnswer,
) -> Result<(), Memory>
    ensures { OnOk result (frames.new ≡ frames.old ++ told_view (views_of members.now.items) (ending_frame answer.now save.now.number) save.now.view) }
{
    let Some(id) = save.view else {
        return Ok(());
    };
    let frame = ending_frame(alloc, answer, save.number)?;
    tell_view(frames, members, id, frame)
}

/// The frames that tell the views of these saves how their put ended.
fn ending_frames(
    alloc: Global,
    members: &Vec<Member>,
    answer: &Result<Receipt, StoreFault>,
    given: &[SaveAnswer],
) -> Result<Frames, Memory>
    ensures { IfOk result (λ frames. frames ≡ ending_frames (views_of members.now.items) answer.now given.now) }
{
    let mut frames = ListOf::new(alloc);
    for save in given {
        tell_ending(alloc, &mut frames, members, answer, save)?;
    }
    Ok(frames)
}

impl<K: Kit> Core<K> {
    /// Whether a save is ready to be served.
    pub(crate) fn has_ready_save(&self) -> bool
        ensures { result ≡ has_ready_save self.now.document }
    {
        self.saves.is_ready(self.inputs.applied)
    }

    /// The ready saves are served: those that need no put are answered, for the others one put of the
    /// document as it is now begins.
    pub(crate) fn serve(self) -> Result<(Core<K>, Outs<K::Scene>), Memory>
        requires { has_ready_save self.document ≡ true }
        ensures { IfOk result (λ r. DoesNext K.rules K.cut self (Worked r.1) r.0) }
    {
        let alloc = self.allocator();
        let Core {
            mut kit,
            source,
            inputs,
            views,
            jobs,
            tiles,
            mut saves,
        } = self;
        let text = kit.save_text(alloc)?;
        let content = Bytes::from_vec(text)?;
        let started = saves.start(inputs.applied, &source.file, content)?;
        let unmodified = started.unmodified.as_slice();
        let frames = unmodified_frames(alloc, &views.members, inputs.applied, unmodified)?;
        let errands = errands_of(alloc, started.errand)?;
        let core = Core {
            kit,
            source,
            inputs,
            views,
            jobs,
            tiles,
            saves,
        };
        let outs = Outs {
            frames,
            jobs: ListOf::new(alloc),
            errands,
        };
        Ok((core, outs))
    }

    /// The store answered an errand. Where it is that of the put under way the put goes, and each save that
    /// it was for is answered; else nothing changes.
    pub(crate) fn put_done(
        self,
        ticket: Ticket,
        answer: &Result<Receipt, StoreFault>,
    ) -> Result<(Core<K>, Outs<K::Scene>), Memory>
        ensures { IfOk result (λ r. Moves K.rules K.cut self (PutAnswered ticket.0 answer.now) r.1 r.0) }
    {
        let alloc = self.allocator();
        let Core {
            kit,
            source,
            inputs,
            views,
            jobs,
            tiles,
            mut saves,
        } = self;
        let given = saves.answer(ticket, receipt_of(answer))?;
        let frames = ending_frames(alloc, &views.members, answer, given.as_slice())?;
        let core = Core {
            kit,
            source,
            inputs,
            views,
            jobs,
            tiles,
            saves,
        };
        Ok((core, frames_only(alloc, frames)))
    }

    /// The token of the errand that the store answered by a receipt for the put under way.
    pub(crate) fn lock_token(
        &self,
        ticket: Ticket,
        answer: &Result<Receipt, StoreFault>,
    ) -> Option<&Token>
        ensures { option_copied result ≡ lock_token ticket.0 answer.now self.now.document.saving }
    {
        match answer {
            Ok(receipt) => self.saves.answered_token(ticket, Some(receipt)),
            Err(_) => None,
        }
    }
}
