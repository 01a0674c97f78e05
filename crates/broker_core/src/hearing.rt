//! A view says a text: what comes of it.
ghost use Rattle.std.specs.Prelude.{◌≡◌, ◌<◌, ◌++◌, ℕ, List, length, map, None, IsSome, IfOk, OnOk};
ghost use Rattle.cool_frame.specs.declared.frame.Frame.TheVariants.{Error as ErrorFrame};
ghost use Rattle.cool_base.specs.Points.{Extent};
ghost use Rattle.document_machine.specs.Due.{seen_keys};
ghost use Rattle.document_machine.specs.Event.{Said};
ghost use Rattle.document_machine.specs.Goes.{Moves};
ghost use Rattle.document_machine.specs.Message.{effect_of, message_effect, input_effect, saving_effect, key_effect, mouse_effect, with_save, with_token};
ghost use Rattle.document_machine.specs.Outputs.{named};
ghost use Rattle.document_machine.specs.State.{find_view};
ghost use Rattle.save_core.specs.declared.values.Save.{Save as Waiting};
ghost use Rattle.broker_core.specs.Hearing.{limits_in, sizes_in, effect_in, frames_in, inputs_in, save_in, Hears};
ghost use Rattle.broker_core.specs.Members.{view_of};
ghost use Rattle.broker_core.specs.declared.hearing.Outcome.TheVariants.{Answer as AnswerOutcome};

use crate::changing::zoom_of;
use crate::core_of::{Core, Frames, frames_only};
use crate::joining::one_frame;
use crate::members::{Member, member_at};
use cool_base::{ListOf, Memory, TextOf, Token, ViewId};
use cool_frame::{ErrorKind, Frame};
use cool_message::{
    ClientMessage, KeyKind, MessageFault, MouseKind, command_of, keys_of, read_message,
};
use document_machine::{MOST_INPUTS, Outs};
use kit_trait::{Input, Kit, What};
use save_core::Saves;
use std::alloc::Global;

/// What comes of a message, beside what its view becomes.
#[derive(Drop)]
pub(crate) enum Outcome {
    /// Nothing.
    Nothing,
    /// The view gets this frame.
    Answer(Frame),
    /// This input is accepted.
    Accepted(Input),
    /// A save waits; whether it needs no put where nothing is new.
    Waits(bool),
}

/// The error frame of a refused command.
pub(crate) fn refuse(alloc: Global, command: &str, kind: ErrorKind) -> Result<Outcome, Memory>
    ensures { IfOk result (λ outcome. outcome ≡ AnswerOutcome (ErrorFrame command.now kind None)) }
{
    Ok(Outcome::Answer(Frame::Error {
        cmd: TextOf::of(String::from_str(alloc, command)?),
        kind,
        code: None,
    }))
}

impl Member {
    /// The view says a text, where so many inputs are accepted and these saves wait: its one effect.
    #[tactic(auto, using(crate::proofs::Changes::same_hears, crate::proofs::Changes::refuses_hears))]
    fn hear<K: Kit>(
        &mut self,
        alloc: Global,
        kit: &K,
        count: usize,
        saves: &Saves,
        text: &[u8],
    ) -> Result<Outcome, Memory>
        requires part { self.old.view.part < K.rules.parts (K.rules.body (K.contents kit.now)) }
        requires seen { self.old.view.visible ≡ seen_keys (sizes_in K.rules (K.contents kit.now)) (view_of self.old) }
        ensures { IfOk result (λ outcome. Hears (sizes_in K.rules (K.contents kit.now)) self.old (effect_of (limits_in K.rules (K.contents kit.now) count saves.now.saves) (view_of self.old) text.now) outcome self.new) }
    {
        match read_message(alloc, text) {
            Ok(message) => self.answer(alloc, kit, count, saves, message),
            Err(MessageFault::Memory) => Err(Memory),
            Err(_) => refuse(alloc, command_of(text), ErrorKind::BadMessage),
        }
    }

    /// The one effect of a message.
    #[tactic(auto, using(crate::proofs::Changes::same_hears, crate::proofs::Changes::refuses_hears))]
    fn answer<K: Kit>(
        &mut self,
        alloc: Global,
        kit: &K,
        count: usize,
        saves: &Saves,
        message: ClientMessage,
    ) -> Result<Outcome, Memory>
        requires part { self.old.view.part < K.rules.parts (K.rules.body (K.contents kit.now)) }
        requires seen { self.old.view.visible ≡ seen_keys (sizes_in K.rules (K.contents kit.now)) (view_of self.old) }
        ensures { IfOk result (λ outcome. Hears (sizes_in K.rules (K.contents kit.now)) self.old (message_effect (limits_in K.rules (K.contents kit.now) count saves.now.saves) (view_of self.old) message) outcome self.new) }
    {
        match message {
            ClientMessage::CoolClient => Ok(Outcome::Answer(Frame::Server)),
            ClientMessage::Load { url: _ } => refuse(alloc, "load", ErrorKind::AlreadyLoaded),
            ClientMessage::Key { kind, chr, code } => {
                self.key(alloc, count, kind, What::Key { chr, code })
            }
            ClientMessage::Mouse {
                kind,
                x,
                y,
                count: clicks,
                buttons,
                modifier,
            } => {
                let what = What::Mouse {
                    x,
                    y,
                    count: clicks,
                    buttons,
                    modifier,
                };
                self.mouse(alloc, count, kind, what)
            }
            ClientMessage::Tile(words) => {
                let keys = keys_of(alloc, kit.parts(), &ClientMessage::Tile(words))?;
                self.ask(alloc, "tile", keys)
            }
            ClientMessage::TileCombine(words) => {
                let keys = keys_of(alloc, kit.parts(), &ClientMessage::TileCombine(words))?;
                self.ask(alloc, "tilecombine", keys)
            }
            ClientMessage::CancelTiles => Ok(self.cancel()),
            ClientMessage::VisibleArea(area) => self.look(alloc, kit, &area),
            ClientMessage::Zoom {
                pixel_w,
                pixel_h,
                twip_w,
                twip_h,
                nviewid,
            } => self.scale(
                alloc,
                kit,
                zoom_of(pixel_w, pixel_h, twip_w, twip_h, nviewid),
            ),
            ClientMessage::SetPart { part } => self.go(alloc, kit, part),
            ClientMessage::TileProcessed { wids } => Ok(self.acknowledge(wids.get())),
            ClientMessage::Save {
                keep_edit: _,
                skip_unmodified,
            } => self.save(alloc, saves, "save", skip_unmodified),
            ClientMessage::UnoSave => self.save(alloc, saves, "uno", false),
        }
    }

    /// Whether the view may write.
    fn can_write(&self) -> bool
        ensures { result ≡ self.now.view.rights.can_write }
    {
        self.view.rights().can_write
    }

    /// An input of this command, in the part where the view stands.
    fn input(
        &self,
        alloc: Global,
        count: usize,
        command: &str,
        what: What,
    ) -> Result<Outcome, Memory>
        ensures { IfOk result (λ outcome. (saves : List Waiting) (parts : ℕ) (sizes : ℕ → Extent) → effect_in (view_of self.now) outcome ≡ input_effect (record { inputs = count; saves = saves; parts = parts; sizes = sizes }) (view_of self.now) command.now what) }
    {
        if !self.can_write() {
            return refuse(alloc, command, ErrorKind::ReadOnly);
        }
        if MOST_INPUTS <= count {
            return refuse(alloc, command, ErrorKind::InputsFull);
        }
        Ok(Outcome::Accepted(Input {
            view: ViewId(self.id),
            part: self.view.part(),
            what,
        }))
    }

    /// A save of this command, which needs no put with `skip` where nothing is new.
    fn save(
        &self,
        alloc: Global,
        saves: &Saves,
        command: &str,
        skip: bool,
    ) -> Result<Outcome, Memory>
        ensures { IfOk result (λ outcome. (count parts : ℕ) (sizes : ℕ → Extent) → effect_in (view_of self.now) outcome ≡ saving_effect (record { inputs = count; saves = saves.now.saves; parts = parts; sizes = sizes }) (view_of self.now) command.now skip) }
    {
        if !self.can_write() {
            return refuse(alloc, command, ErrorKind::ReadOnly);
        }
        if saves.is_full(Some(ViewId(self.id))) {
            return refuse(alloc, command, ErrorKind::SavesFull);
        }
        Ok(Outcome::Waits(skip))
    }

    /// A key, which is an input where it went down.
    fn key(&self, alloc: Global, count: usize, kind: KeyKind, what: What) -> Result<Outcome, Memory>
        ensures { IfOk result (λ outcome. (saves : List Waiting) (parts : ℕ) (sizes : ℕ → Extent) → effect_in (view_of self.now) outcome ≡ key_effect (record { inputs = count; saves = saves; parts = parts; sizes = sizes }) (view_of self.now) kind what) }
    {
        match kind {
            KeyKind::Input => self.input(alloc, count, "key", what),
            KeyKind::Up => Ok(Outcome::Nothing),
        }
    }

    /// A mouse, which is an input where a button went down.
    fn mouse(
        &self,
        alloc: Global,
        count: usize,
        kind: MouseKind,
        what: What,
    ) -> Result<Outcome, Memory>
        ensures { IfOk result (λ outcome. (saves : List Waiting) (parts : ℕ) (sizes : ℕ → Extent) → effect_in (view_of self.now) outcome ≡ mouse_effect (record { inputs = count; saves = saves; parts = parts; sizes = sizes }) (view_of self.now) kind what) }
    {
        match kind {
            MouseKind::ButtonDown => self.input(alloc, count, "mouse", what),
            MouseKind::ButtonUp => Ok(Outcome::Nothing),
            MouseKind::Move => Ok(Outcome::Nothing),
        }
    }
}

/// What came of a message of this view, where so many inputs were accepted before it: its frames, its input
/// after the accepted ones, with the view's token kept for a final save, and its save among those that wait.
#[tactic(auto, using(crate::proofs::Lists::append_none))]
fn enter(
    alloc: Global,
    id: u32,
    token: &Token,
    outcome: Outcome,
    accepted: &mut Vec<Input>,
    saves: &mut Saves,
) -> Result<Frames, Memory>
    ensures frames { IfOk result (λ frames. frames ≡ map (λ frame. (named id, frame)) (frames_in outcome)) }
    ensures inputs { OnOk result (accepted.new.items ≡ accepted.old.items ++ inputs_in outcome) }
    ensures saves { OnOk result (saves.new ≡ with_save (save_in outcome) id (length accepted.old.items) token.now (with_token (inputs_in outcome) token.now saves.old)) }
{
    match outcome {
        Outcome::Nothing => Ok(ListOf::new(alloc)),
        Outcome::Answer(frame) => one_frame(alloc, id, frame),
        Outcome::Accepted(input) => {
            saves.keep_final(token.copy(alloc)?)?;
            accepted.push(input)?;
            Ok(ListOf::new(alloc))
        }
        Outcome::Waits(skip) => {
            let mark = accepted.len() as u64;
            let token = token.copy(alloc)?;
            // That the view has room for one more was judged before.
            if saves.wait(Some(ViewId(id)), mark, skip, token).is_err() {
                return Err(Memory);
            }
            Ok(ListOf::new(alloc))
        }
    }
}

impl<K: Kit> Core<K> {
    /// The one effect of the text, and its frames.
    pub(crate) fn message(self, id: u32, text: &[u8]) -> Result<(Core<K>, Outs<K::Scene>), Memory>
        requires { IsSome (find_view self.document.views id) }
        ensures { IfOk result (λ r. Moves K.rules K.cut self (Said id text.now) r.1 r.0) }
    {
        let alloc = self.allocator();
        let Core {
            kit,
            source,
            mut inputs,
            mut views,
            jobs,
            tiles,
            mut saves,
        } = self;
        let Some(i) = member_at(&views.members, id) else {
            unreachable!()
        };
        let count = inputs.accepted.len();
        let member = &mut views.members[i];
        let outcome = member.hear(alloc, &kit, count, &saves, text)?;
        let token = &member.view.rights().token;
        let frames = enter(alloc, id, token, outcome, &mut inputs.accepted, &mut saves)?;
        let core = Core {
            kit,
            source,
            inputs,
            views,
            jobs,
            tiles,
            saves,
        };
        Ok((core, frames_only(alloc, frames)))
    }
}
