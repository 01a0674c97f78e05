//! A message changes what a view sees, what it asks for, or what it has acknowledged.
ghost use Rattle.std.specs.Prelude.{◌≡◌, ◌≢◌, ◌<◌, ℕ, List, IfOk, OnOk, Err, codes, option_map};
ghost use Rattle.cool_base.specs.Points.{Extent};
ghost use Rattle.document_machine.specs.Due.{seen_keys};
ghost use Rattle.document_machine.specs.Message.{becomes, cancels, acknowledged, seeing_effect, zooming_effect, going_effect, asking_effect};
ghost use Rattle.save_core.specs.declared.values.Save.{Save as Waiting};
ghost use Rattle.tile_key.specs.Places.{zoom_of};
ghost use Rattle.view_session.specs.declared.views.ViewFault.TheVariants.{Memory as NoMemory};
ghost use Rattle.broker_core.specs.Hearing.{limits_in, sizes_in, outcome_of, Hears};
ghost use Rattle.broker_core.specs.Members.{view_of};

use crate::hearing::{Outcome, refuse};
use crate::members::Member;
use cool_base::{Memory, Rect, Wid};
use cool_frame::ErrorKind;
use kit_trait::Kit;
use std::alloc::Global;
use tile_key::{TileKey, Zoom};
use view_session::ViewFault;

/// What comes of a change of a view by this command.
fn outcome_of(
    alloc: Global,
    command: &str,
    change: Result<(), ViewFault>,
) -> Result<Outcome, Memory>
    ensures outcome { IfOk result (λ outcome. outcome ≡ outcome_of command.now change) }
    ensures memory { OnOk result (change ≢ Err NoMemory) }
{
    match change {
        Ok(()) => Ok(Outcome::Nothing),
        Err(ViewFault::TooLarge) => refuse(alloc, command, ErrorKind::TooLarge),
        Err(ViewFault::AskedFull) => refuse(alloc, command, ErrorKind::AskedFull),
        Err(ViewFault::Memory) => Err(Memory),
    }
}

impl Member {
    /// The view asks for these keys too, by this command; without keys it is refused.
    pub(crate) fn ask(
        &mut self,
        alloc: Global,
        command: &str,
        keys: Option<Vec<TileKey>>,
    ) -> Result<Outcome, Memory>
        ensures { IfOk result (λ outcome. (sizes : ℕ → Extent) → self.old.view.visible ≡ seen_keys sizes (view_of self.old) → Hears sizes self.old (asking_effect (view_of self.old) command.now (option_map (λ list. list.items) keys)) outcome self.new) }
    {
        match keys {
            None => refuse(alloc, command, ErrorKind::BadTile),
            Some(keys) => {
                let change = self.view.ask(keys.as_slice());
                outcome_of(alloc, command, change)
            }
        }
    }

    /// The view asks for nothing that it doesn't see.
    pub(crate) fn cancel(&mut self) -> Outcome
        ensures { (sizes : ℕ → Extent) → self.old.view.visible ≡ seen_keys sizes (view_of self.old) → Hears sizes self.old (becomes (cancels sizes (view_of self.old))) result self.new }
    {
        self.view.cancel();
        Outcome::Nothing
    }

    /// The view looks at another area of its part.
    pub(crate) fn look<K: Kit>(
        &mut self,
        alloc: Global,
        kit: &K,
        area: &Rect,
    ) -> Result<Outcome, Memory>
        requires part { self.old.view.part < K.rules.parts (K.rules.body (K.contents kit.now)) }
        requires seen { self.old.view.visible ≡ seen_keys (sizes_in K.rules (K.contents kit.now)) (view_of self.old) }
        ensures { IfOk result (λ outcome. Hears (sizes_in K.rules (K.contents kit.now)) self.old (seeing_effect (sizes_in K.rules (K.contents kit.now)) (view_of self.old) (codes "clientvisiblearea") (record (view_of self.old) { area = area.now })) outcome self.new) }
    {
        let size = kit.size(self.view.part());
        let change = self.view.set_area(area, &size);
        outcome_of(alloc, "clientvisiblearea", change)
    }

    /// The view's tiles have another size; without one it is refused.
    pub(crate) fn scale<K: Kit>(
        &mut self,
        alloc: Global,
        kit: &K,
        zoom: Option<Zoom>,
    ) -> Result<Outcome, Memory>
        requires part { self.old.view.part < K.rules.parts (K.rules.body (K.contents kit.now)) }
        requires seen { self.old.view.visible ≡ seen_keys (sizes_in K.rules (K.contents kit.now)) (view_of self.old) }
        ensures { IfOk result (λ outcome. Hears (sizes_in K.rules (K.contents kit.now)) self.old (zooming_effect (sizes_in K.rules (K.contents kit.now)) (view_of self.old) zoom) outcome self.new) }
    {
        match zoom {
            None => refuse(alloc, "clientzoom", ErrorKind::BadTile),
            Some(zoom) => {
                let size = kit.size(self.view.part());
                let change = self.view.set_zoom(&zoom, &size);
                outcome_of(alloc, "clientzoom", change)
            }
        }
    }

    /// The view goes to another part, where the document has it.
    pub(crate) fn go<K: Kit>(
        &mut self,
        alloc: Global,
        kit: &K,
        part: u32,
    ) -> Result<Outcome, Memory>
        requires seen { self.old.view.visible ≡ seen_keys (sizes_in K.rules (K.contents kit.now)) (view_of self.old) }
        ensures { IfOk result (λ outcome. (count : ℕ) (saves : List Waiting) → Hears (sizes_in K.rules (K.contents kit.now)) self.old (going_effect (limits_in K.rules (K.contents kit.now) count saves) (view_of self.old) part) outcome self.new) }
    {
        if part >= kit.parts() {
            return refuse(alloc, "setclientpart", ErrorKind::BadTile);
        }
        let size = kit.size(part);
        let change = self.view.set_part(part, &size);
        outcome_of(alloc, "setclientpart", change)
    }

    /// The tiles with these numbers leave the view's window; other numbers change nothing.
    pub(crate) fn acknowledge(&mut self, wids: &[u64]) -> Outcome
        ensures { (sizes : ℕ → Extent) → self.old.view.visible ≡ seen_keys sizes (view_of self.old) → Hears sizes self.old (becomes (acknowledged wids.now (view_of self.old))) result self.new }
    {
        for wid in wids {
            self.view.processed(Wid(*wid));
        }
        Outcome::Nothing
    }
}

/// The zoom of these numbers; None exactly where they make none.
#[tactic(auto, using(crate::proofs::Looks::no_look, crate::proofs::Looks::same_look))]
pub(crate) fn zoom_of(
    pixel_w: u32,
    pixel_h: u32,
    twip_w: u32,
    twip_h: u32,
    nviewid: u32,
) -> Option<Zoom>
    ensures { result ≡ zoom_of (record { pixel_w = pixel_w; pixel_h = pixel_h; twip_w = twip_w; twip_h = twip_h; nviewid = nviewid }) }
{
    if nviewid > 1 {
        return None;
    }
    Zoom::read(pixel_w, pixel_h, twip_w, twip_h, nviewid)
}
