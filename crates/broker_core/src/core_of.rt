//! `Core`: what a broker keeps until it is spent.
ghost use Rattle.std.specs.Prelude.{◌≡◌, length, true, false, IfOk, OnOk};
ghost use Rattle.std.specs.Option.{is_some};
ghost use Rattle.document_machine.specs.Held.{opening_held};
ghost use Rattle.document_machine.specs.Kept.{IsHeld};
ghost use Rattle.document_machine.specs.Outputs.{frames_only};
ghost use Rattle.document_machine.specs.State.{find_view};

use crate::members::{Member, member_at};
use bytes::Bytes;
use cool_base::{FileId, ListOf, Memory, ViewId};
use cool_frame::Frame;
use document_machine::Outs;
use kit_trait::{Input, Kit, LoadFault};
use save_core::Saves;
use std::alloc::Global;
use std::marker::Model;
use tile_cache::TileCache;
use tile_key::{Area, Group};

/// Frames in the order in which they are given, each with the view that it goes to.
pub(crate) type Frames = ListOf<(ViewId, Frame)>;

/// These frames, no job and no errand.
pub(crate) fn frames_only<S>(alloc: Global, frames: Frames) -> Outs<S>
    ensures { result ≡ frames_only frames }
{
    Outs {
        frames,
        jobs: ListOf::new(alloc),
        errands: ListOf::new(alloc),
    }
}

/// A job that is out: its ticket, the number of inputs that its picture shows, its keys, the area that they
/// fill and the scene of the area.
#[derive(Drop)]
pub(crate) struct OutJob<S> {
    pub(crate) ticket: u64,
    pub(crate) number: u64,
    pub(crate) group: Group,
    pub(crate) area: Area,
    pub(crate) scene: S,
}

impl<S> Model for OutJob<S> {
    ghost use Rattle.document_machine.specs.State.{Job};

    ghost Value = { Job S };

    ghost view = { λ j. record { ticket = j.ticket; number = j.number; keys = j.group; area = j.area; scene = j.scene } };
}

/// The file that a document was loaded from: its id and its bytes.
#[derive(Drop)]
pub(crate) struct Source {
    pub(crate) file: FileId,
    pub(crate) base: Bytes,
}

/// The accepted inputs, and how many of them are applied.
#[derive(Drop)]
pub(crate) struct Inputs {
    pub(crate) accepted: Vec<Input>,
    pub(crate) applied: u64,
}

/// The views in the order of their ids, and the id of the next view.
#[derive(Drop)]
pub(crate) struct Views {
    pub(crate) members: Vec<Member>,
    pub(crate) next: u32,
}

/// A document: the kit holds it after the applied inputs, the cache its painted tiles and the keys of the
/// jobs out. Its methods take it by value, so nothing of it is left after `Memory`.
#[derive(Drop)]
pub(crate) struct Core<K: Kit> {
    pub(crate) kit: K,
    pub(crate) source: Source,
    pub(crate) inputs: Inputs,
    pub(crate) views: Views,
    pub(crate) jobs: Vec<OutJob<K::Scene>>,
    pub(crate) tiles: TileCache,
    pub(crate) saves: Saves,
}

impl<K: Kit> Model for Core<K> {
    ghost use Rattle.document_machine.specs.Held.{Held};
    ghost use Rattle.broker_core.specs.Held.{Holds, held_of};

    ghost Value = { Held K.Scene };

    ghost view = { λ c. held_of c.source.file c.source.base c.inputs.accepted.items c.inputs.applied c.views.members.items c.views.next c.jobs.items c.tiles c.saves };

    ghost invariant = { λ c. Holds K.rules K.cut K.IsSound (K.contents c.kit) c.views.members.items c.tiles (held_of c.source.file c.source.base c.inputs.accepted.items c.inputs.applied c.views.members.items c.views.next c.jobs.items c.tiles c.saves) };
}

impl<K: Kit> Core<K> {
    /// A document as it is loaded from its file.
    pub(crate) fn open(alloc: Global, file: &FileId, base: Bytes) -> Result<Core<K>, LoadFault>
        ensures accepted { OnOk result (K.rules.accepts base ≡ true) }
        ensures ok { IfOk result (λ core. core ≡ opening_held file.now base) }
        ensures bad { result ≡ Err LoadFault.BadFile → K.rules.accepts base ≡ false }
        ensures refused { K.refuses base ≡ true → result ≡ Err LoadFault.BadFile }
    {
        let kit = K::load(alloc, base.as_slice())?;
        let tiles = TileCache::new(alloc)?;
        let saves = Saves::new(alloc)?;
        Ok(Core {
            kit,
            source: Source {
                file: file.copy(),
                base,
            },
            inputs: Inputs {
                accepted: Vec::new(alloc),
                applied: 0,
            },
            views: Views {
                members: Vec::new(alloc),
                next: 0,
            },
            jobs: Vec::new(alloc),
            tiles,
            saves,
        })
    }

    /// What a broker keeps holds of its document and of the tiles that are kept of it.
    pub(crate) fn kept(&self)
        ensures { IsHeld K.rules K.cut self.now }
    {
        // A read opens the invariant, which says it.
        let _applied = self.inputs.applied;
    }

    /// What the document takes its memory from.
    pub(crate) fn allocator(&self) -> Global {
        *self.inputs.accepted.allocator()
    }

    /// Whether the document has this view.
    pub(crate) fn is_live(&self, id: u32) -> bool
        ensures { result ≡ is_some (find_view self.now.document.views id) }
    {
        member_at(&self.views.members, id).is_some()
    }

    /// How many inputs are applied.
    pub(crate) fn applied(&self) -> u64
        ensures { result ≡ self.now.document.applied }
    {
        self.inputs.applied
    }

    /// How many inputs are accepted.
    pub(crate) fn accepted(&self) -> u64
        ensures { result ≡ length self.now.document.journal }
    {
        self.inputs.accepted.len() as u64
    }
}
