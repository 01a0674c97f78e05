//! Tiles are sent to the views, and offered to them.
ghost use Rattle.std.specs.Prelude.{◌≡◌, ◌++◌, [], ◌∷◌, true, length, map, OnOk, IfOk};
ghost use Rattle.std.specs.List.{flat_map};
ghost use Rattle.view_session.specs.Viewing.{is_due};
ghost use Rattle.broker_core.specs.Serving.{has_room, takes};
ghost use Rattle.broker_core.specs.Sending.{member_sent, sent_frame, offered, frames_for, all_offered, all_frames, is_present, ready_tiles};

use crate::members::Member;
use bytes::Bytes;
use cool_base::{ListOf, Memory, ViewId};
use cool_frame::Frame;
use kit_trait::Pixels;
use std::alloc::Global;
use tile_cache::KeyEnd;
use tile_key::TileKey;

/// Frames in the order in which they are given, each with the view that it goes to.
pub(crate) type Frames = ListOf<(ViewId, Frame)>;

/// A tile that is there: its key, whether it is the present one, and its shared pixels.
#[derive(Drop)]
pub(crate) struct Ready {
    pub(crate) key: TileKey,
    pub(crate) current: bool,
    pub(crate) rgba: Bytes,
}

/// The tiles of a job's keys, by what became of each and by its part of the picture. The pixels are shared.
pub(crate) fn ready_tiles(
    alloc: Global,
    keys: &[TileKey],
    ends: &[KeyEnd],
    parts: &[Pixels],
) -> Result<Vec<Ready>, Memory>
    requires ends { length ends.now ≡ length keys.now }
    requires parts { length parts.now ≡ length keys.now }
    ensures { IfOk result (λ tiles. tiles.items ≡ ready_tiles keys.now ends.now parts.now) }
{
    let mut tiles = Vec::new(alloc);
    for i in 0..keys.len() {
        let end = ends[i];
        let rgba = parts[i].rgba.clone()?;
        tiles.push(Ready {
            key: keys[i],
            current: is_present(&end),
            rgba,
        })?;
    }
    Ok(tiles)
}

/// Whether a key's picture is the present one.
fn is_present(end: &KeyEnd) -> bool
    ensures { result ≡ is_present end.now }
{
    match end {
        KeyEnd::Kept => true,
        KeyEnd::Older => false,
    }
}

impl Member {
    /// Whether the view takes a painted tile of the key in this version: it is no step back, the key is
    /// due, and there is room.
    fn takes(&self, key: &TileKey, version: u64) -> bool
        ensures { result ≡ takes key.now version self.now.view }
    {
        if !self.view.is_due(key) || self.view.room() == 0 {
            return false;
        }
        match self.view.version(key) {
            None => true,
            Some(had) => had < version || (self.view.is_asked(key) && had <= version),
        }
    }

    /// Sends a tile in this version: its frame is added, which shares the pixels. `Memory` also where the
    /// view has no number left for it.
    pub(crate) fn send(
        &mut self,
        frames: &mut Frames,
        version: u64,
        tile: &Ready,
    ) -> Result<(), Memory>
        requires room { has_room self.old.view ≡ true }
        requires due { is_due self.old.view tile.now.key ≡ true }
        ensures member { OnOk result (self.new ≡ member_sent version tile.now self.old) }
        ensures frames { OnOk result (frames.new ≡ frames.old ++ sent_frame version tile.now self.old ∷ []) }
    {
        if !self.view.can_number() {
            return Err(Memory);
        }
        let pixels = tile.rgba.clone()?;
        let wid = self.view.sent(&tile.key, version, tile.current);
        frames.push((
            ViewId(self.id),
            Frame::Tile {
                key: tile.key,
                ver: version,
                wid,
                pixels,
            },
        ))
    }

    /// Offers a painted tile: its frame is added where the view takes it.
    fn offer(&mut self, frames: &mut Frames, version: u64, tile: &Ready) -> Result<(), Memory>
        ensures member { OnOk result (self.new ≡ offered version tile.now self.old) }
        ensures frames { OnOk result (frames.new ≡ frames.old ++ frames_for version tile.now self.old) }
    {
        if self.takes(&tile.key, version) {
            self.send(frames, version, tile)?;
        }
        Ok(())
    }
}

/// Offers a painted tile to every view, in order: the frames of those that take it are added.
fn offer(
    members: &mut Vec<Member>,
    frames: &mut Frames,
    version: u64,
    tile: &Ready,
) -> Result<(), Memory>
    ensures members { OnOk result (members.new.items ≡ map (offered version tile.now) members.old.items) }
    ensures frames { OnOk result (frames.new ≡ frames.old ++ flat_map (frames_for version tile.now) members.old.items) }
{
    for member in members.iter_mut() {
        member.offer(frames, version, tile)?;
    }
    Ok(())
}

/// Offers painted tiles to the views, one after the other, each to every view in order: the frames of those
/// that take one.
pub(crate) fn offer_all(
    alloc: Global,
    members: &mut Vec<Member>,
    version: u64,
    tiles: &[Ready],
) -> Result<Frames, Memory>
    ensures members { OnOk result (members.new.items ≡ all_offered version tiles.now members.old.items) }
    ensures frames { IfOk result (λ frames. frames ≡ all_frames version tiles.now members.old.items) }
{
    let mut frames = ListOf::new(alloc);
    for tile in tiles {
        offer(members, &mut frames, version, tile)?;
    }
    Ok(frames)
}
