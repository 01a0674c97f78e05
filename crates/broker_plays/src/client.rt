//! `Client`: what a browser knows of its view, and the pictures that it was last sent.
use bytes::Bytes;
use cool_base::{Memory, Rect};
use kit_trait::{Input, Kit, Scene};
use std::alloc::Global;
use tile_key::{Area, TileKey, Zoom, visible};

/// A view: where it stands, and what it looks at.
#[derive(Clone, Copy)]
pub(crate) struct Client {
    pub(crate) id: u32,
    pub(crate) can_write: bool,
    pub(crate) part: u32,
    pub(crate) zoom: Zoom,
    pub(crate) area: Rect,
}

/// The picture of a key that a view was last sent.
#[derive(Drop)]
pub(crate) struct Tile {
    pub(crate) view: u32,
    pub(crate) key: TileKey,
    pub(crate) pixels: Bytes,
}

/// A view as it joins.
pub(crate) fn joined(id: u32, can_write: bool) -> Option<Client> {
    Some(Client {
        id,
        can_write,
        part: 0,
        zoom: Zoom::read(256, 256, 3_840, 3_840, 0)?,
        area: Rect {
            x: 0,
            y: 0,
            w: 0,
            h: 0,
        },
    })
}

/// The rectangle, where its numbers are small.
pub(crate) fn rect(x: u32, y: u32, w: u32, h: u32) -> Option<Rect> {
    if x > 65_535 || y > 65_535 || w > 65_535 || h > 65_535 {
        return None;
    }
    Some(Rect { x, y, w, h })
}

/// The document of the file after these inputs, without a broker. None where it can't be made.
pub(crate) fn afresh<K: Kit>(
    alloc: Global,
    file: &[u8],
    inputs: &[Input],
) -> Result<Option<K>, Memory> {
    let Ok(mut kit) = K::load(alloc, file) else {
        return Ok(None);
    };
    for input in inputs {
        if input.part >= kit.parts() {
            return Ok(None);
        }
        let _damage = kit.input(alloc, input)?;
    }
    Ok(Some(kit))
}

// The picture of the key alone.
fn painted<K: Kit>(alloc: Global, kit: &mut K, key: &TileKey) -> Result<Option<Bytes>, Memory> {
    let area = Area::of_key(key);
    if area.part() >= kit.parts() {
        return Ok(None);
    }
    let scene = kit.scene(alloc, &area)?;
    Ok(Some(scene.paint(alloc)?.rgba))
}

// The keys that the view sees.
fn seen<K: Kit>(alloc: Global, kit: &K, view: &Client) -> Result<Vec<TileKey>, Memory> {
    if view.part >= kit.parts() {
        return Ok(Vec::new(alloc));
    }
    let size = kit.size(view.part);
    match visible(alloc, view.part, &view.zoom, &view.area, &size) {
        Ok(keys) => Ok(keys),
        Err(_) => Ok(Vec::new(alloc)),
    }
}

/// The picture of the key that the view was last sent.
fn last<'a>(tiles: &'a [Tile], view: u32, key: &TileKey) -> Option<&'a Bytes> {
    for tile in tiles {
        if tile.view == view && tile.key.is_same(key) {
            return Some(&tile.pixels);
        }
    }
    None
}

/// How many keys the view sees, and how many of them it was last sent as the document shows them.
pub(crate) fn compared<K: Kit>(
    alloc: Global,
    kit: &mut K,
    view: &Client,
    tiles: &[Tile],
) -> Result<(usize, usize), Memory> {
    let keys = seen(alloc, kit, view)?;
    let mut right = 0usize;
    for key in &keys {
        let wanted = painted(alloc, kit, key)?;
        if let (Some(sent), Some(wanted)) = (last(tiles, view.id, key), wanted) {
            if sent.as_slice() == wanted.as_slice() {
                right = right.wrapping_add(1);
            }
        }
    }
    Ok((keys.len(), right))
}
