//! `Zoom`.
ghost use Rattle.std.specs.Prelude.{◌≡◌, ◌*◌, ◌≤◌, IsTrue, Some};
ghost use Rattle.tile_key.specs.Places.{Scale, look_of, zoom_of, is_zoom};
ghost use Rattle.tile_key.specs.Visible.{tile_in};

use crate::keys::{TileKey, TileWords, key_of, look_of};
use std::marker::Model;

/// The size and look of a view's tiles: 1 to 256 pixels, 15 to 61,440 twips, 0 or 1.
#[derive(Clone, Copy, Debug, PartialEq, Eq)]
pub struct Zoom {
    pixel_w: u32,
    pixel_h: u32,
    twip_w: u32,
    twip_h: u32,
    nviewid: u32,
}

impl Model for Zoom {
    ghost use Rattle.std.specs.Prelude.{IsTrue};
    ghost use Rattle.tile_key.specs.Places.{Scale, is_zoom};

    ghost Value = { Scale };

    ghost view = { λ a. record { pixel_w = a.pixel_w; pixel_h = a.pixel_h; twip_w = a.twip_w; twip_h = a.twip_h; nviewid = a.nviewid } };

    ghost invariant = { λ a. IsTrue (is_zoom (record { pixel_w = a.pixel_w; pixel_h = a.pixel_h; twip_w = a.twip_w; twip_h = a.twip_h; nviewid = a.nviewid })) };

    ghost inverse = { λ z. record { pixel_w = z.pixel_w; pixel_h = z.pixel_h; twip_w = z.twip_w; twip_h = z.twip_h; nviewid = z.nviewid } };
}

impl Zoom {
    /// The zoom of these five numbers; None exactly where at position 0, 0 they are no key.
    pub fn read(pixel_w: u32, pixel_h: u32, twip_w: u32, twip_h: u32, nviewid: u32) -> Option<Zoom>
        ensures { result ≡ zoom_of (record { pixel_w = pixel_w; pixel_h = pixel_h; twip_w = twip_w; twip_h = twip_h; nviewid = look_of nviewid }) }
    {
        let _tile = key_of(&TileWords {
            part: 0,
            width: pixel_w,
            height: pixel_h,
            tileposx: 0,
            tileposy: 0,
            tilewidth: twip_w,
            tileheight: twip_h,
            nviewid,
        })?;
        Some(Zoom {
            pixel_w,
            pixel_h,
            twip_w,
            twip_h,
            nviewid: look_of(nviewid),
        })
    }

    /// The width of a tile in pixels.
    pub fn pixel_w(&self) -> u32
        ensures value { result ≡ self.now.pixel_w }
        ensures form { IsTrue (is_zoom self.now) }
    {
        self.pixel_w
    }

    /// The height of a tile in pixels.
    pub fn pixel_h(&self) -> u32
        ensures value { result ≡ self.now.pixel_h }
        ensures form { IsTrue (is_zoom self.now) }
    {
        self.pixel_h
    }

    /// The width of a tile in twips.
    pub fn twip_w(&self) -> u32
        ensures value { result ≡ self.now.twip_w }
        ensures form { IsTrue (is_zoom self.now) }
    {
        self.twip_w
    }

    /// The height of a tile in twips.
    pub fn twip_h(&self) -> u32
        ensures value { result ≡ self.now.twip_h }
        ensures form { IsTrue (is_zoom self.now) }
    {
        self.twip_h
    }

    /// The look.
    pub fn nviewid(&self) -> u32
        ensures value { result ≡ self.now.nviewid }
        ensures form { IsTrue (is_zoom self.now) }
    {
        self.nviewid
    }

    /// The key of the zoom's tile in a column and a row, counted from 0, which begins at 2,147,483,647
    /// or before on both sides.
    #[tactic(auto, using(crate::proofs::VisibleFacts::tile_facts, crate::proofs::PlaceFacts::look_same))]
    pub fn key(&self, part: u32, column: u32, row: u32) -> TileKey
        requires columns { column * self.now.twip_w ≤ 2147483647 }
        requires rows { row * self.now.twip_h ≤ 2147483647 }
        ensures { result ≡ tile_in part self.now column row }
    {
        TileKey::of_words(TileWords {
            part,
            width: self.pixel_w,
            height: self.pixel_h,
            tileposx: column * self.twip_w,
            tileposy: row * self.twip_h,
            tilewidth: self.twip_w,
            tileheight: self.twip_h,
            nviewid: self.nviewid,
        })
    }
}
