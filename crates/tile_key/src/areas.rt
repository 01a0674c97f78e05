//! `Area`.
ghost use Rattle.std.specs.Prelude.{◌≡◌};
ghost use Rattle.tile_key.specs.Places.{is_area, area_at, rect_of_place, IsArea};
ghost use Rattle.tile_key.specs.Words.{place_of};

use crate::keys::{TileKey, TileWords, look_of};
use cool_base::Rect;
use std::marker::Model;

/// What a scene paints: 1 to 2,048 pixels wide and 1 to 256 high, 1 to 491,520 twips wide and high, at
/// positions up to 2,147,483,647, in the look 0 or 1. The order is key order.
#[derive(Clone, Copy, Debug, PartialEq, Eq, PartialOrd, Ord)]
pub struct Area {
    part: u32,
    posy: u32,
    posx: u32,
    width: u32,
    height: u32,
    tilewidth: u32,
    tileheight: u32,
    nviewid: u32,
}

impl Model for Area {
    ghost use Rattle.tile_key.specs.Places.{Place, IsArea};

    ghost Value = { Place };

    ghost view = { λ a. record { part = a.part; width = a.width; height = a.height; posx = a.posx; posy = a.posy; tilewidth = a.tilewidth; tileheight = a.tileheight; nviewid = a.nviewid } };

    ghost invariant = { λ a. IsArea (record { part = a.part; width = a.width; height = a.height; posx = a.posx; posy = a.posy; tilewidth = a.tilewidth; tileheight = a.tileheight; nviewid = a.nviewid }) };

    ghost inverse = { λ p. record { part = p.part; posy = p.posy; posx = p.posx; width = p.width; height = p.height; tilewidth = p.tilewidth; tileheight = p.tileheight; nviewid = p.nviewid } };
}

impl Area {
    /// The area that the words name; None exactly where one of them is out of its bounds.
    #[tactic(auto, using(crate::proofs::PlaceFacts::facts))]
    pub fn read(words: &TileWords) -> Option<Area>
        ensures { result ≡ area_at (place_of words.now) }
    {
        if !is_area(words) {
            return None;
        }
        Some(Area::of_words(*words))
    }

    /// The area that the words name, which are within its bounds.
    pub fn of_words(words: TileWords) -> Area
        requires { IsArea (place_of words) }
        ensures { result ≡ place_of words }
    {
        Area {
            part: words.part,
            posy: words.tileposy,
            posx: words.tileposx,
            width: words.width,
            height: words.height,
            tilewidth: words.tilewidth,
            tileheight: words.tileheight,
            nviewid: look_of(words.nviewid),
        }
    }

    /// The area of one key.
    pub fn of_key(key: &TileKey) -> Area
        ensures { result ≡ key.now }
    {
        Area::of_words(key.words())
    }

    /// The points of the area in its part.
    pub fn rect(&self) -> Rect
        ensures { result ≡ rect_of_place self.now }
    {
        Rect {
            x: self.posx,
            y: self.posy,
            w: self.tilewidth,
            h: self.tileheight,
        }
    }

    /// The part.
    pub fn part(&self) -> u32
        ensures value { result ≡ self.now.part }
        ensures form { IsArea self.now }
    {
        self.part
    }

    /// The width in pixels.
    pub fn width(&self) -> u32
        ensures value { result ≡ self.now.width }
        ensures form { IsArea self.now }
    {
        self.width
    }

    /// The height in pixels.
    pub fn height(&self) -> u32
        ensures value { result ≡ self.now.height }
        ensures form { IsArea self.now }
    {
        self.height
    }

    /// The left edge in twips.
    pub fn posx(&self) -> u32
        ensures value { result ≡ self.now.posx }
        ensures form { IsArea self.now }
    {
        self.posx
    }

    /// The upper edge in twips.
    pub fn posy(&self) -> u32
        ensures value { result ≡ self.now.posy }
        ensures form { IsArea self.now }
    {
        self.posy
    }

    /// The width in twips.
    pub fn tilewidth(&self) -> u32
        ensures value { result ≡ self.now.tilewidth }
        ensures form { IsArea self.now }
    {
        self.tilewidth
    }

    /// The height in twips.
    pub fn tileheight(&self) -> u32
        ensures value { result ≡ self.now.tileheight }
        ensures form { IsArea self.now }
    {
        self.tileheight
    }

    /// The look.
    pub fn nviewid(&self) -> u32
        ensures value { result ≡ self.now.nviewid }
        ensures form { IsArea self.now }
    {
        self.nviewid
    }

    /// The words that name the area.
    pub fn words(&self) -> TileWords
        ensures value { place_of result ≡ self.now }
        ensures form { IsArea self.now }
    {
        TileWords {
            part: self.part,
            width: self.width,
            height: self.height,
            tileposx: self.posx,
            tileposy: self.posy,
            tilewidth: self.tilewidth,
            tileheight: self.tileheight,
            nviewid: self.nviewid,
        }
    }
}

fn is_area(words: &TileWords) -> bool
    ensures { result ≡ is_area (place_of words.now) }
{
    1 <= words.width
        && words.width <= 2_048
        && 1 <= words.height
        && words.height <= 256
        && 1 <= words.tilewidth
        && words.tilewidth <= 491_520
        && 1 <= words.tileheight
        && words.tileheight <= 491_520
        && words.tileposx <= 2_147_483_647
        && words.tileposy <= 2_147_483_647
}
