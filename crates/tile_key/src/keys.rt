//! `TileKey` and the words that name one.
ghost use Rattle.std.specs.Prelude.{◌≡◌};
ghost use Rattle.tile_key.specs.Places.{is_key, is_key_side, key_at, look_of, rect_of_place};
ghost use Rattle.tile_key.specs.Words.{place_of};

use cool_base::Rect;
use std::cmp::Ordering;
use std::marker::Model;

/// The words of a tile, as a message has them: any numbers.
#[derive(Clone, Copy, Debug, PartialEq, Eq)]
pub struct TileWords {
    pub part: u32,
    pub width: u32,
    pub height: u32,
    pub tileposx: u32,
    pub tileposy: u32,
    pub tilewidth: u32,
    pub tileheight: u32,
    pub nviewid: u32,
}

/// The key of a tile: 1 to 256 pixels and 15 to 61,440 twips wide and high, at multiples of its twip
/// size up to 2,147,483,647, in the look 0 or 1. The order is key order.
#[derive(Clone, Copy, Debug, PartialEq, Eq, PartialOrd, Ord, Hash)]
pub struct TileKey {
    part: u32,
    posy: u32,
    posx: u32,
    width: u32,
    height: u32,
    tilewidth: u32,
    tileheight: u32,
    nviewid: u32,
}

impl Model for TileKey {
    ghost use Rattle.tile_key.specs.Places.{Place, IsKey};

    ghost Value = { Place };

    ghost view = { λ a. record { part = a.part; width = a.width; height = a.height; posx = a.posx; posy = a.posy; tilewidth = a.tilewidth; tileheight = a.tileheight; nviewid = a.nviewid } };

    ghost invariant = { λ a. IsKey (record { part = a.part; width = a.width; height = a.height; posx = a.posx; posy = a.posy; tilewidth = a.tilewidth; tileheight = a.tileheight; nviewid = a.nviewid }) };

    ghost inverse = { λ p. record { part = p.part; posy = p.posy; posx = p.posx; width = p.width; height = p.height; tilewidth = p.tilewidth; tileheight = p.tileheight; nviewid = p.nviewid } };
}

/// The key that the words name; None exactly where a width or height is outside 1 to 256, a twip
/// size outside 15 to 61,440, or a position above 2,147,483,647 or no multiple of its twip size.
#[tactic(auto, using(crate::proofs::PlaceFacts::facts))]
pub fn key_of(words: &TileWords) -> Option<TileKey>
    ensures { result ≡ key_at (place_of words.now) }
{
    if !is_key(words) {
        return None;
    }
    Some(TileKey {
        part: words.part,
        posy: words.tileposy,
        posx: words.tileposx,
        width: words.width,
        height: words.height,
        tilewidth: words.tilewidth,
        tileheight: words.tileheight,
        nviewid: look_of(words.nviewid),
    })
}

/// The look that a number names: 1 means 1, the one without grid lines; every other number counts as
/// 0, the one with them.
pub fn look_of(nviewid: u32) -> u32
    ensures { result ≡ look_of nviewid }
{
    if nviewid == 1 { 1 } else { 0 }
}

fn is_key(words: &TileWords) -> bool
    ensures { result ≡ is_key (place_of words.now) }
{
    is_key_side(words.width, words.tilewidth, words.tileposx)
        && is_key_side(words.height, words.tileheight, words.tileposy)
}

fn is_key_side(pixels: u32, twips: u32, position: u32) -> bool
    ensures { result ≡ is_key_side pixels twips position }
{
    1 <= pixels
        && pixels <= 256
        && 15 <= twips
        && twips <= 61_440
        && position <= 2_147_483_647
        && position % twips == 0
}

/// The points of the key in its part.
pub fn rect_of(key: &TileKey) -> Rect
    ensures { result ≡ rect_of_place key.now }
{
    Rect {
        x: key.posx,
        y: key.posy,
        w: key.tilewidth,
        h: key.tileheight,
    }
}

/// The key of one pixel and 15 twips at the origin of part 0, for the unused places of a list.
impl Default for TileKey {
    ghost use Rattle.std.specs.Prelude.{◌≡◌};

    ghost is_default = { λ k. k ≡ record { part = 0; width = 1; height = 1; posx = 0; posy = 0; tilewidth = 15; tileheight = 15; nviewid = 0 } };

    fn default() -> TileKey {
        TileKey {
            part: 0,
            posy: 0,
            posx: 0,
            width: 1,
            height: 1,
            tilewidth: 15,
            tileheight: 15,
            nviewid: 0,
        }
    }
}

impl TileKey {
    ghost use Rattle.std.specs.Prelude.{◌≡◌, ◌↔◌, IsTrue};
    ghost use Rattle.tile_key.specs.Places.{IsKey, key_order, same_place};
    ghost use Rattle.tile_key.specs.Words.{place_of};

    /// The part.
    pub fn part(&self) -> u32
        ensures value { result ≡ self.now.part }
        ensures form { IsKey self.now }
    {
        self.part
    }

    /// The width in pixels.
    pub fn width(&self) -> u32
        ensures value { result ≡ self.now.width }
        ensures form { IsKey self.now }
    {
        self.width
    }

    /// The height in pixels.
    pub fn height(&self) -> u32
        ensures value { result ≡ self.now.height }
        ensures form { IsKey self.now }
    {
        self.height
    }

    /// The left edge in twips.
    pub fn posx(&self) -> u32
        ensures value { result ≡ self.now.posx }
        ensures form { IsKey self.now }
    {
        self.posx
    }

    /// The upper edge in twips.
    pub fn posy(&self) -> u32
        ensures value { result ≡ self.now.posy }
        ensures form { IsKey self.now }
    {
        self.posy
    }

    /// The width in twips.
    pub fn tilewidth(&self) -> u32
        ensures value { result ≡ self.now.tilewidth }
        ensures form { IsKey self.now }
    {
        self.tilewidth
    }

    /// The height in twips.
    pub fn tileheight(&self) -> u32
        ensures value { result ≡ self.now.tileheight }
        ensures form { IsKey self.now }
    {
        self.tileheight
    }

    /// The look.
    pub fn nviewid(&self) -> u32
        ensures value { result ≡ self.now.nviewid }
        ensures form { IsKey self.now }
    {
        self.nviewid
    }

    /// How the two keys stand in key order.
    pub fn compare(&self, other: &TileKey) -> Ordering
        ensures { result ≡ key_order self.now other.now }
    {
        self.cmp(other)
    }

    /// Whether the two keys are one.
    pub fn is_same(&self, other: &TileKey) -> bool
        ensures value { result ≡ same_place self.now other.now }
        ensures same { IsTrue result ↔ (self.now ≡ other.now) }
    {
        self == other
    }

    /// The key that the words name, which are within its bounds.
    pub(crate) fn of_words(words: TileWords) -> TileKey
        requires { IsKey (place_of words) }
        ensures { result ≡ place_of words }
    {
        TileKey {
            part: words.part,
            posy: words.tileposy,
            posx: words.tileposx,
            width: words.width,
            height: words.height,
            tilewidth: words.tilewidth,
            tileheight: words.tileheight,
            nviewid: look_of(words.nviewid),
        }
    }

    /// The words that name the key.
    pub fn words(&self) -> TileWords
        ensures value { place_of result ≡ self.now }
        ensures form { IsKey self.now }
    {
        TileWords {
            part: self.part,
            width: self.width,
            height: self.height,
            tileposx: self.posx,
            tileposy: self.posy,
            tilewidth: self.tilewidth,
            tileheight: self.tileheight,
            nviewid: self.nviewid,
        }
    }
}
