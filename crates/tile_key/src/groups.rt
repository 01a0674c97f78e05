//! `Group`: keys that are painted together.
ghost use Rattle.std.specs.Prelude.{◌≡◌, [], ◌∷◌};
ghost use Rattle.tile_key.specs.Places.{place_of_keys};

use crate::areas::Area;
use crate::keys::{TileKey, TileWords};
use arrayvec::ArrayVec;
use std::marker::Model;

/// One to eight keys, each of which begins where the one before it ends and differs from it in tileposx
/// alone.
#[derive(Debug, Drop)]
pub struct Group {
    keys: ArrayVec<TileKey, 8>,
}

impl Model for Group {
    ghost use Rattle.std.specs.Prelude.{List};
    ghost use Rattle.tile_key.specs.Places.{Place, IsGroup};

    ghost Value = { List Place };

    ghost view = { λ a. a.keys.items };

    ghost invariant = { λ a. IsGroup a.keys.items };
}

/// The group of this key alone.
pub fn single(key: &TileKey) -> Group
    ensures { result ≡ key.now ∷ [] }
{
    let mut keys = ArrayVec::new();
    keys.push(*key);
    Group { keys }
}

/// The place that all keys of the group take together.
pub fn area_of(group: &Group) -> Area
    ensures { result ≡ place_of_keys group.now }
{
    group.area()
}

impl Group {
    ghost use Rattle.std.specs.Prelude.{◌≡◌, [], ◌∷◌, ◌++◌, ◌<◌, ◌≤◌, length, slice_get, Some, if◌then◌else◌};
    ghost use Rattle.tile_key.specs.Places.{IsGroup, place_of_keys};

    /// The group of these keys, which are one to eight in a run. It takes no memory.
    #[tactic(auto, using(crate::proofs::GroupFacts::group_facts))]
    pub fn of_keys(keys: &[TileKey]) -> Group
        requires { IsGroup keys.now }
        ensures { result ≡ keys.now }
    {
        let mut copies = ArrayVec::new();
        for key in keys {
            copies.push(*key);
        }
        Group { keys: copies }
    }

    /// The keys, from the left.
    pub fn keys(&self) -> &[TileKey]
        ensures value { result.now ≡ self.now }
        ensures form { IsGroup self.now }
    {
        self.keys.as_slice()
    }

    /// The place that all keys take together.
    #[tactic(auto, using(crate::proofs::GroupFacts::group_facts))]
    pub fn area(&self) -> Area
        ensures { result ≡ place_of_keys self.now }
    {
        let keys = self.keys.as_slice();
        let count = keys.len() as u32;
        let first = keys[0].words();
        Area::of_words(TileWords {
            part: first.part,
            width: count * first.width,
            height: first.height,
            tileposx: first.tileposx,
            tileposy: first.tileposy,
            tilewidth: count * first.tilewidth,
            tileheight: first.tileheight,
            nviewid: first.nviewid,
        })
    }

    /// An equal group. It takes no memory.
    pub fn copy(&self) -> Group
        ensures { result ≡ self.now }
    {
        let mut keys = ArrayVec::new();
        for key in self.keys.as_slice() {
            keys.push(*key);
        }
        Group { keys }
    }
}
