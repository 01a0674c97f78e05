//! `combine`.
ghost use Rattle.std.specs.Prelude.{◌≡◌, ◌+◌, ◌<◌, ◌&&◌, nat_eq, length, IfOk};
ghost use Rattle.tile_key.specs.Places.{IsGroup};
ghost use Rattle.tile_combine.specs.Runs.{in_key_order, groups_of, follows};
ghost use Rattle.tile_combine.specs.Front.{front_of};

use cool_base::Memory;
use std::alloc::Global;
use std::collections::BTreeSet;
use tile_key::{Group, TileKey};

/// The most keys of a group.
const MOST: usize = 8;

/// The groups of these keys: the distinct keys in key order are cut into the longest runs of keys, each
/// beginning where the one before it ends and differing from it in tileposx alone, and each run is cut
/// from its left into groups of eight keys, the last of which may be shorter.
#[tactic(auto, using(crate::proofs::FrontFacts::fronts))]
pub fn combine(alloc: Global, keys: &[TileKey]) -> Result<Vec<Group>, Memory>
    ensures { IfOk result (λ groups. groups.items ≡ groups_of (in_key_order keys.now)) }
{
    let ordered = in_key_order(alloc, keys)?;
    let mut groups = Vec::new(alloc);
    let mut rest = ordered.as_slice();
    while !rest.is_empty() {
        let (front, behind) = rest.split_at(front_of(rest));
        groups.push(Group::of_keys(front))?;
        rest = behind;
    }
    Ok(groups)
}

// The distinct keys in key order.
fn in_key_order(alloc: Global, keys: &[TileKey]) -> Result<Vec<TileKey>, Memory>
    ensures { IfOk result (λ ordered. ordered.items ≡ in_key_order keys.now) }
{
    let mut distinct = BTreeSet::new(alloc);
    for key in keys {
        distinct.insert(*key)?;
    }
    let ordered = distinct.iter().copied().collect(alloc)?;
    Ok(ordered)
}

// How many keys the first group has of some that are in key order.
fn front_of(keys: &[TileKey]) -> usize
    requires { 0 < length keys.now }
    ensures { result ≡ front_of keys.now }
{
    let mut count = 1;
    while count < MOST && count < keys.len() && follows(&keys[count - 1], &keys[count]) {
        count += 1;
    }
    count
}

// Whether the other key begins where the key ends and differs from it in its position alone.
fn follows(key: &TileKey, other: &TileKey) -> bool
    ensures { result ≡ follows key.now other.now }
{
    is_beside(key, other) && is_as_large(key, other) && other.nviewid() == key.nviewid()
}

// Whether the other key begins in the same part and row where the key ends.
fn is_beside(key: &TileKey, other: &TileKey) -> bool
    ensures { result ≡ (nat_eq other.now.part key.now.part && nat_eq other.now.posy key.now.posy && nat_eq other.now.posx (key.now.posx + key.now.tilewidth)) }
{
    let end = key.posx() + key.tilewidth();
    other.part() == key.part() && other.posy() == key.posy() && other.posx() == end
}

// Whether the other key has as many pixels and twips.
fn is_as_large(key: &TileKey, other: &TileKey) -> bool
    ensures { result ≡ ((nat_eq other.now.width key.now.width && nat_eq other.now.height key.now.height) && (nat_eq other.now.tilewidth key.now.tilewidth && nat_eq other.now.tileheight key.now.tileheight)) }
{
    let pixels = other.width() == key.width() && other.height() == key.height();
    let twips = other.tilewidth() == key.tilewidth() && other.tileheight() == key.tileheight();
    pixels && twips
}
