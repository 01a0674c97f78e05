//! Which pair of a view and a key a turn serves, and which keys one job is cut for.
ghost use Rattle.std.specs.Prelude.{◌≡◌, ◌&&◌, ◌∷◌, find};
ghost use Rattle.tile_key.specs.Places.{key_at, next_place};
ghost use Rattle.document_machine.specs.Next.{right_of};
ghost use Rattle.view_session.specs.Viewing.{is_due, keys};
ghost use Rattle.broker_core.specs.Serving.{has_room};
ghost use Rattle.broker_core.specs.Choosing.{can_serve, next_served, next_member, is_owed, where_true, joins_group, group_at};

use crate::members::Member;
use arrayvec::ArrayVec;
use tile_cache::TileCache;
use tile_key::{Group, TileKey, TileWords, key_of};

/// Whether the key can be served: a tile of it is current, or no job of it is out and `more` may be.
fn can_serve(tiles: &TileCache, more: bool, key: &TileKey) -> bool
    ensures { result ≡ can_serve tiles.now more key.now }
{
    if tiles.is_current(key) {
        return true;
    }
    more && !tiles.is_out(key)
}

impl Member {
    /// Whether the view has room for one more tile.
    fn has_room(&self) -> bool
        ensures { result ≡ has_room self.now.view }
    {
        self.view.room() > 0
    }

    /// The first key, in key order, that the view is due and that can be served, where it has room.
    fn next_served(&self, tiles: &TileCache, more: bool) -> Option<TileKey>
        ensures { result ≡ next_served tiles.now more self.now.view }
    {
        if self.has_room() {
            return self.first_served(tiles, more);
        }
        None
    }

    /// The first key, in key order, that the view is due and that can be served. Keys that cannot be served
    /// are passed over, each once.
    fn first_served(&self, tiles: &TileCache, more: bool) -> Option<TileKey>
        ensures { result ≡ find (λ key. can_serve tiles.now more key && is_due self.now.view key) (keys self.now.view) }
    {
        // What it keeps says that its keys are in order.
        self.view.kept();
        let mut before = None;
        'search: loop {
            let Some(key) = self.view.next_due(before) else {
                return None;
            };
            if can_serve(tiles, more, &key) {
                return Some(key);
            }
            before = Some(key);
        }
    }

    /// The key to the right of this one, where the view is due it.
    fn due_right(&self, key: &TileKey) -> Option<TileKey>
        ensures { result ≡ where_true (is_due self.now.view (next_place key.now)) (next_place key.now) }
    {
        // What it keeps says that a due key is one.
        self.view.kept();
        let next = right(key)?;
        if self.view.is_due(&next) {
            Some(next)
        } else {
            None
        }
    }
}

/// The first view, in order, that has room and is due a key that can be served, with its first such key in
/// key order.
pub(crate) fn next_member(
    members: &[Member],
    tiles: &TileCache,
    more: bool,
) -> Option<(u32, TileKey)>
    ensures { result ≡ next_member tiles.now more members.now }
{
    for member in members {
        if let Some(key) = member.next_served(tiles, more) {
            return Some((member.id, key));
        }
    }
    None
}

/// The key that begins where this one ends; None where its position would be too high.
fn right(key: &TileKey) -> Option<TileKey>
    ensures { result ≡ key_at (next_place key.now) }
{
    let words = key.words();
    key_of(&TileWords {
        part: words.part,
        width: words.width,
        height: words.height,
        tileposx: words.tileposx + words.tilewidth,
        tileposy: words.tileposy,
        tilewidth: words.tilewidth,
        tileheight: words.tileheight,
        nviewid: words.nviewid,
    })
}

/// The key to the right of this one, where some view is due it.
fn owed_right(members: &[Member], key: &TileKey) -> Option<TileKey>
    ensures { result ≡ where_true (is_owed members.now (next_place key.now)) (next_place key.now) }
{
    for member in members {
        if let Some(next) = member.due_right(key) {
            return Some(next);
        }
    }
    None
}

/// The key to the right of this one, where it joins its group: some view is due it, no tile of it is
/// current, and no job of it is out.
fn joins_right(members: &[Member], tiles: &TileCache, key: &TileKey) -> Option<TileKey>
    ensures { result ≡ where_true (joins_group tiles.now members.now (next_place key.now)) (next_place key.now) }
{
    let next = owed_right(members, key)?;
    if tiles.is_current(&next) || tiles.is_out(&next) {
        None
    } else {
        Some(next)
    }
}

/// The keys that one job is cut for: this one, and to its right without a gap up to seven that join it.
pub(crate) fn group_at(members: &[Member], tiles: &TileCache, key: &TileKey) -> Group
    ensures { result ≡ group_at tiles.now members.now key.now }
{
    let mut keys: ArrayVec<TileKey, 8> = ArrayVec::new();
    keys.push(*key);
    let mut last = *key;
    while keys.len() < 8 {
        match joins_right(members, tiles, &last) {
            None => return Group::of_keys(keys.as_slice()),
            Some(next) => {
                keys.push(next);
                last = next;
            }
        }
    }
    Group::of_keys(keys.as_slice())
}
