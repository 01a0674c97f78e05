//! The keys that a message asks for.
ghost use Rattle.std.specs.Prelude.{◌≡◌, ◌↔◌, [], ◌∷◌, IfOk, if◌then◌else◌, Ok, None, Some};
ghost use Rattle.std.specs.List.{list_all};
ghost use Rattle.std.specs.Option.{option_map};
ghost use Rattle.tile_key.specs.Words.{place_of};
ghost use Rattle.cool_message.specs.Asked.{place_at, pairs_of, is_key_of, all_keys, keys_of};

use crate::message::{ClientMessage, CombineWords};
use cool_base::Memory;
use std::alloc::Global;
use tile_key::{TileKey, TileWords, key_of};

/// The keys that the message asks for in a document of so many parts, in the order given: the one of
/// `tile`, those at the pairs of `tilecombine`, and none of another message. `Ok(None)` exactly where one
/// of these is no key, or its part is none of the document's; this is judged before memory is taken.
pub fn keys_of(
    alloc: Global,
    parts: u32,
    message: &ClientMessage,
) -> Result<Option<Vec<TileKey>>, Memory>
    ensures keys { IfOk result (λ keys. option_map (λ k. k.items) keys ≡ keys_of parts message.now) }
    ensures none { (result ≡ Ok None) ↔ (keys_of parts message.now ≡ None) }
{
    match message {
        ClientMessage::Tile(words) => one_key(alloc, parts, words),
        ClientMessage::TileCombine(words) => combined_keys(alloc, parts, words),
        _ => Ok(Some(Vec::new(alloc))),
    }
}

// The key of one of so many parts.
fn key_of_part(parts: u32, words: &TileWords) -> Option<TileKey>
    ensures { result ≡ (if is_key_of parts (place_of words.now) then Some (place_of words.now) else None) }
{
    let key = key_of(words)?;
    if key.part() >= parts {
        return None;
    }
    Some(key)
}

fn one_key(alloc: Global, parts: u32, words: &TileWords) -> Result<Option<Vec<TileKey>>, Memory>
    ensures keys { IfOk result (λ keys. option_map (λ k. k.items) keys ≡ all_keys parts (place_of words.now ∷ [])) }
    ensures none { (result ≡ Ok None) ↔ (all_keys parts (place_of words.now ∷ []) ≡ None) }
{
    let Some(key) = key_of_part(parts, words) else {
        return Ok(None);
    };
    let mut keys = Vec::new(alloc);
    keys.push(key)?;
    Ok(Some(keys))
}

// The words of the tile at one pair of positions.
fn words_at(words: &CombineWords, tileposx: u32, tileposy: u32) -> TileWords
    ensures { place_of result ≡ place_at words.now (tileposx, tileposy) }
{
    TileWords {
        part: words.part,
        width: words.width,
        height: words.height,
        tileposx,
        tileposy,
        tilewidth: words.tilewidth,
        tileheight: words.tileheight,
        nviewid: words.nviewid,
    }
}

// Whether the words name a key of one of so many parts at this pair of positions.
fn is_key_at(parts: u32, words: &CombineWords, tileposx: u32, tileposy: u32) -> bool
    ensures { result ≡ is_key_of parts (place_at words.now (tileposx, tileposy)) }
{
    key_of_part(parts, &words_at(words, tileposx, tileposy)).is_some()
}

fn are_keys(parts: u32, words: &CombineWords) -> bool
    ensures { result ≡ list_all (is_key_of parts) (pairs_of words.now) }
{
    words
        .tileposx
        .get()
        .iter()
        .zip(words.tileposy.get())
        .all(|(x, y)| is_key_at(parts, words, *x, *y))
}

fn combined_keys(
    alloc: Global,
    parts: u32,
    words: &CombineWords,
) -> Result<Option<Vec<TileKey>>, Memory>
    ensures keys { IfOk result (λ keys. option_map (λ k. k.items) keys ≡ all_keys parts (pairs_of words.now)) }
    ensures none { (result ≡ Ok None) ↔ (all_keys parts (pairs_of words.now) ≡ None) }
{
    if !are_keys(parts, words) {
        return Ok(None);
    }
    let mut keys = Vec::with_capacity(alloc, words.tileposx.get().len())?;
    for (x, y) in words.tileposx.get().iter().zip(words.tileposy.get()) {
        let Some(key) = key_of_part(parts, &words_at(words, *x, *y)) else {
            return Ok(None);
        };
        keys.push(key)?;
    }
    Ok(Some(keys))
}
