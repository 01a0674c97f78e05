//! `Window`.
ghost use Rattle.std.specs.Prelude.{◌≡◌, ◌+◌, ◌<◌, [], ◌∷◌, ◌++◌, not, length, map, filter, nat_eq, false};
ghost use Rattle.std.specs.List.{list_any};

use arrayvec::ArrayVec;
use cool_base::{Wid, Wids};
use std::marker::Model;
use tile_key::TileKey;

/// The most tiles of a view that may be sent and not acknowledged.
pub const MOST_SENT: usize = 64;

// A tile that was sent and is not acknowledged.
#[derive(Clone, Copy, Default)]
struct Sent {
    wid: u64,
    key: TileKey,
}

impl Model for Sent {
    ghost use Rattle.send_window.specs.Tiles.{Sent as SentTile};

    ghost Value = { SentTile };

    ghost view = { λ s. record { wid = s.wid; key = s.key } };

    ghost inverse = { λ t. record { wid = t.wid; key = t.key } };
}

/// The tiles that were sent and not acknowledged, at most `MOST_SENT`, in the order sent.
#[derive(Drop)]
pub struct Window {
    sent: ArrayVec<Sent, MOST_SENT>,
}

impl Model for Window {
    ghost use Rattle.std.specs.Prelude.{List};
    ghost use Rattle.send_window.specs.Tiles.{Sent as SentTile};

    ghost Value = { List SentTile };

    ghost view = { λ w. w.sent.items };
}

impl Window {
    /// No tile.
    pub fn new() -> Window
        ensures { result ≡ [] }
    {
        Window {
            sent: ArrayVec::new(),
        }
    }

    /// How many more tiles may be sent.
    pub fn room(&self) -> u32
        ensures { result + length self.now ≡ MOST_SENT }
    {
        (MOST_SENT - self.sent.len()) as u32
    }

    /// Whether no tile waits to be acknowledged.
    pub fn is_empty(&self) -> bool
        ensures { result ≡ nat_eq (length self.now) 0 }
    {
        self.sent.len() == 0
    }

    /// Adds a tile with this number and key at the end.
    pub fn put(&mut self, wid: Wid, key: &TileKey)
        requires { length self.old < MOST_SENT }
        ensures { self.new ≡ self.old ++ record { wid = wid.0; key = key.now } ∷ [] }
    {
        self.sent.push(Sent {
            wid: wid.0,
            key: *key,
        });
    }

    /// Takes out the tiles with this number; false exactly where there is none, and then the window is
    /// unchanged.
    pub fn close(&mut self, wid: Wid) -> bool
        ensures there { result ≡ list_any (λ tile. nat_eq tile.wid wid.0) self.old }
        ensures closed { self.new ≡ filter (λ tile. not (nat_eq tile.wid wid.0)) self.old }
        ensures unchanged { result ≡ false → self.new ≡ self.old }
    {
        let before = self.sent.len();
        self.sent.retain(|tile| tile.wid != wid.0);
        self.sent.len() < before
    }

    /// The numbers of the tiles, in the order sent.
    pub fn wids(&self) -> Wids
        ensures { map (λ wid. wid.0) result.items ≡ map (λ tile. tile.wid) self.now }
    {
        let mut wids = ArrayVec::new();
        for tile in self.sent.as_slice() {
            wids.push(Wid(tile.wid));
        }
        wids
    }
}
