//! Tiles of a document: their keys, the areas that scenes paint, groups of keys that are painted
//! together, and zooms.
//!
//! A key names a tile: the part, the pixel width and height, the place and size in twips, and the
//! look, `nviewid`: 0 with grid lines, 1 without. Key order compares part, tileposy, tileposx, width,
//! height, tilewidth, tileheight, nviewid, in this order. Keys and areas are seen by contracts as a
//! `Place`, a plain record of the eight numbers; the types keep the bounds. `visible` lists the keys that a view sees.
#![tactic(auto)]

mod areas;
mod groups;
mod keys;
mod seen;
mod zooms;

pub use areas::Area;
pub use groups::{Group, area_of, single};
pub use keys::{TileKey, TileWords, key_of, look_of, rect_of};
pub use seen::{VisibleFault, sees_too_many, visible};
pub use zooms::Zoom;
