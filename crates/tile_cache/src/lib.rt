//! The tiles that were painted for a document and the jobs that paint more of them.
//!
//! `TileCache` is the one type. It keeps at most 256 tiles, and of more than these the ones that were
//! used last; and it knows which keys a painter has. Each damage is noted for both, so a tile is told to
//! be current only while no damage above its number met it since its job began, and a picture that was
//! overtaken by a damage is not kept. Contracts see a `Cached` (specs/Cached); what its calls make of it
//! stands in specs/Calls. Pixels are shared and never copied here.
#![tactic(auto)]

mod caches;
mod outs;
mod tiles;

pub use caches::TileCache;
pub use tiles::{Finished, KeyEnd};
