//! Groups of tiles that are painted together: keys side by side are combined, one picture is painted
//! for all of them, and it is cut into the pictures of the keys.
//!
//! `combine` makes the groups, `cut` the pictures. Contracts see a group as the list of its keys
//! (`Group` in `tile_key`). Neither call keeps anything.
#![tactic(auto)]

mod groups;
mod parts;

pub use groups::combine;
pub use parts::cut;
