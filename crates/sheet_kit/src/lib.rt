//! The sheet document as a kit: its file, the inputs of its views, the scenes of its areas.
//!
//! - `SheetKit` (`kit`): the document.
//! - `SheetScene` (`scene`): what an area shows, owned.
#![tactic(auto)]

mod cuts;
mod kit;
mod layers;
mod scene;

pub use kit::SheetKit;
pub use scene::SheetScene;
