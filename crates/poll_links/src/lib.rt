//! Which link is which view of a document, and which links wait in a lobby.
//!
//! - `ViewLinks` (`views`): the links of one document's views, in the order in which they came.
//! - `Lobby` (`lobby`): the links of a poll that are no view yet, in the order in which they came.
#![tactic(auto)]

mod lobby;
mod views;

pub use lobby::Lobby;
pub use views::{ViewLink, ViewLinks};
