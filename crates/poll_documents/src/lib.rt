//! The documents that a poll holds: each with its broker, its file, the links of its views, and its
//! lock.
//!
//! - `OwnedDocument` (`owned`): a broker with its file, the links of its views, and its lock.
//! - `moving`: what comes to a document: a join, a text, a turn.
//! - `giving`: the frames of a document are given to the links of its views, in order.
//! - `works`: the works of a document are offered to the yard, or done at once.
//! - `befalling`: an event comes to a document, and all that is owed for it is done.
//! - `locks`: the lock of a document, refreshed and released.
//! - `departing`: a link joins a document; its links are packed, and adopted again.
//! - `Lodged`, `Kept` (`lodged`): what a house holds under an id: a document, or a file whose load
//!   was refused.
//! - `Parcel`, `Mail` (`parcels`): what polls send to each other.
#![tactic(auto)]

mod befalling;
mod departing;
mod giving;
mod locks;
mod lodged;
mod moving;
mod owned;
mod parcels;
mod works;

pub use lodged::{Kept, Lodged};
pub use owned::{HeldLock, OwnedDocument};
pub use parcels::{Letter, Mail, Parcel};
pub use works::sum_of;
