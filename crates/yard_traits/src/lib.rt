//! What takes works to be done elsewhere, and a yard in memory that holds them for a script.
//!
//! - `Yard` (`yards`): it takes works, or gives them back at its full moments, which it counts.
//! - `HeldYard`, `HeldWork` (`held`): it holds the works, by their numbers, until they are taken
//!   out.
//! - `Work`, `Answered`, `Answer` (`works`): what documents have done elsewhere, and what comes back.
#![tactic(auto)]

mod held;
mod works;
mod yards;

pub use held::{HeldWork, HeldYard};
pub use works::{Answer, Answered, Work};
pub use yards::Yard;
