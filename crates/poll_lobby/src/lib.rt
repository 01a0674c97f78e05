//! What a link without a document is answered: of what it says, and of a load that is refused.
//!
//! - `lobby_act`, `LobbyAct` (`acts`): the frame that answers a message, or the load that begins.
//! - `Refusal`, `fault_refusal`, `enter_refusal`, `post_refusal` (`refusals`): why a load is
//!   refused, and its frame.
//! - `laws`: that each message of a lobby is carried out as the poll's plan says.
#![tactic(auto)]

mod acts;
mod laws;
mod refusals;

pub use acts::{LobbyAct, lobby_act};
pub use laws::lobby_acts_carry_out;
pub use refusals::{Refusal, enter_refusal, fault_refusal, post_refusal};
