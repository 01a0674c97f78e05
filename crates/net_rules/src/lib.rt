//! What a net over sockets decides, without a socket: how long a take waits, how many handshakes go on
//! and for how long, how many links may open, which frames wait for a link that reads slowly, and
//! whether a frame is sent as text.
//!
//! - `Pace` (`pace`): how long a take waits.
//! - `Handshakes` (`handshakes`): at most `MOST_HANDSHAKES` at once, each for `HANDSHAKE_MILLIS`.
//! - `Openings` (`openings`): how many links may still open.
//! - `OutQueue` (`out_queue`): one frame is on its way, and the others wait up to `OUT_LIMIT`.
//! - `text_of` (`frames`): the text of a frame that is sent as text.
#![tactic(auto)]

mod frames;
mod handshakes;
mod openings;
mod out_queue;
mod pace;

pub use frames::text_of;
pub use handshakes::{HANDSHAKE_MILLIS, Handshakes, MOST_HANDSHAKES};
pub use openings::Openings;
pub use out_queue::{FRAME_COST, OUT_LIMIT, Offered, OutQueue};
pub use pace::{MOST_WAIT, Pace};
