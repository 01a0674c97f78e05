//! What one document does, said from scratch: its state, its events, and which outputs and which
//! state may follow an event. The brokers are proved to be steps of this machine, and every layer
//! above speaks of a document by these words alone. It has definitions, and laws of them, and two
//! types that brokers answer with; it runs nothing.
//!
//! - `Document` (specs/State): the accepted inputs and how many of them are applied, the views with
//!   what they asked for, what was sent to them and what they have not acknowledged, the jobs out,
//!   and what it knows of its saves, as `save_core` says it.
//! - `Step` (specs/Step): the machine. A run of events is a `Segment` (specs/Run).
//! - `Held` (specs/Held): a document with the tiles that are kept, as contracts see a broker. `pick`
//!   (specs/Next) is the one work that its turn does; `Goes` and `Did` (specs/Goes) are its moves.
//! - `IsKept`, `IsHeld` (specs/Kept): what holds of each that is reached.
//! - `IsQuiet`, `AllRight` (specs/Quiet): nothing is left to do; every tile is the present one.
//!   `is_done`, `is_lost` (specs/Done): the document may be closed; not all of it was stored.
//! - `Rights`, `Outs`, `Turned` (here): what a broker is told and what it answers; `MOST_VIEWS` and the
//!   other limits.
#![tactic(auto)]

mod limits;
mod outs;
mod rights;

pub use limits::{MOST_ASKED, MOST_INPUTS, MOST_JOBS, MOST_KEPT, MOST_VIEWS};
pub use outs::{Outs, Turned};
pub use rights::Rights;
pub use save_core::MOST_SAVES;
pub use send_window::MOST_SENT;
