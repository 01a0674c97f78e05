//! The hall of documents, shared by threads.
//!
//! A [`Hall`] is a `HallState` behind one lock. Each call is one turn, and all turns of all threads
//! form one history: what a call
//! answers is what the machine of `hall_machine` answers in the state that the history reaches at
//! that turn. A [`Port`] is a hall as
//! one poll sees it: [`LocalPort`] over a plain `HallState` on one thread, which waits for nobody,
//! [`HallPort`] over a shared one.
#![tactic(auto)]

mod hall;
mod local;
mod port;
mod questions;
mod shared;
mod turns;

pub use hall::Hall;
pub use hall_machine::{
    CloseFault, Entered, HallFault, HallState, Label, Labelled, MailBag, Owner, Refused,
};
pub use local::LocalPort;
pub use port::Port;
pub use shared::HallPort;
