//! The broker of one document: its views and their messages, the inputs, the jobs out, the tiles that are
//! kept, the saves. Each of its calls is
//! a step of the document machine: what `document_machine` says may follow an event is what the call answers.
//!
//! `Broker` is the type that matters. It is driven from outside: a caller tells it who joins and leaves and
//! what the views said, makes turns, and brings back the jobs that were painted and the store's answers. It knows no link, no thread
//! and no time. After `Memory` from one of its calls a broker is spent: it answers `Memory` from then on.
#![tactic(auto)]

mod applying;
mod broker;
mod broker_saves;
mod broker_work;
mod changing;
mod choosing;
mod core_of;
mod faults;
mod hearing;
mod joining;
mod members;
mod painting;
mod pairing;
mod resting;
mod saving;
mod sending;
mod turning;

pub use broker::Broker;
pub use document_machine::{MOST_VIEWS, Outs, Rights, Turned};
pub use faults::JoinFault;
