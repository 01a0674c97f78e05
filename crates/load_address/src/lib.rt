//! The address of a load: which file it names on the host of files that a poll serves, and the
//! token by which the file is asked for.
//!
//! - `Served` (`served`): a host and a port.
//! - `read_address`, `LoadAddress` (`address`): the file and the token of an address.
#![tactic(auto)]

mod address;
mod places;
mod served;
mod words;

pub use address::{LoadAddress, read_address};
pub use served::Served;
