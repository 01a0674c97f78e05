//! A way to a WOPI host over sockets. It is trusted for what the sockets do, and tells no talks.
//!
//! - `TcpDial` (`dials`): a dial whose wires are `TimedWire`s.
#![tactic(auto)]

mod dials;

pub use dials::TcpDial;
