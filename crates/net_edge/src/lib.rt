//! The net over sockets: it is trusted for what the sockets do, and tells no contents. What it decides
//! is `net_rules`, `web_upgrade` and `web_link`; here sockets are accepted, polled, read and written.
//!
//! - `EdgeNet` (`net`): a `Net` that listens on a port of the loopback address, or on none.
//! - `EdgeLink` (`links`): a link on its way to another net.
#![tactic(auto)]

mod links;
mod net;
mod sockets;

pub use links::EdgeLink;
pub use net::EdgeNet;
