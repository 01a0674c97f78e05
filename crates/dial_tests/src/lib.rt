//! A store over sockets: its puts go over two wires of the loopback address, and a host that isn't
//! there, hangs up or refuses is told apart. The crate has these tests alone.
#![tactic(auto)]

#[cfg(test)]
mod puts;
