//! Messages of HTTP over wires that fail at each byte, both ways, and wires that are asked for
//! nothing after a message. The crate has these tests alone.
#![tactic(auto)]

#[cfg(test)]
mod failing;
#[cfg(test)]
mod reads;
#[cfg(test)]
mod writes;
