//! Tests of sources, sinks, wires and dials in memory, with ample memory, and of the codes of faults.
#![tactic(auto)]

#[cfg(test)]
mod dials;
#[cfg(test)]
mod streams;
#[cfg(test)]
mod wires;
