//! What a seat knows, as plain data.
use std::collections::LinkedList;

/// No value of it is made.
pub struct View<E, G> {
    pub holds: bool,
    pub footing: Option<G>,
    pub seen: LinkedList<E>,
    pub told: LinkedList<E>,
    pub own: LinkedList<u64>,
    pub noted: u64,
    pub turns: u64,
}
