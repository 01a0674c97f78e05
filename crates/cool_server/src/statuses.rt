// How a program ends.

/// All that was wanted was served.
pub(crate) const DONE: u8 = 0;

/// The words are refused.
pub(crate) const WRONG_WORDS: u8 = 2;

/// Out of memory.
pub(crate) const NO_MEMORY: u8 = 6;

/// The edge failed.
pub(crate) const EDGE_FAULT: u8 = 8;
