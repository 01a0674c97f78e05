//! How much a document can have.

/// The most views of a document.
pub const MOST_VIEWS: usize = 64;

/// The most keys that a view asks for.
pub const MOST_ASKED: usize = 1_024;

/// The most inputs that a document accepts.
pub const MOST_INPUTS: usize = 524_288;

/// The most jobs that are out.
pub const MOST_JOBS: usize = 64;

/// The most tiles that are kept, those that were used last.
pub const MOST_KEPT: usize = 256;
