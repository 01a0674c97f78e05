//! How large the file of a sheet document may be.

/// The most bytes of a sheet document's file.
pub const FILE_LIMIT: usize = 2_097_152;
