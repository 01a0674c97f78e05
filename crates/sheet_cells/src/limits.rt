//! How large a sheet document and its texts may be.

/// The columns of a part, A to IV.
pub const COLUMNS: u32 = 256;

/// The rows of a part, 1 to 4,096.
pub const ROWS: u32 = 4_096;

/// The most parts of a sheet document.
pub const MOST_PARTS: u32 = 16;

/// The most bytes of a raw text.
pub const RAW_LIMIT: usize = 1_024;
