//! The limits of a message.

/// The longest text of a message, in bytes.
pub const MESSAGE_LIMIT: usize = 65_536;

/// The longest value of `url`, in bytes.
pub const URL_LIMIT: usize = 8_192;
