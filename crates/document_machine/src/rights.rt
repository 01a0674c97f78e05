//! What a view may do.
use cool_base::Token;

/// The rights with which a link became a view.
#[derive(Drop)]
pub struct Rights {
    /// Whether its inputs are accepted.
    pub can_write: bool,
    /// The token with which its link loaded the document.
    pub token: Token,
}
