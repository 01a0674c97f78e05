// Whether a frame is sent as text.
ghost use Rattle.std.specs.Prelude.{◌≡◌, ◌↔◌, IsSome, IfSome};
ghost use Rattle.net_rules.specs.Kinds.{GoesAsText};

use std::str;

// How a tile's frame begins.
const TILE: &[u8] = b"tile: ";

/// The text of a frame that is sent as a text message. None exactly where the frame is a tile's, whose
/// bytes are sent as a binary message, or no UTF-8.
pub fn text_of(frame: &[u8]) -> Option<&str>
    ensures kind { IsSome result ↔ GoesAsText frame.now }
    ensures bytes { IfSome result (λ text. text.now ≡ frame.now) }
{
    if frame.starts_with(TILE) {
        return None;
    }
    str::from_utf8(frame).ok()
}
