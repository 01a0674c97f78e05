// Requests that are refused.
ghost use Rattle.std.specs.Prelude.{◌≡◌};
ghost use Rattle.web_upgrade.specs.Refusals.{refusal_of, refusal_bytes};

use websocket::handshake::HandshakeError;

/// Why a request opens no WebSocket.
#[derive(Clone, Copy, Debug, PartialEq, Eq)]
pub enum Refusal {
    /// The bytes are no request of HTTP/1.1, or its key is missing or none: 400.
    Bad,
    /// Another method than GET: 405.
    Method,
    /// It asks for no WebSocket, or for another version than 13: 426.
    Upgrade,
    /// The head has more than `HEAD_LIMIT` bytes: 431.
    TooLong,
}

const BAD: &[u8] = b"HTTP/1.1 400 Bad Request\r\nConnection: close\r\nContent-Length: 0\r\n\r\n";

const METHOD: &[u8] =
    b"HTTP/1.1 405 Method Not Allowed\r\nAllow: GET\r\nConnection: close\r\nContent-Length: 0\r\n\r\n";

const UPGRADE: &[u8] =
    b"HTTP/1.1 426 Upgrade Required\r\nUpgrade: websocket\r\nSec-WebSocket-Version: 13\r\nConnection: Upgrade, close\r\nContent-Length: 0\r\n\r\n";

const TOO_LONG: &[u8] =
    b"HTTP/1.1 431 Request Header Fields Too Large\r\nConnection: close\r\nContent-Length: 0\r\n\r\n";

impl Refusal {
    /// The response, byte for byte.
    pub fn bytes(self) -> &'static [u8]
        ensures { result.now ≡ refusal_bytes self }
    {
        match self {
            Refusal::Bad => BAD,
            Refusal::Method => METHOD,
            Refusal::Upgrade => UPGRADE,
            Refusal::TooLong => TOO_LONG,
        }
    }
}

pub(crate) fn refusal_of(error: HandshakeError) -> Refusal
    ensures { result ≡ refusal_of error }
{
    match error {
        HandshakeError::WrongHttpMethod => Refusal::Method,
        HandshakeError::MissingConnectionUpgradeHeader => Refusal::Upgrade,
        HandshakeError::MissingUpgradeWebSocketHeader => Refusal::Upgrade,
        HandshakeError::MissingSecWebSocketVersionHeader => Refusal::Upgrade,
        _ => Refusal::Bad,
    }
}
