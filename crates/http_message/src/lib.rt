//! Requests and responses of HTTP, as far as a WOPI host and its client read them.
#![tactic(auto)]

ghost use Rattle.std.specs.Prelude.{◌≡◌};
ghost use Rattle.http_message.specs.Statuses.{is_bodiless};

use bytes::Bytes;
use cool_base::TextOf;

/// A request's method.
#[derive(Clone, Copy, Debug, PartialEq, Eq)]
pub enum Method {
    Get,
    Post,
    Other,
}

/// A request: the target as it stands in its first line, the values of `X-WOPI-Lock` and
/// `X-WOPI-Override`, whether `X-WOPI-OldLock` is there, and the body.
#[derive(Drop)]
pub struct Request {
    pub method: Method,
    pub target: TextOf,
    pub lock: Option<TextOf>,
    pub over: Option<TextOf>,
    pub old_lock: bool,
    pub body: Bytes,
}

/// A response: its status, the value of `X-WOPI-Lock`, and the body.
#[derive(Drop)]
pub struct Response {
    pub status: u16,
    pub lock: Option<TextOf>,
    pub body: Bytes,
}

/// Whether a response of this status has no body, whatever its head says: from 100 to 199, 204 or 304.
pub fn is_bodiless(status: u16) -> bool
    ensures { result ≡ is_bodiless status }
{
    (status >= 100 && status <= 199) || (status == 204 || status == 304)
}
