// What requests and responses have in common: a head that is scanned, and a body behind it.
ghost use Rattle.std.specs.Prelude.{◌≡◌, ◌≤◌, IfOk};
ghost use Rattle.http_head.specs.Phases.{Opens};
ghost use Rattle.http_wire.specs.Messages.{Kind, Scans, start_of};

use bytes::Bytes;
use cool_base::Memory;
use http_head::{
    Framing, HeadPhase, RequestParts, ResponseParts, Scan, scan_head, scan_response_head,
};
use http_message::{Request, Response};
use std::alloc::Global;
use wire_body::BodyState;

/// What a head says, and the message that it makes with a body.
pub(crate) trait Head: Drop {
    /// The message.
    type Message: Drop;

    ghost kind: { Kind Self Self.Message };

    /// Which head the bytes begin with.
    fn scan(alloc: Global, bytes: &[u8]) -> Result<Scan<Self>, Memory>
        ensures { IfOk result (Scans kind bytes.now) };

    /// The phase before such a head.
    fn first_phase() -> HeadPhase
        ensures { Opens kind.begins result };

    /// The body behind the head.
    fn framing(&self) -> Framing
        ensures { result ≡ kind.framing self.now };

    /// The message.
    fn with_body(self, body: Bytes) -> Self::Message
        ensures { result ≡ kind.message self body };
}

impl Head for RequestParts {
    type Message = Request;

    ghost use Rattle.http_wire.specs.Kinds.{requests};

    ghost kind = { requests };

    fn scan(alloc: Global, bytes: &[u8]) -> Result<Scan<RequestParts>, Memory> {
        scan_head(alloc, bytes)
    }

    fn first_phase() -> HeadPhase {
        HeadPhase::of_request()
    }

    fn framing(&self) -> Framing {
        self.framing
    }

    fn with_body(self, body: Bytes) -> Request {
        let RequestParts {
            method,
            target,
            lock,
            over,
            old_lock,
            framing: _,
        } = self;
        Request {
            method,
            target,
            lock,
            over,
            old_lock,
            body,
        }
    }
}

impl Head for ResponseParts {
    type Message = Response;

    ghost use Rattle.http_wire.specs.Kinds.{responses};

    ghost kind = { responses };

    fn scan(alloc: Global, bytes: &[u8]) -> Result<Scan<ResponseParts>, Memory> {
        scan_response_head(alloc, bytes)
    }

    fn first_phase() -> HeadPhase {
        HeadPhase::of_response()
    }

    fn framing(&self) -> Framing {
        self.framing
    }

    fn with_body(self, body: Bytes) -> Response {
        let ResponseParts {
            status,
            lock,
            framing: _,
        } = self;
        Response { status, lock, body }
    }
}

/// Where the body begins.
pub(crate) fn start_of(framing: Framing) -> BodyState
    ensures { result ≡ start_of framing }
{
    match framing {
        Framing::Empty => BodyState::none(),
        Framing::Sized(len) => BodyState::of_length(len),
        Framing::Chunked => BodyState::chunked(),
        Framing::ToEnd => BodyState::to_the_end(),
    }
}
