// The calls that read a message.
ghost use Rattle.std.specs.Prelude.{◌≡◌, Err, IsErrOf};
ghost use Rattle.outside.specs.Causes.{HasCause};
ghost use Rattle.http_wire.specs.Messages.{ReadsMessage};
ghost use Rattle.http_wire.specs.Kinds.{requests, responses};

use crate::reads::read_message;
use http_head::{RequestParts, ResponseParts};
use http_message::{Request, Response};
use outside::{Wire, WireFault};
use std::alloc::Global;
use wire_body::HttpFault;

/// The request that the wire gives. Its head has at most `HEAD_LIMIT` bytes, its body `BODY_LIMIT`.
/// Nothing is received behind bytes that say it, or that say why there is none.
pub fn read_request<W: Wire>(alloc: Global, wire: &mut W) -> Result<Request, HttpFault>
    ensures says { ReadsMessage requests (W.talk wire.old) (W.talk wire.new) result }
    ensures cause { HasCause (W.faults wire.old) (W.faults wire.new) (IsErrOf result (HttpFault.Wire WireFault.ReadFault)) }
{
    read_message::<RequestParts, W>(alloc, wire)
}

/// The response that the wire gives, by the first head that is there. Its head has at most
/// `HEAD_LIMIT` bytes, its body `BODY_LIMIT`. Nothing is received behind bytes that say it, or that
/// say why there is none.
pub fn read_response<W: Wire>(alloc: Global, wire: &mut W) -> Result<Response, HttpFault>
    ensures says { ReadsMessage responses (W.talk wire.old) (W.talk wire.new) result }
    ensures cause { HasCause (W.faults wire.old) (W.faults wire.new) (IsErrOf result (HttpFault.Wire WireFault.ReadFault)) }
{
    read_message::<ResponseParts, W>(alloc, wire)
}
