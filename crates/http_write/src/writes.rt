// Messages over a wire.
ghost use Rattle.std.specs.Prelude.{◌≡◌, true, [], ◌++◌, Err};
ghost use Rattle.outside.specs.Causes.{HasCause};
ghost use Rattle.http_message.specs.Statuses.{HasDueBody};
ghost use Rattle.http_write.specs.Texts.{request_bytes, response_bytes};
ghost use Rattle.http_write.specs.Writes.{SendsWhole, Writes};

use crate::heads::{request_head, response_head};
use crate::sends::send_all;
use http_message::{Request, Response};
use outside::{Wire, WireFault};
use std::alloc::Global;
use wire_body::HttpFault;

// Sends a head and the body behind it.
fn send_both<W: Wire>(wire: &mut W, head: &[u8], body: &[u8]) -> Result<(), HttpFault>
    ensures sends { Writes (W.talk wire.old) (head.now ++ body.now) result (W.talk wire.new) }
    ensures cause { HasCause (W.faults wire.old) (W.faults wire.new) (result ≡ Err (HttpFault.Wire WireFault.WriteFault)) }
{
    match send_all(wire, head) {
        Ok(_) => {}
        Err(fault) => return Err(HttpFault::Wire(fault)),
    }
    match send_all(wire, body) {
        Ok(_) => Ok(()),
        Err(fault) => Err(HttpFault::Wire(fault)),
    }
}

/// Writes the request to this host. After a write fault a front of its bytes was sent; want of memory
/// comes before the first byte.
pub fn write_request<W: Wire>(
    alloc: Global,
    wire: &mut W,
    host: &str,
    request: &Request,
) -> Result<(), HttpFault>
    ensures writes { Writes (W.talk wire.old) (request_bytes host.now request.now) result (W.talk wire.new) }
    ensures cause { HasCause (W.faults wire.old) (W.faults wire.new) (result ≡ Err (HttpFault.Wire WireFault.WriteFault)) }
{
    let head = request_head(alloc, host, request)?;
    send_both(wire, &head, request.body.as_slice())
}

/// Writes the response, whose body is empty where its status is from 100 to 199, 204 or 304. After a
/// write fault a front of its bytes was sent; want of memory comes before the first byte.
pub fn write_response<W: Wire>(
    alloc: Global,
    wire: &mut W,
    response: &Response,
) -> Result<(), HttpFault>
    requires { HasDueBody response.now }
    ensures writes { Writes (W.talk wire.old) (response_bytes response.now) result (W.talk wire.new) }
    ensures cause { HasCause (W.faults wire.old) (W.faults wire.new) (result ≡ Err (HttpFault.Wire WireFault.WriteFault)) }
{
    let head = response_head(alloc, response)?;
    send_both(wire, &head, response.body.as_slice())
}
