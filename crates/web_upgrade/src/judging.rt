// The request that opens a WebSocket.
ghost use Rattle.std.specs.Prelude.{◌≡◌, IfOk, take};
ghost use Rattle.http_head.specs.Requests.{ScansRequest};
ghost use Rattle.web_upgrade.specs.Judging.{HasHead, Answered, Judges, LiesIn, accept_bytes};

use crate::refusals::{Refusal, refusal_of};
use cool_base::Memory;
use http_head::{HEAD_LIMIT, MOST_LINES, RequestParts, Scan, scan_head};
use httparse::Status;
use httparse::spans::{EMPTY_HEADER_SPAN, parse_request};
use std::alloc::Global;
use websocket::handshake::server::check_request;

/// What bytes come to.
#[derive(Clone, Copy, Debug, PartialEq, Eq)]
pub enum Judged {
    /// They begin the head of a request, and more are to come.
    Begun,
    /// A head that asks for a WebSocket: the value that answers its key, and how many bytes it has.
    Upgrades([u8; 28], usize),
    /// They are refused, whatever follows.
    Refused(Refusal),
}

// What is answered to the head of so many bytes.
fn answer(front: &[u8], len: usize) -> Judged
    requires { HasHead front.now len }
    ensures answered { Answered front.now len result }
    ensures within { LiesIn front.now result }
{
    let mut lines = [EMPTY_HEADER_SPAN; MOST_LINES];
    match parse_request(front, &mut lines) {
        Ok(Status::Complete(spans)) => match check_request(front, &spans, &lines) {
            Ok(accept) => Judged::Upgrades(accept, len),
            Err(error) => Judged::Refused(refusal_of(error)),
        },
        Ok(Status::Partial) => unreachable!(),
        Err(_) => unreachable!(),
    }
}

// The bytes that a head may have.
fn front_of(bytes: &[u8]) -> &[u8]
    ensures { result.now ≡ take HEAD_LIMIT bytes.now }
{
    if bytes.len() < HEAD_LIMIT {
        bytes
    } else {
        &bytes[..HEAD_LIMIT]
    }
}

// What bytes come to by the scan of their front.
#[tactic(auto, using(crate::proofs::Answering::judgements))]
fn judged_by(bytes: &[u8], front: &[u8], scan: &Scan<RequestParts>) -> Judged
    requires front { front.now ≡ take HEAD_LIMIT bytes.now }
    requires scans { ScansRequest front.now scan.now }
    ensures judges { Judges bytes.now result }
    ensures within { LiesIn front.now result }
{
    match scan {
        Scan::Whole(_, len) => answer(front, *len),
        Scan::Begun => {
            if bytes.len() < HEAD_LIMIT {
                Judged::Begun
            } else {
                Judged::Refused(Refusal::TooLong)
            }
        }
        Scan::NoHead => Judged::Refused(Refusal::Bad),
    }
}

/// Whether the bytes that came so far ask for a WebSocket. A head has at most `HEAD_LIMIT` bytes and
/// `MOST_LINES` lines, and lies in the bytes; what is behind it is not looked at.

pub fn judge(alloc: Global, bytes: &[u8]) -> Result<Judged, Memory>
    ensures judges { IfOk result (Judges bytes.now) }
    ensures within { IfOk result (LiesIn bytes.now) }
{
    let front = front_of(bytes);
    let scan = scan_head(alloc, front)?;
    Ok(judged_by(bytes, front, &scan))
}

/// The response that opens the WebSocket, with this value for the client's key.
pub fn accept_bytes(alloc: Global, accept: &[u8]) -> Result<Vec<u8>, Memory>
    ensures { IfOk result (λ bytes. bytes.items ≡ accept_bytes accept.now) }
{
    let mut bytes = Vec::new(alloc);
    bytes.extend_from_slice(
        b"HTTP/1.1 101 Switching Protocols\r\nUpgrade: websocket\r\nConnection: Upgrade\r\nSec-WebSocket-Accept: ",
    )?;
    bytes.extend_from_slice(accept)?;
    bytes.extend_from_slice(b"\r\n\r\n")?;
    Ok(bytes)
}
