//! What is read of bytes.
ghost use Rattle.std.specs.Prelude.{◌<◌};

use crate::escapes::text_of;
use cool_base::{Memory, TextOf};
use http_message::{Request, Response};
use http_wire::{HttpFault, read_request, read_response};
use outside::MemoryWire;
use std::alloc::Global;

/// Which message is read.
#[derive(Clone, Copy)]
pub enum Kind {
    Request,
    Response,
}

fn shown(alloc: Global, text: &Option<TextOf>) -> Result<String, Memory> {
    match text {
        None => Ok(String::from_str(alloc, "-")?),
        Some(text) => {
            let text = text_of(alloc, text.get().as_bytes())?;
            Ok(format!(in alloc; "'{text}'")?)
        }
    }
}

/// A request in one line.
pub fn request_text(alloc: Global, request: &Request) -> Result<String, Memory> {
    let method = request.method;
    let target = text_of(alloc, request.target.get().as_bytes())?;
    let lock = shown(alloc, &request.lock)?;
    let over = shown(alloc, &request.over)?;
    let old = if request.old_lock { "old" } else { "new" };
    let body = text_of(alloc, request.body.as_slice())?;
    Ok(format!(in alloc; "{method:?} {target} {lock} {over} {old} '{body}'")?)
}

/// A response in one line.
pub fn response_text(alloc: Global, response: &Response) -> Result<String, Memory> {
    let status = response.status;
    let lock = shown(alloc, &response.lock)?;
    let body = text_of(alloc, response.body.as_slice())?;
    Ok(format!(in alloc; "{status} {lock} '{body}'")?)
}

fn fault_text(alloc: Global, fault: HttpFault) -> Result<String, Memory> {
    match fault {
        HttpFault::Wire(fault) => Ok(format!(in alloc; "{fault:?}")?),
        HttpFault::Memory => Err(Memory),
    }
}

/// What is read where the wire gives so many bytes at a time.
pub fn said_at(alloc: Global, kind: Kind, bytes: &[u8], pace: usize) -> Result<String, Memory>
    requires { 0 < pace }
{
    let mut wire = MemoryWire::new(alloc, bytes, pace, 0)?;
    match kind {
        Kind::Request => match read_request(alloc, &mut wire) {
            Ok(request) => request_text(alloc, &request),
            Err(fault) => fault_text(alloc, fault),
        },
        Kind::Response => match read_response(alloc, &mut wire) {
            Ok(response) => response_text(alloc, &response),
            Err(fault) => fault_text(alloc, fault),
        },
    }
}

// What is read in pieces of at most so many bytes, of more, and of 4,096.
fn said_in(
    alloc: Global,
    kind: Kind,
    bytes: &[u8],
    least: usize,
    more: usize,
) -> Result<String, Memory>
    requires least { 0 < least }
    requires more { 0 < more }
{
    let single = said_at(alloc, kind, bytes, least)?;
    let several = said_at(alloc, kind, bytes, more)?;
    let whole = said_at(alloc, kind, bytes, 4096)?;
    if single == several && several == whole {
        Ok(single)
    } else {
        Ok(format!(in alloc; "it depends on the pieces: {single} | {several} | {whole}")?)
    }
}

/// What is read, in whatever pieces it comes: of one byte, of 7 and of 4,096, and where the bytes are
/// many, of 1,000 at least.
pub fn said(alloc: Global, kind: Kind, bytes: &[u8]) -> Result<String, Memory> {
    if bytes.len() > 1_000 {
        said_in(alloc, kind, bytes, 1_000, 1_006)
    } else {
        said_in(alloc, kind, bytes, 1, 7)
    }
}

/// How many proper fronts of the bytes there are, and how many of them are cut off.
pub fn fronts_cut(alloc: Global, kind: Kind, bytes: &[u8]) -> Result<String, Memory> {
    let mut cut = 0u64;
    let fronts = bytes.len();
    for len in 0..fronts {
        let said = said_at(alloc, kind, &bytes[..len], 4096)?;
        if said.as_str() == "CutOff" && cut < 1 << 30 {
            cut += 1;
        }
    }
    Ok(format!(in alloc; "{cut} of {fronts} cut off")?)
}

// The head of a message in chunks.
fn head_of(kind: Kind) -> &'static [u8] {
    match kind {
        Kind::Request => b"POST / HTTP/1.1\r\nTransfer-Encoding: chunked\r\n\r\n",
        Kind::Response => b"HTTP/1.1 200 OK\r\nTransfer-Encoding: chunked\r\n\r\n",
    }
}

/// What is read of so many chunks of one byte, each with 16,384 bytes of framing, and then the tail.
pub fn said_long(alloc: Global, kind: Kind, count: u64, tail: &[u8]) -> Result<String, Memory> {
    let extension = [b'x'; 16_378];
    let mut bytes = Vec::from_slice(alloc, head_of(kind))?;
    for _ in 0..count {
        bytes.extend_from_slice(b"1;")?;
        bytes.extend_from_slice(&extension)?;
        bytes.extend_from_slice(b"\r\nc\r\n")?;
    }
    bytes.extend_from_slice(tail)?;
    said_at(alloc, kind, &bytes, 4096)
}
