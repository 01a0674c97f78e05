// The heads of requests and responses as bytes.
ghost use Rattle.std.specs.Prelude.{◌≡◌, ◌+◌, ◌/◌, ◌%◌, ℕ, [], ◌∷◌, ◌++◌, OnOk, IfOk, length, codes};
ghost use Rattle.http1.specs.Head.{print_header, print_headers, status_digits};
ghost use Rattle.http_write.specs.Texts.{method_text, optional, length_line, length_lines, old_lines, size_lines, request_lines, request_head, response_lines, response_head};

use cool_base::{Memory, TextOf};
use http_message::{Method, Request, Response, is_bodiless};
use std::alloc::Global;

fn put(out: &mut Vec<u8>, part: &[u8]) -> Result<(), Memory>
    ensures { OnOk result (out.new.items ≡ out.old.items ++ part.now) }
{
    out.extend_from_slice(part)?;
    Ok(())
}

fn put_line(out: &mut Vec<u8>, name: &[u8], value: &[u8]) -> Result<(), Memory>
    ensures { OnOk result (out.new.items ≡ out.old.items ++ print_headers ((name.now, value.now) ∷ [])) }
{
    put(out, name)?;
    put(out, b": ")?;
    put(out, value)?;
    put(out, b"\r\n")
}

fn put_optional(out: &mut Vec<u8>, name: &[u8], text: &Option<TextOf>) -> Result<(), Memory>
    ensures { OnOk result (out.new.items ≡ out.old.items ++ print_headers (optional name.now text.now)) }
{
    match text {
        Some(text) => put_line(out, name, text.get().as_bytes()),
        None => Ok(()),
    }
}

fn put_length(alloc: Global, out: &mut Vec<u8>, body: &[u8]) -> Result<(), Memory>
    ensures { OnOk result (out.new.items ≡ out.old.items ++ print_headers (length_line body.now ∷ [])) }
{
    let len = body.len();
    let digits = format!(in alloc; "{len}")?;
    put_line(out, b"Content-Length", digits.as_bytes())
}

fn put_lengths(alloc: Global, out: &mut Vec<u8>, method: Method, body: &[u8]) -> Result<(), Memory>
    ensures { OnOk result (out.new.items ≡ out.old.items ++ print_headers (length_lines method body.now)) }
{
    match method {
        Method::Get => Ok(()),
        Method::Post => put_length(alloc, out, body),
        Method::Other => Ok(()),
    }
}

fn put_old(out: &mut Vec<u8>, old_lock: bool) -> Result<(), Memory>
    ensures { OnOk result (out.new.items ≡ out.old.items ++ print_headers (old_lines old_lock)) }
{
    if old_lock {
        put_line(out, b"X-WOPI-OldLock", b"")
    } else {
        Ok(())
    }
}

fn put_lines(alloc: Global, out: &mut Vec<u8>, host: &str, request: &Request) -> Result<(), Memory>
    ensures { OnOk result (out.new.items ≡ out.old.items ++ print_headers (request_lines host.now request.now)) }
{
    put_line(out, b"Host", host.as_bytes())?;
    put_line(out, b"Connection", b"close")?;
    put_lengths(alloc, out, request.method, request.body.as_slice())?;
    put_optional(out, b"X-WOPI-Lock", &request.lock)?;
    put_optional(out, b"X-WOPI-Override", &request.over)?;
    put_old(out, request.old_lock)?;
    Ok(())
}

fn method_text(method: Method) -> &'static [u8]
    ensures { result.now ≡ method_text method }
{
    match method {
        Method::Get => b"GET",
        Method::Post => b"POST",
        Method::Other => b"OTHER",
    }
}

fn put_request_line(out: &mut Vec<u8>, request: &Request) -> Result<(), Memory>
    ensures { OnOk result (out.new.items ≡ out.old.items ++ (method_text request.now.method ++ (32 ∷ (request.now.target ++ (codes " HTTP/1." ++ ((48 + 1) ∷ 13 ∷ 10 ∷ [])))))) }
{
    put(out, method_text(request.method))?;
    put(out, b" ")?;
    put(out, request.target.get().as_bytes())?;
    put(out, b" HTTP/1.1\r\n")
}

// The head of a request to the host.
pub(crate) fn request_head(alloc: Global, host: &str, request: &Request) -> Result<Vec<u8>, Memory>
    ensures { IfOk result (λ head. head.items ≡ request_head host.now request.now) }
{
    let mut out = Vec::new(alloc);
    put_request_line(&mut out, request)?;
    put_lines(alloc, &mut out, host, request)?;
    put(&mut out, b"\r\n")?;
    Ok(out)
}

fn last_digit(number: u16) -> u8
    ensures { result ≡ 48 + number % 10 }
{
    b'0' + (number % 10) as u8
}

fn put_status_line(out: &mut Vec<u8>, status: u16) -> Result<(), Memory>
    ensures { OnOk result (out.new.items ≡ out.old.items ++ (codes "HTTP/1." ++ ((48 + 1) ∷ 32 ∷ (status_digits status ++ (32 ∷ ([] ++ (13 ∷ 10 ∷ []))))))) }
{
    let digits = [
        last_digit(status / 100),
        last_digit(status / 10),
        last_digit(status),
    ];
    put(out, b"HTTP/1.1 ")?;
    put(out, &digits)?;
    put(out, b" \r\n")
}

fn put_size(alloc: Global, out: &mut Vec<u8>, status: u16, body: &[u8]) -> Result<(), Memory>
    ensures { OnOk result (out.new.items ≡ out.old.items ++ print_headers (size_lines status body.now)) }
{
    if is_bodiless(status) {
        Ok(())
    } else {
        put_length(alloc, out, body)
    }
}

fn put_response_lines(alloc: Global, out: &mut Vec<u8>, response: &Response) -> Result<(), Memory>
    ensures { OnOk result (out.new.items ≡ out.old.items ++ print_headers (response_lines response.now)) }
{
    put_line(out, b"Connection", b"close")?;
    put_size(alloc, out, response.status, response.body.as_slice())?;
    put_optional(out, b"X-WOPI-Lock", &response.lock)?;
    Ok(())
}

// The head of a response.
pub(crate) fn response_head(alloc: Global, response: &Response) -> Result<Vec<u8>, Memory>
    ensures { IfOk result (λ head. head.items ≡ response_head response.now) }
{
    let mut out = Vec::new(alloc);
    put_status_line(&mut out, response.status)?;
    put_response_lines(alloc, &mut out, response)?;
    put(&mut out, b"\r\n")?;
    Ok(out)
}
