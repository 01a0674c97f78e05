//! The response to an action.
ghost use Rattle.std.specs.Prelude.{◌≡◌, length, List, [], IfOk, unwrap_or, string_bytes, Option};
ghost use Rattle.std.specs.Prelude.{None, Some};
ghost use Rattle.std.specs.Option.{option_copied};
ghost use Rattle.wopi_host.specs.Hosts.{bare, with_content, with_current, info_for, response_for};
ghost use Rattle.wopi_host.specs.Hosts.{user_of};

use crate::table::Action;
use bytes::Bytes;
use cool_base::{FileId, Memory, TextOf};
use http_message::Response;
use std::alloc::Global;
use wopi_info::write_info;

/// A response with a status alone. It takes no memory.
pub fn bare_response(status: u16) -> Response
    ensures { result ≡ bare status }
{
    Response {
        status,
        lock: None,
        body: Bytes::new(),
    }
}

fn with_body(body: Bytes) -> Response
    ensures { result ≡ with_content body }
{
    Response {
        status: 200,
        lock: None,
        body,
    }
}

/// A copy of the text, or the empty text where there is none.
pub fn text_or_empty(alloc: Global, text: Option<&str>) -> Result<TextOf, Memory>
    ensures { IfOk result (λ copy. copy ≡ unwrap_or (option_copied text.entry) []) }
{
    match text {
        None => Ok(TextOf::of(String::new(alloc))),
        Some(text) => Ok(TextOf::of(String::from_str(alloc, text)?)),
    }
}

fn with_lock(alloc: Global, status: u16, current: Option<&str>) -> Result<Response, Memory>
    ensures { IfOk result (λ r. r ≡ with_current status (option_copied current.entry)) }
{
    let lock = text_or_empty(alloc, current)?;
    Ok(Response {
        status,
        lock: Some(lock),
        body: Bytes::new(),
    })
}

fn user(writer: bool) -> &'static str
    ensures { result.now ≡ user_of writer }
{
    if writer { "rw" } else { "ro" }
}

fn info(
    alloc: Global,
    file: &FileId,
    content: &Bytes,
    writer: bool,
    puts: u64,
) -> Result<Bytes, Memory>
    ensures { IfOk result (λ b. b ≡ info_for file.now content.now writer puts) }
{
    let version = puts.to_string(alloc)?;
    let size = content.len() as u64;
    let text = write_info(
        alloc,
        file.text(),
        size,
        writer,
        user(writer),
        version.as_str(),
    )?;
    Ok(Bytes::from_string(text)?)
}

/// The response to the action.
pub fn respond(
    alloc: Global,
    action: Action,
    file: &FileId,
    content: &Bytes,
    writer: bool,
    current: Option<&str>,
    puts: u64,
) -> Result<Response, Memory>
    ensures { IfOk result (λ r.
        r ≡ response_for action file.now content.now writer (option_copied current.entry) puts) }
{
    match action {
        Action::Refused(status) => Ok(bare_response(status)),
        Action::Info => Ok(with_body(info(alloc, file, content, writer, puts)?)),
        Action::Content => Ok(with_body(content.clone()?)),
        Action::Sets => Ok(bare_response(200)),
        Action::Removes => Ok(bare_response(200)),
        Action::TellsLock => with_lock(alloc, 200, current),
        Action::Replaces => Ok(bare_response(200)),
        Action::Conflict => with_lock(alloc, 409, current),
    }
}
