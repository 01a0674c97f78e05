//! What the client asks, and what it reads in the host's response.
ghost use Rattle.std.specs.Prelude.{◌≡◌, ◌++◌, [], List, Some, None, IfOk, IfErr, codes, unwrap_or};
ghost use Rattle.wopi_client.specs.Asks.{file_target, contents_target, lock_id, getting, posting, request_for, InfoTold, Understands};

use bytes::Bytes;
use cool_base::{FileId, Memory, TextOf, Token};
use http_message::{Method, Request, Response};
use outside::{Admission, StoreFault};
use std::alloc::Global;
use wopi_info::{InfoFault, read_info};

/// What the client may ask of a host.
#[derive(Drop)]
pub enum Ask {
    /// What the token may do with the file.
    Check {
        file: FileId,
        token: Token,
    },
    /// The file's content.
    Get {
        file: FileId,
        token: Token,
    },
    /// The client's lock on the file.
    Lock {
        file: FileId,
        token: Token,
    },
    /// A later end of that lock.
    Refresh {
        file: FileId,
        token: Token,
    },
    /// That the lock goes.
    Unlock {
        file: FileId,
        token: Token,
    },
    /// That this becomes the content.
    Put {
        file: FileId,
        token: Token,
        content: Bytes,
    },
}

/// What a response of 200 tells.
#[derive(Drop)]
pub enum Told {
    Info(Admission),
    Content(Bytes),
    Done,
}

#[tactic(auto, unfolding(crate::specs::Asks::file_target))]
fn file_text(alloc: Global, file: &FileId, token: &Token) -> Result<TextOf, Memory>
    ensures { IfOk result (λ text. text ≡ file_target file.now token.now) }
{
    let mut text = String::from_str(alloc, "/wopi/files/")?;
    text.push_str(file.text())?;
    text.push_str("?access_token=")?;
    text.push_str(token.text())?;
    Ok(TextOf::of(text))
}

#[tactic(auto, unfolding(crate::specs::Asks::contents_target))]
fn contents_text(alloc: Global, file: &FileId, token: &Token) -> Result<TextOf, Memory>
    ensures { IfOk result (λ text. text ≡ contents_target file.now token.now) }
{
    let mut text = String::from_str(alloc, "/wopi/files/")?;
    text.push_str(file.text())?;
    text.push_str("/contents?access_token=")?;
    text.push_str(token.text())?;
    Ok(TextOf::of(text))
}

#[tactic(auto, unfolding(crate::specs::Asks::lock_id))]
fn lock_text(alloc: Global, file: &FileId) -> Result<TextOf, Memory>
    ensures { IfOk result (λ text. text ≡ lock_id file.now) }
{
    let file = file.text();
    let text = format!(in alloc; "cool-{file}")?;
    Ok(TextOf::of(text))
}

fn get(target: TextOf) -> Request
    ensures { result ≡ getting target }
{
    Request {
        method: Method::Get,
        target,
        lock: None,
        over: None,
        old_lock: false,
        body: Bytes::new(),
    }
}

fn post(
    alloc: Global,
    target: TextOf,
    file: &FileId,
    over: &str,
    body: Bytes,
) -> Result<Request, Memory>
    ensures { IfOk result (λ r. r ≡ posting target file.now over.now body) }
{
    let lock = lock_text(alloc, file)?;
    let over = TextOf::of(String::from_str(alloc, over)?);
    Ok(Request {
        method: Method::Post,
        target,
        lock: Some(lock),
        over: Some(over),
        old_lock: false,
        body,
    })
}

fn lock_post(alloc: Global, file: &FileId, token: &Token, over: &str) -> Result<Request, Memory>
    ensures { IfOk result (λ r. r ≡ posting (file_target file.now token.now) file.now over.now []) }
{
    let target = file_text(alloc, file, token)?;
    post(alloc, target, file, over, Bytes::new())
}

fn put_post(alloc: Global, file: &FileId, token: &Token, content: &Bytes) -> Result<Request, Memory>
    ensures { IfOk result (λ r. r ≡ posting (contents_target file.now token.now) file.now (codes "PUT") content.now) }
{
    let target = contents_text(alloc, file, token)?;
    let body = content.clone()?;
    post(alloc, target, file, "PUT", body)
}

fn file_get(alloc: Global, file: &FileId, token: &Token) -> Result<Request, Memory>
    ensures { IfOk result (λ r. r ≡ getting (file_target file.now token.now)) }
{
    Ok(get(file_text(alloc, file, token)?))
}

fn contents_get(alloc: Global, file: &FileId, token: &Token) -> Result<Request, Memory>
    ensures { IfOk result (λ r. r ≡ getting (contents_target file.now token.now)) }
{
    Ok(get(contents_text(alloc, file, token)?))
}

/// The request that asks it.
pub fn request_of(alloc: Global, ask: &Ask) -> Result<Request, Memory>
    ensures { IfOk result (λ r. r ≡ request_for ask.now) }
{
    match ask {
        Ask::Check { file, token } => file_get(alloc, file, token),
        Ask::Get { file, token } => contents_get(alloc, file, token),
        Ask::Lock { file, token } => lock_post(alloc, file, token, "LOCK"),
        Ask::Refresh { file, token } => lock_post(alloc, file, token, "REFRESH_LOCK"),
        Ask::Unlock { file, token } => lock_post(alloc, file, token, "UNLOCK"),
        Ask::Put {
            file,
            token,
            content,
        } => put_post(alloc, file, token, content),
    }
}

fn lock_told(alloc: Global, response: &Response) -> Result<TextOf, Memory>
    ensures { IfOk result (λ text. text ≡ unwrap_or response.now.lock []) }
{
    match &response.lock {
        None => Ok(TextOf::of(String::new(alloc))),
        Some(lock) => Ok(TextOf::of(String::from_str(alloc, lock.get())?)),
    }
}

fn conflict(alloc: Global, ask: &Ask, response: &Response) -> Result<Told, StoreFault>
    requires { response.now.status ≡ 409 }
    ensures { Understands ask.now response.now result }
{
    let _asked = ask;
    match lock_told(alloc, response) {
        Ok(id) => Err(StoreFault::Conflict(id)),
        Err(_) => Err(StoreFault::Memory),
    }
}

fn content_told(response: &Response) -> Result<Told, StoreFault>
    ensures ok { IfOk result (λ told. told ≡ Told.Content response.now.body) }
    ensures err { IfErr result (λ fault. fault ≡ StoreFault.Memory) }
{
    match response.body.clone() {
        Ok(content) => Ok(Told::Content(content)),
        Err(_) => Err(StoreFault::Memory),
    }
}

fn info_told(alloc: Global, response: &Response) -> Result<Told, StoreFault>
    ensures { InfoTold response.now.body result }
{
    match read_info(alloc, response.body.as_slice()) {
        Ok(admission) => Ok(Told::Info(admission)),
        Err(InfoFault::BadJson) => Err(StoreFault::BadJson),
        Err(InfoFault::Memory) => Err(StoreFault::Memory),
    }
}

fn granted(alloc: Global, ask: &Ask, response: &Response) -> Result<Told, StoreFault>
    requires { response.now.status ≡ 200 }
    ensures { Understands ask.now response.now result }
{
    match ask {
        Ask::Check { .. } => info_told(alloc, response),
        Ask::Get { .. } => content_told(response),
        Ask::Lock { .. } => Ok(Told::Done),
        Ask::Refresh { .. } => Ok(Told::Done),
        Ask::Unlock { .. } => Ok(Told::Done),
        Ask::Put { .. } => Ok(Told::Done),
    }
}

/// What the response tells of what was asked: Conflict at 409 with the id of the lock that was told,
/// Denied at 401, Missing at 404, BadAnswer at any other status than 200, BadJson where a check's body
/// is not the JSON that was asked for; else what the body tells.
pub fn understand(alloc: Global, ask: &Ask, response: &Response) -> Result<Told, StoreFault>
    ensures { Understands ask.now response.now result }
{
    match response.status {
        200 => granted(alloc, ask, response),
        401 => Err(StoreFault::Denied),
        404 => Err(StoreFault::Missing),
        409 => conflict(alloc, ask, response),
        status => Err(StoreFault::BadAnswer(status)),
    }
}
