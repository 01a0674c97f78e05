//! What a host over a keeper in memory is asked.
use crate::words::{bytes_of, bytes_shown, number, optional, response_shown};
use cool_base::{FileId, Memory, TextOf};
use http_message::{Method, Request};
use std::alloc::Global;
use std::str::Split;
use wopi_host::{Host, KeeperFault, MemoryKeeper};

/// The host.
pub type MemoryHost = Host<MemoryKeeper>;

fn memory(fault: KeeperFault) -> Memory {
    let _fault = fault;
    Memory
}

fn request(alloc: Global, method: Method, words: &mut Split<'_, char>) -> Result<Request, Memory> {
    let target = words.next().unwrap_or("");
    Ok(Request {
        method,
        target: TextOf::of(String::from_str(alloc, target)?),
        over: optional(alloc, words.next())?,
        lock: optional(alloc, words.next())?,
        old_lock: words.next() == Some("old"),
        body: bytes_of(alloc, words.next())?,
    })
}

/// The response to a request at a moment.
pub fn answered(
    alloc: Global,
    host: &mut MemoryHost,
    method: Method,
    line: &str,
) -> Result<String, Memory> {
    let mut words = line.split(' ');
    let now = u64::from(number(words.next()));
    let request = request(alloc, method, &mut words)?;
    let response = host.answer(&request, now)?;
    response_shown(alloc, &response)
}

/// Keeps a file.
pub fn filed(alloc: Global, host: &mut MemoryHost, line: &str) -> Result<String, Memory> {
    let (name, content) = line.split_once(' ').unwrap_or((line, "-"));
    let Some(file) = FileId::read(name) else {
        return Ok(String::from_str(alloc, "no file id")?);
    };
    let content = bytes_of(alloc, Some(content))?;
    match host.add(&file, &content) {
        Ok(()) => Ok(String::from_str(alloc, "kept")?),
        Err(fault) => Err(memory(fault)),
    }
}

/// The content of a file.
pub fn content(alloc: Global, host: &mut MemoryHost, name: &str) -> Result<String, Memory> {
    let Some(file) = FileId::read(name) else {
        return Ok(String::from_str(alloc, "no file id")?);
    };
    match host.content(&file) {
        Ok(Some(content)) => bytes_shown(alloc, &content),
        Ok(None) => Ok(String::from_str(alloc, "no such file")?),
        Err(fault) => Err(memory(fault)),
    }
}

/// Gives a file the lock `x` at a moment.
#[tactic(auto, unfolding(wopi_host::specs::Table::is_lock_text))]
pub fn locked(alloc: Global, host: &mut MemoryHost, line: &str) -> Result<String, Memory> {
    let (name, now) = line.split_once(' ').unwrap_or((line, ""));
    let Some(file) = FileId::read(name) else {
        return Ok(String::from_str(alloc, "no file id")?);
    };
    host.set_lock(&file, "x", u64::from(number(Some(now))))?;
    Ok(String::from_str(alloc, "locked")?)
}

/// Takes the lock of a file away.
pub fn freed(alloc: Global, host: &mut MemoryHost, name: &str) -> Result<String, Memory> {
    let Some(file) = FileId::read(name) else {
        return Ok(String::from_str(alloc, "no file id")?);
    };
    host.clear_lock(&file);
    Ok(String::from_str(alloc, "freed")?)
}
