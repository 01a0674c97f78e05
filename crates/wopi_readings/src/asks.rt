//! What the client asks, and what it reads in a response.
use crate::words::{bytes_of, bytes_shown, number, optional, request_shown};
use bytes::Bytes;
use cool_base::{FileId, Memory, Token};
use http_message::Response;
use outside::StoreFault;
use std::alloc::Global;
use wopi_client::{Ask, Told, request_of, understand};

// What the word asks of the file `d` by the token `t-rw`.
fn ask_of(alloc: Global, word: Option<&str>) -> Result<Option<Ask>, Memory> {
    let Some(file) = FileId::read("d") else {
        return Ok(None);
    };
    let Some(token) = Token::read(alloc, "t-rw")? else {
        return Ok(None);
    };
    Ok(match word {
        Some("check") => Some(Ask::Check { file, token }),
        Some("get") => Some(Ask::Get { file, token }),
        Some("lock") => Some(Ask::Lock { file, token }),
        Some("refresh") => Some(Ask::Refresh { file, token }),
        Some("unlock") => Some(Ask::Unlock { file, token }),
        Some("put") => Some(Ask::Put {
            file,
            token,
            content: Bytes::from_static(b"abc"),
        }),
        _ => None,
    })
}

fn told_shown(alloc: Global, told: &Told) -> Result<String, Memory> {
    match told {
        Told::Info(info) => {
            let user = info.user.get();
            let size = info.size;
            let right = if info.can_write { "writes" } else { "reads" };
            Ok(format!(in alloc; "{user} {right}, {size} bytes")?)
        }
        Told::Content(content) => bytes_shown(alloc, content),
        Told::Done => Ok(String::from_str(alloc, "done")?),
    }
}

fn fault_shown(alloc: Global, fault: &StoreFault) -> Result<String, Memory> {
    let code = fault.code();
    match fault {
        StoreFault::Conflict(id) => {
            let id = id.get();
            Ok(format!(in alloc; "{code}, locked by '{id}'")?)
        }
        _ => Ok(format!(in alloc; "{code}")?),
    }
}

fn no_operation(alloc: Global) -> Result<String, Memory> {
    Ok(String::from_str(alloc, "no such operation")?)
}

/// The request that asks it.
pub fn requested(alloc: Global, line: &str) -> Result<String, Memory> {
    match ask_of(alloc, Some(line))? {
        Some(ask) => request_shown(alloc, &request_of(alloc, &ask)?),
        None => no_operation(alloc),
    }
}

/// What the client reads in the response to it.
pub fn understood(alloc: Global, line: &str) -> Result<String, Memory> {
    let mut words = line.split(' ');
    let Some(ask) = ask_of(alloc, words.next())? else {
        return no_operation(alloc);
    };
    let response = Response {
        status: number(words.next()),
        lock: optional(alloc, words.next())?,
        body: bytes_of(alloc, words.next())?,
    };
    match understand(alloc, &ask, &response) {
        Ok(told) => told_shown(alloc, &told),
        Err(fault) => fault_shown(alloc, &fault),
    }
}
