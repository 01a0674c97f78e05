//! The words of a line, and how values are shown. A word that isn't there is `-`.
use bytes::Bytes;
use cool_base::{Memory, TextOf, read_number};
use http_message::{Method, Request, Response};
use std::alloc::Global;
use std::str;

/// The text of a word.
pub fn optional(alloc: Global, word: Option<&str>) -> Result<Option<TextOf>, Memory> {
    match word {
        None | Some("-") => Ok(None),
        Some(word) => Ok(Some(TextOf::of(String::from_str(alloc, word)?))),
    }
}

/// The bytes of a word, none of them where it isn't there.
pub fn bytes_of(alloc: Global, word: Option<&str>) -> Result<Bytes, Memory> {
    match word {
        None | Some("-") => Ok(Bytes::new()),
        Some(word) => Ok(Bytes::copy_from_slice(alloc, word.as_bytes())?),
    }
}

/// The number that a word writes, at most 65,535; 0 where it writes none.
pub fn number(word: Option<&str>) -> u16 {
    let number = read_number(word.unwrap_or("").as_bytes(), 5, 65_535).unwrap_or(0);
    u16::try_from(number).unwrap_or(0)
}

fn text_shown(alloc: Global, text: &Option<TextOf>) -> Result<String, Memory> {
    match text {
        None => Ok(String::from_str(alloc, "-")?),
        Some(text) => {
            let text = text.get();
            Ok(format!(in alloc; "'{text}'")?)
        }
    }
}

/// Bytes in quotes.
pub fn bytes_shown(alloc: Global, bytes: &Bytes) -> Result<String, Memory> {
    match str::from_utf8(bytes.as_slice()) {
        Ok(text) => Ok(format!(in alloc; "'{text}'")?),
        Err(_) => Ok(String::from_str(alloc, "bytes that are no text")?),
    }
}

/// A response in one line.
pub fn response_shown(alloc: Global, response: &Response) -> Result<String, Memory> {
    let status = response.status;
    let lock = text_shown(alloc, &response.lock)?;
    let body = bytes_shown(alloc, &response.body)?;
    Ok(format!(in alloc; "{status} {lock} {body}")?)
}

/// A request in one line.
pub fn request_shown(alloc: Global, request: &Request) -> Result<String, Memory> {
    let method = match request.method {
        Method::Get => "GET",
        Method::Post => "POST",
        Method::Other => "OTHER",
    };
    let target = request.target.get();
    let lock = text_shown(alloc, &request.lock)?;
    let over = text_shown(alloc, &request.over)?;
    let body = bytes_shown(alloc, &request.body)?;
    Ok(format!(in alloc; "{method} {target} {lock} {over} {body}")?)
}
