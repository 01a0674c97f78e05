//! Words and lines.
use cool_base::{Memory, read_u64};
use save_core::{SaveAnswer, Started};
use std::alloc::Global;
use std::str::from_utf8;

/// The text before the first space, and that after it.
pub(crate) fn split(text: &str) -> (&str, &str) {
    text.split_once(' ').unwrap_or((text, ""))
}

/// The number that the text is, 0 where it is none.
pub(crate) fn number(text: &str) -> u64 {
    read_u64(text.as_bytes()).unwrap_or(0)
}

/// What began: the put's ticket, file, token, content and number, and the views that need none.
pub(crate) fn started_text(alloc: Global, started: &Started) -> Result<String, Memory> {
    let mut text = String::new(alloc);
    match &started.errand {
        Some(errand) => {
            let (ticket, number) = (errand.ticket.0, errand.number);
            let (file, token) = (errand.file.text(), errand.token.text());
            let content = from_utf8(errand.content.as_slice()).unwrap_or("?");
            let head = format!(in alloc; "put {ticket} of {file} with {token}")?;
            let tail = format!(in alloc; ": {content}, {number}")?;
            text.push_str(head.as_str())?;
            text.push_str(tail.as_str())?;
        }
        None => text.push_str("no put")?,
    }
    for view in started.unmodified.as_slice() {
        let number = view.0;
        let word = format!(in alloc; "; unmodified {number}")?;
        text.push_str(word.as_str())?;
    }
    Ok(text)
}

/// What a save is answered.
pub(crate) fn text_of(alloc: Global, answer: &SaveAnswer) -> Result<String, Memory> {
    let number = answer.number;
    let word = if answer.stored { "stored" } else { "failed" };
    match answer.view {
        Some(view) => {
            let view = view.0;
            Ok(format!(in alloc; "view {view}: {number} {word}")?)
        }
        None => Ok(format!(in alloc; "no view: {number} {word}")?),
    }
}
