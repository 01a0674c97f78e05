//! The acts on a store.
use crate::answers::{admitted, done, fetched, given, quoted, said};
use bytes::Bytes;
use cool_base::{FileId, Memory, Ticket, Token, read_u64};
use host_store::HostStore;
use outside::{Errand, Store};
use std::alloc::Global;

// The first word, and what comes after it.
fn cut(line: &str) -> (&str, &str) {
    line.split_once(' ').unwrap_or((line, ""))
}

// The number that the word writes; 0 where it writes none.
fn number(word: &str) -> u64 {
    read_u64(word.as_bytes()).unwrap_or(0)
}

// The bytes of a word.
fn bytes_of(alloc: Global, word: &str) -> Result<Bytes, Memory> {
    match word {
        "-" => Ok(Bytes::new()),
        _ => Ok(Bytes::copy_from_slice(alloc, word.as_bytes())?),
    }
}

/// What the act answers that the line names.
pub fn act(alloc: Global, store: &mut HostStore, line: &str) -> Result<String, Memory> {
    let (word, rest) = cut(line);
    match word {
        "time" => {
            store.set_time(number(rest));
            let moment = store.moment();
            Ok(format!(in alloc; "moment {moment}")?)
        }
        "fail" => {
            store.fail_next(number(rest));
            said(alloc, "done")
        }
        _ => act_on_file(alloc, store, word, rest),
    }
}

// An act on a file, which is the first word.
fn act_on_file(
    alloc: Global,
    store: &mut HostStore,
    word: &str,
    line: &str,
) -> Result<String, Memory> {
    let (name, rest) = cut(line);
    let Some(file) = FileId::read(name) else {
        return said(alloc, "no file id");
    };
    match word {
        "file" => filed(alloc, store, &file, rest),
        "content" => content(alloc, store, &file),
        "lock" => locked(alloc, store, &file, rest),
        "clear" => {
            store.clear_lock(&file);
            said(alloc, "cleared")
        }
        _ => ask(alloc, store, word, &file, rest),
    }
}

// A call of the store, by the token that is the first word.
fn ask(
    alloc: Global,
    store: &mut HostStore,
    word: &str,
    file: &FileId,
    line: &str,
) -> Result<String, Memory> {
    let (name, rest) = cut(line);
    let Some(token) = Token::read(alloc, name)? else {
        return said(alloc, "no token");
    };
    match word {
        "admit" => admitted(alloc, &store.admit(alloc, file, &token)),
        "fetch" => fetched(alloc, &store.fetch(alloc, file, &token, rest == "rw")),
        "put" => put(alloc, store, file, token, rest),
        "refresh" => done(alloc, &store.refresh(alloc, file, &token)),
        "unlock" => done(alloc, &store.unlock(alloc, file, &token)),
        _ => said(alloc, "no such act"),
    }
}

fn put(
    alloc: Global,
    store: &mut HostStore,
    file: &FileId,
    token: Token,
    line: &str,
) -> Result<String, Memory> {
    let (count, content) = cut(line);
    let errand = Errand {
        ticket: Ticket(1),
        file: file.copy(),
        token,
        content: bytes_of(alloc, content)?,
        number: number(count),
    };
    given(alloc, &store.put(alloc, &errand))
}

fn filed(
    alloc: Global,
    store: &mut HostStore,
    file: &FileId,
    word: &str,
) -> Result<String, Memory> {
    let content = bytes_of(alloc, word)?;
    match store.add(file, &content) {
        Ok(()) => said(alloc, "kept"),
        Err(_) => Err(Memory),
    }
}

fn content(alloc: Global, store: &mut HostStore, file: &FileId) -> Result<String, Memory> {
    match store.content(file) {
        Ok(Some(content)) => quoted(alloc, &content),
        Ok(None) => said(alloc, "no such file"),
        Err(_) => Err(Memory),
    }
}

#[tactic(auto, unfolding(wopi_host::specs::Table::is_lock_text))]
fn locked(
    alloc: Global,
    store: &mut HostStore,
    file: &FileId,
    owner: &str,
) -> Result<String, Memory> {
    match owner {
        "x" => store.set_lock(file, "x")?,
        "cool-d" => store.set_lock(file, "cool-d")?,
        "two words" => store.set_lock(file, "two words")?,
        _ => return said(alloc, "no such owner"),
    }
    said(alloc, "locked")
}
