//! How answers are shown.
use bytes::Bytes;
use cool_base::Memory;
use outside::{Admission, Receipt, StoreFault, WireFault};
use std::alloc::Global;
use std::str;

/// The words.
pub fn said(alloc: Global, words: &str) -> Result<String, Memory> {
    Ok(String::from_str(alloc, words)?)
}

/// Bytes in quotes.
pub fn quoted(alloc: Global, bytes: &Bytes) -> Result<String, Memory> {
    match str::from_utf8(bytes.as_slice()) {
        Ok(text) => Ok(format!(in alloc; "'{text}'")?),
        Err(_) => said(alloc, "bytes that are no text"),
    }
}

fn wire_fault(fault: WireFault) -> &'static str {
    match fault {
        WireFault::BadHead => "BadHead",
        WireFault::HeadTooLong => "HeadTooLong",
        WireFault::BodyTooLong => "BodyTooLong",
        WireFault::BadChunk => "BadChunk",
        WireFault::CutOff => "CutOff",
        WireFault::ReadFault => "ReadFault",
        WireFault::WriteFault => "WriteFault",
    }
}

fn refused(alloc: Global, fault: &StoreFault) -> Result<String, Memory> {
    match fault {
        StoreFault::Conflict(id) => {
            let id = id.get();
            Ok(format!(in alloc; "Conflict '{id}'")?)
        }
        StoreFault::Denied => said(alloc, "Denied"),
        StoreFault::Missing => said(alloc, "Missing"),
        StoreFault::BadAnswer(status) => Ok(format!(in alloc; "BadAnswer {status}")?),
        StoreFault::Wire(fault) => said(alloc, wire_fault(*fault)),
        StoreFault::BadJson => said(alloc, "BadJson"),
        StoreFault::Memory => said(alloc, "Memory"),
    }
}

/// What a token may do.
pub fn admitted(alloc: Global, answer: &Result<Admission, StoreFault>) -> Result<String, Memory> {
    match answer {
        Ok(admission) => {
            let user = admission.user.get();
            let right = if admission.can_write {
                "writes"
            } else {
                "reads"
            };
            let size = admission.size;
            Ok(format!(in alloc; "{user} {right}, {size} bytes")?)
        }
        Err(fault) => refused(alloc, fault),
    }
}

/// A content.
pub fn fetched(alloc: Global, answer: &Result<Bytes, StoreFault>) -> Result<String, Memory> {
    match answer {
        Ok(content) => quoted(alloc, content),
        Err(fault) => refused(alloc, fault),
    }
}

/// A receipt, by its file and its content.
pub fn given(alloc: Global, answer: &Result<Receipt, StoreFault>) -> Result<String, Memory> {
    match answer {
        Ok(receipt) => {
            let file = receipt.file.text();
            let content = quoted(alloc, &receipt.content)?;
            Ok(format!(in alloc; "receipt {file} {content}")?)
        }
        Err(fault) => refused(alloc, fault),
    }
}

/// That it is done.
pub fn done(alloc: Global, answer: &Result<(), StoreFault>) -> Result<String, Memory> {
    match answer {
        Ok(()) => said(alloc, "done"),
        Err(fault) => refused(alloc, fault),
    }
}
