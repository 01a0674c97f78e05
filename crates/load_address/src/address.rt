//! `read_address`.
ghost use Rattle.std.specs.Prelude.{◌≡◌, ◌==◌, IfOk, option_map};
ghost use Rattle.std.specs.List.{list_any};
ghost use Rattle.std.specs.Option.{option_copied};
ghost use Rattle.load_address.specs.Addresses.{address, address_of_text, has_colon, text_of};
ghost use Rattle.load_address.specs.Named.{named};

use crate::places::{file_in, read_url};
use crate::served::Served;
use crate::words::token_in;
use cool_base::{FileId, Memory, Token};
use cool_words::percent_decoded;
use std::alloc::Global;

/// What the address of a load names.
#[derive(Drop)]
pub struct LoadAddress {
    pub file: FileId,
    pub token: Token,
}

fn has_colon(text: &[u8]) -> bool
    ensures { result ≡ has_colon text.now }
{
    text.iter().any(|byte| *byte == b':')
}

// The text that the bytes are; None where they aren't UTF-8.
#[tactic(auto, using(crate::proofs::Texts::text_of_utf8, crate::proofs::Texts::text_of_others))]
fn text_of(bytes: &[u8]) -> Option<&str>
    ensures { option_copied result ≡ text_of bytes.now }
{
    match std::str::from_utf8(bytes) {
        Ok(text) => Some(text),
        Err(_) => None,
    }
}

fn address_of_text(
    alloc: Global,
    served: &Served,
    text: &str,
) -> Result<Option<LoadAddress>, Memory>
    ensures { IfOk result (λ found. option_map named found ≡ address_of_text served.now text.now) }
{
    let Some(url) = read_url(alloc, text)? else {
        return Ok(None);
    };
    let Some(file) = file_in(served, &url) else {
        return Ok(None);
    };
    let Some(token) = token_in(alloc, text)? else {
        return Ok(None);
    };
    Ok(Some(LoadAddress { file, token }))
}

/// What the `url` of a load names on the served host: a file and a token. `Ok(None)` where it
/// names none.
pub fn read_address(
    alloc: Global,
    served: &Served,
    url: &str,
) -> Result<Option<LoadAddress>, Memory>
    ensures { IfOk result (λ found. option_map named found ≡ address served.now url.now) }
{
    if has_colon(url.as_bytes()) {
        return address_of_text(alloc, served, url);
    }
    let bytes = percent_decoded(alloc, url.as_bytes())?;
    match text_of(bytes.as_slice()) {
        Some(text) => address_of_text(alloc, served, text),
        None => Ok(None),
    }
}
