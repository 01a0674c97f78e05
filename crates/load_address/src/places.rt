//! What a URL says of host, port and file.
ghost use Rattle.std.specs.Prelude.{◌≡◌, IfOk, Some, None, option_map, unwrap_or};
ghost use Rattle.std.specs.Option.{option_copied};
ghost use Rattle.url.specs.Host.{host_text};
ghost use Rattle.url.specs.Parser.{parse_url};
ghost use Rattle.url.specs.Parts.{nonempty_host};
ghost use Rattle.load_address.specs.Addresses.{url_of, host_name, port_number, is_served, is_host};
ghost use Rattle.load_address.specs.Addresses.{file_at, file_in};

use crate::served::Served;
use cool_base::{FileId, Memory, TextOf};
use std::alloc::Global;
use url::{ParseError, Url};

// The URL that the text is; None where it is none.
pub(crate) fn read_url(alloc: Global, text: &str) -> Result<Option<Url>, Memory>
    ensures { IfOk result (λ found. found ≡ url_of (parse_url None text.now)) }
{
    match Url::parse(alloc, text) {
        Ok(url) => Ok(Some(url)),
        Err(ParseError::OutOfMemory) => Err(Memory),
        Err(ParseError::Overflow) => Err(Memory),
        Err(_) => Ok(None),
    }
}

// The name of its host, with a copy of its text.
pub(crate) fn host_of(alloc: Global, url: &Url) -> Result<Option<TextOf>, Memory>
    ensures { IfOk result (λ host. host ≡ host_name url.now) }
{
    match url.host_str() {
        Some(host) => Ok(Some(TextOf::of(String::from_str(alloc, host)?))),
        None => Ok(None),
    }
}

// Its port, which is 80 where it isn't written.
pub(crate) fn port_of(url: &Url) -> u16
    ensures { result ≡ port_number url.now }
{
    match url.port() {
        Some(port) => port,
        None => 80,
    }
}

fn is_host(served: &Served, url: &Url) -> bool
    ensures { result ≡ is_host served.now.host (host_name url.now) }
{
    match (&served.host, url.host_str()) {
        (Some(name), Some(host)) => name.get() == host,
        _ => false,
    }
}

fn is_served(served: &Served, url: &Url) -> bool
    ensures { result ≡ is_served served.now url.now }
{
    url.scheme() == "http" && is_host(served, url) && port_of(url) == served.port
}

fn file_at(path: &str) -> Option<FileId>
    ensures { result ≡ file_at path.now }
{
    match path.strip_prefix("/wopi/files/") {
        Some(file) => FileId::read(file),
        None => None,
    }
}

// The file that the URL names on the served host.
pub(crate) fn file_in(served: &Served, url: &Url) -> Option<FileId>
    ensures { result ≡ file_in served.now url.now }
{
    if is_served(served, url) {
        file_at(url.path())
    } else {
        None
    }
}
