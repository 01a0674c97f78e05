//! `Served`.
ghost use Rattle.std.specs.Prelude.{◌≡◌, ◌++◌, IfOk, codes};
ghost use Rattle.load_address.specs.Addresses.{served_by, url_of};

use crate::places::{host_of, port_of, read_url};
use cool_base::{Memory, TextOf};
use std::alloc::Global;

/// The host of files that a poll serves: its name, in lower case, and its port.
#[derive(Drop)]
pub struct Served {
    pub(crate) host: Option<TextOf>,
    pub(crate) port: u16,
}

impl Served {
    /// The host that the text names, with its port behind a `:`; a port that isn't written is 80. A
    /// text that names none serves no address.
    pub fn read(alloc: Global, text: &str) -> Result<Served, Memory>
        ensures { IfOk result (λ served. served ≡ served_by text.now) }
    {
        let address = format!(in alloc; "http://{text}/")?;
        match read_url(alloc, address.as_str())? {
            Some(url) => Ok(Served {
                host: host_of(alloc, &url)?,
                port: port_of(&url),
            }),
            None => Ok(Served {
                host: None,
                port: 80,
            }),
        }
    }
}
