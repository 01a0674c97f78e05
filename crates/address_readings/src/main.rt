//! Reads lines, each a served host, a blank and the address of a load, and prints what the address
//! names on that host: a file and a token, or nothing.
#![tactic(auto)]

use anyhow::Result;
use load_address::{Served, read_address};

fn main(rt: HostRuntime) -> Result<()> {
    for line in rt.lines(rt.alloc()) {
        let line = line?;
        println!(rt; "{line}")?;
        let (host, address) = line.split_once(' ').unwrap_or((line.as_str(), ""));
        show(&rt, host, address)?;
    }
    Ok(())
}

// Prints what the address names on the host.
fn show(rt: &HostRuntime, host: &str, address: &str) -> Result<()> {
    let served = Served::read(rt.alloc(), host)?;
    match read_address(rt.alloc(), &served, address)? {
        Some(found) => {
            let file = found.file.text();
            let token = found.token.text();
            println!(rt; "  file {file} token {token}")?;
        }
        None => println!(rt; "  nothing")?,
    }
    Ok(())
}
