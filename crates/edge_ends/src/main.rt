//! The ends of the machine's edge: nets and stores are asked for over any edge, used once and given
//! back, and what came of it is printed.
#![tactic(auto)]

use anyhow::{Result, anyhow};
use cool_base::{FileId, Token};
use edge::{Edge, EdgeFault};
use net_traits::{Net, Taken};
use outside::Store;
use real_edge::RealEdge;
use std::alloc::Global;
use std::net::TcpListener;

/// The code for what was not given because a call on the system failed.
const FAILED: u16 = 1;

/// The code for what was not given for want of memory.
const NO_MEMORY: u16 = 2;

/// The code for what was given.
const GIVEN: u16 = 0;

fn main(rt: HostRuntime) -> Result<()> {
    let alloc = rt.alloc();
    let mut edge = RealEdge::new(&rt);
    println!(rt;
        "a net that listens: {}",
        net_end(alloc, &mut edge, Some(0))?
    )?;
    println!(rt; "a net that doesn't: {}", net_end(alloc, &mut edge, None)?)?;
    println!(rt;
        "a net on a port that is taken: {}",
        taken_end(&rt, &mut edge)?
    )?;
    for host in ["127.0.0.1:1", "127.0.0.1", "127.0.0.1:port"] {
        println!(rt;
            "a store over {host}: {}",
            store_end(alloc, &mut edge, host)?
        )?;
    }
    Ok(())
}

fn code_of(fault: EdgeFault) -> u16 {
    match fault {
        EdgeFault::Net => FAILED,
        EdgeFault::Memory => NO_MEMORY,
    }
}

// Asks for a net, takes once, which finds nothing, and gives it back.
fn net_end<E: Edge>(alloc: Global, edge: &mut E, port: Option<u16>) -> Result<u16> {
    let mut net = match edge.net(alloc, port, 1) {
        Ok(net) => net,
        Err(fault) => return Ok(code_of(fault)),
    };
    let taken = net.take(alloc);
    edge.close_net(net);
    match taken? {
        Taken::Nothing => Ok(GIVEN),
        _ => Err(anyhow!("something was taken")),
    }
}

// Asks for a net on a port on which something listens.
fn taken_end<E: Edge>(rt: &HostRuntime, edge: &mut E) -> Result<u16> {
    let listener = TcpListener::bind(rt, ("127.0.0.1", 0))?;
    let port = listener.local_addr()?.port();
    net_end(rt.alloc(), edge, Some(port))
}

// Asks for a store, asks it about a file, and gives it back. The code of the answer.
fn store_end<E: Edge>(alloc: Global, edge: &mut E, host: &str) -> Result<u16> {
    let Some(file) = FileId::read("d") else {
        return Err(anyhow!("no file id"));
    };
    let Some(token) = Token::read(alloc, "t-rw")? else {
        return Err(anyhow!("no token"));
    };
    let mut store = match edge.store(alloc, host) {
        Ok(store) => store,
        Err(fault) => return Ok(code_of(fault)),
    };
    let asked = store.admit(alloc, &file, &token);
    edge.close_store(store);
    match asked {
        Ok(_) => Ok(200),
        Err(fault) => Ok(fault.code()),
    }
}
