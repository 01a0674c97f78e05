// The command `host`.
ghost use Rattle.std.specs.Prelude.{◌≡◌, true, map, string_bytes};
ghost use Rattle.outside.specs.Causes.{HasCause};
ghost use Rattle.edge.specs.Edges.{edge_failed};
ghost use Rattle.server_words.specs.Hosts.{said_of};
ghost use Rattle.cool_server.specs.Hosting.{HostServes, ServesSaid, ServesNext, ServesWires};
ghost use Rattle.cool_server.specs.Hosting.{fault_status, hosting};

use crate::statuses::{DONE, EDGE_FAULT, NO_MEMORY, WRONG_WORDS};
use crate::wires::serve_wire;
use cool_base::Memory;
use edge::{Edge, EdgeFault};
use server_words::{HostWords, WordsFault, host_words};
use std::alloc::Global;
use std::sync::Wait;
use wopi_host::{Host, Keeper};

// Accepts a wire, serves it, and gives it back.
fn serve_next<E: Edge>(
    alloc: Global,
    edge: &mut E,
    host: &mut Host<E::Keeper>,
    clock: &mut E::Clock,
    port: u16,
) -> Result<(), EdgeFault>
    ensures served { let before = hosting E.Keeper.holds E.Keeper.faults E.Clock.moments host.old clock.old in
        let after = hosting E.Keeper.holds E.Keeper.faults E.Clock.moments host.new clock.new in
        ServesNext (E.told edge.old) before result (E.told edge.new) after }
    ensures cause { HasCause (E.faults edge.old) (E.faults edge.new) (edge_failed result ≡ true) }
{
    let mut wire = match edge.accept(alloc, port) {
        Ok(wire) => wire,
        Err(fault) => return Err(fault),
    };
    let served = serve_wire(alloc, &mut wire, host, clock);
    edge.close_wire(wire);
    match served {
        Ok(()) => Ok(()),
        Err(Memory) => Err(EdgeFault::Memory),
    }
}

// The status of a fault.
fn status_of(fault: EdgeFault) -> u8
    ensures { result ≡ fault_status fault }
{
    match fault {
        EdgeFault::Net => EDGE_FAULT,
        EdgeFault::Memory => NO_MEMORY,
    }
}

// Serves so many wires, or wires without end where `requests` is 0.
fn serve_wires<R: Wait, E: Edge>(
    rt: &R,
    alloc: Global,
    edge: &mut E,
    host: &mut Host<E::Keeper>,
    clock: &mut E::Clock,
    port: u16,
    requests: u64,
) -> u8
    ensures served { let before = hosting E.Keeper.holds E.Keeper.faults E.Clock.moments host.old clock.old in
        let after = hosting E.Keeper.holds E.Keeper.faults E.Clock.moments host.new clock.new in
        ServesWires requests (E.told edge.old) before result (E.told edge.new) after }
    ensures cause { HasCause (E.faults edge.old) (E.faults edge.new) (result ≡ 8) }
{
    let mut left = requests;
    for _ in rt.forever() {
        match serve_next(alloc, edge, host, clock, port) {
            Ok(()) => {}
            Err(fault) => return status_of(fault),
        }
        if requests > 0 {
            left -= 1;
            if left == 0 {
                return DONE;
            }
        }
    }
    unreachable!()
}

// Serves what the words want.
fn serve_words<R: Wait, E: Edge>(rt: &R, alloc: Global, words: &HostWords<'_>, edge: &mut E) -> u8
    ensures served { ServesSaid (said_of words.now) (E.told edge.old) result (E.told edge.new) }
    ensures cause { HasCause (E.faults edge.old) (E.faults edge.new) (result ≡ 8) }
{
    let keeper = match edge.keeper(alloc, words.folder) {
        Ok(keeper) => keeper,
        Err(fault) => return status_of(fault),
    };
    let Ok(mut host) = Host::new(alloc, keeper) else {
        return NO_MEMORY;
    };
    let mut clock = edge.clock();
    let status = serve_wires(
        rt,
        alloc,
        edge,
        &mut host,
        &mut clock,
        words.port,
        words.requests,
    );
    edge.close_keeper(host.into_keeper());
    status
}

/// Serves the host of files by the words of the command `host`, without the program's name: one
/// wire and one request after the other, over whatever the edge is. What it answers is the exit
/// status: 0 after as many wires as `--requests` wants, 2 where the words are refused, 6 where
/// memory ran out, 8 where the edge failed. It may wait for a wire without end.
pub fn host_serve<R: Wait, E: Edge>(rt: &R, alloc: Global, words: &[String], edge: &mut E) -> u8
    ensures served { let said = map string_bytes words.now in
        HostServes said (E.told edge.old) result (E.told edge.new) }
    ensures cause { HasCause (E.faults edge.old) (E.faults edge.new) (result ≡ 8) }
{
    match host_words(alloc, words) {
        Ok(said) => serve_words(rt, alloc, &said, edge),
        Err(WordsFault::Refused) => WRONG_WORDS,
        Err(WordsFault::Memory) => NO_MEMORY,
    }
}
