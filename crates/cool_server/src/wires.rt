// One request over one wire.
ghost use Rattle.std.specs.Prelude.{◌≡◌, MatchResult};
ghost use Rattle.edge.specs.Edges.{IsNew};
ghost use Rattle.cool_server.specs.Hosting.{Serves, RunsOut, hosting, wire_end};

use cool_base::Memory;
use http_wire::read_request;
use http_write::write_response;
use net_traits::Clock;
use outside::Wire;
use std::alloc::Global;
use wire_body::HttpFault;
use wopi_host::{Host, Keeper};

// Reads a request, answers it, and sends the response.
pub(crate) fn serve_wire<W: Wire, Q: Keeper + Drop, C: Clock>(
    alloc: Global,
    wire: &mut W,
    host: &mut Host<Q>,
    clock: &mut C,
) -> Result<(), Memory>
    requires new { IsNew (W.talk wire.old) }
    requires sound { W.faults wire.old ≡ 0 }
    ensures served { let before = hosting Q.holds Q.faults C.moments host.old clock.old in
        let after = hosting Q.holds Q.faults C.moments host.new clock.new in
        let end = wire_end W.talk W.faults wire.new in
        MatchResult result (λ _. Serves before end after) (λ _. RunsOut before end after) }
{
    let request = match read_request(alloc, wire) {
        Ok(request) => request,
        Err(HttpFault::Wire(_)) => return Ok(()),
        Err(HttpFault::Memory) => return Err(Memory),
    };
    let now = clock.now();
    let response = host.answer(&request, now)?;
    match write_response(alloc, wire, &response) {
        Ok(()) => Ok(()),
        Err(HttpFault::Wire(_)) => Ok(()),
        Err(HttpFault::Memory) => Err(Memory),
    }
}
