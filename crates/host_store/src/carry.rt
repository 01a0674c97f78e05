// A request to the host, and a response back, each over a wire of its own.
ghost use Rattle.std.specs.Prelude.{◌≡◌, ◌≤◌, ◌⊎◌, true, length, IfOk, OnOk, IfErr};
ghost use Rattle.outside.specs.Wires.{silence, with_sent};
ghost use Rattle.http_message.specs.Statuses.{HasDueBody};
ghost use Rattle.http_write.specs.Texts.{request_bytes, response_bytes};
ghost use Rattle.wopi_client.specs.Asks.{request_for};
ghost use Rattle.wopi_limits.specs.Sound.{IsNamed, IsSound};
ghost use Rattle.host_store.specs.Exchanges.{host_name, is_loss, IsReadOf};
ghost use Rattle.host_store.specs.declared.loops.TheConstants.{WIRE_ROOM};

use crate::loops::LoopWire;
use cool_base::{FileId, Token};
use http_message::{Request, Response};
use http_wire::{read_request, read_response};
use http_write::{write_request, write_response};
use outside::{StoreFault, WireFault};
use std::alloc::Global;
use wire_body::HttpFault;
use wopi_client::{Ask, request_of};
use wopi_limits::client_requests_are_within;

const HOST: &str = "wopi.test";

// The fault as the store says it, where a wire failed in this way.
fn loss(fault: HttpFault, way: WireFault) -> StoreFault
    requires { (way ≡ WireFault.ReadFault) ⊎ (way ≡ WireFault.WriteFault) }
    ensures { is_loss result ≡ true }
{
    match fault {
        HttpFault::Wire(_) => StoreFault::Wire(way),
        HttpFault::Memory => StoreFault::Memory,
    }
}

// A file id and a token name what they name.
fn names_are_sound(file: &FileId, token: &Token)
    ensures { IsNamed file.now token.now }
{
    let _file = file.text();
    let _token = token.text();
}

// What is asked is sound where its body is within the limit.
fn ask_is_sound(ask: &Ask)
    requires { length (request_for ask.now).body ≤ WIRE_ROOM }
    ensures { IsSound ask.now }
{
    match ask {
        Ask::Check { file, token } => names_are_sound(file, token),
        Ask::Get { file, token } => names_are_sound(file, token),
        Ask::Lock { file, token } => names_are_sound(file, token),
        Ask::Refresh { file, token } => names_are_sound(file, token),
        Ask::Unlock { file, token } => names_are_sound(file, token),
        Ask::Put { file, token, .. } => names_are_sound(file, token),
    }
}

// Sends the request that asks it, over a wire over which nothing was said.
fn send_request(alloc: Global, wire: &mut LoopWire, ask: &Ask) -> Result<(), StoreFault>
    requires { wire.old.talk ≡ silence }
    ensures sent { OnOk result
        (wire.new.talk ≡ with_sent (request_bytes host_name (request_for ask.now)) silence) }
    ensures lost { IfErr result (λ fault. is_loss fault ≡ true) }
{
    let Ok(request) = request_of(alloc, ask) else {
        return Err(StoreFault::Memory);
    };
    match write_request(alloc, wire, HOST, &request) {
        Ok(_) => Ok(()),
        Err(fault) => Err(loss(fault, WireFault::WriteFault)),
    }
}

// Receives the request that was sent.
fn receive_request(alloc: Global, wire: &mut LoopWire, ask: &Ask) -> Result<Request, StoreFault>
    requires { wire.old.talk ≡ with_sent (request_bytes host_name (request_for ask.now)) silence }
    ensures carried { IfOk result (λ request. request ≡ request_for ask.now) }
    ensures lost { IfErr result (λ fault. is_loss fault ≡ true) }
{
    wire.is_loop();
    ask_is_sound(ask);
    client_requests_are_within();
    let answer = read_request(alloc, wire);
    wire.is_loop();
    match answer {
        Ok(request) => Ok(request),
        Err(fault) => Err(loss(fault, WireFault::ReadFault)),
    }
}

/// The request that asks it, as the host reads it.
pub fn carry_request(alloc: Global, wire: &mut LoopWire, ask: &Ask) -> Result<Request, StoreFault>
    ensures carried { IfOk result (λ request. request ≡ request_for ask.now) }
    ensures lost { IfErr result (λ fault. is_loss fault ≡ true) }
{
    wire.clear();
    match send_request(alloc, wire, ask) {
        Ok(_) => receive_request(alloc, wire, ask),
        Err(fault) => Err(fault),
    }
}

// Receives the response that was sent.
fn receive_response(
    alloc: Global,
    wire: &mut LoopWire,
    response: &Response,
) -> Result<Response, StoreFault>
    requires { wire.old.talk ≡ with_sent (response_bytes response.now) silence }
    ensures carried { IfOk result (IsReadOf (response_bytes response.now)) }
    ensures lost { IfErr result (λ fault. is_loss fault ≡ true) }
{
    let _sent = response;
    let answer = read_response(alloc, wire);
    wire.is_loop();
    match answer {
        Ok(heard) => Ok(heard),
        Err(fault) => Err(loss(fault, WireFault::ReadFault)),
    }
}

/// The response as the client reads it.
pub fn carry_response(
    alloc: Global,
    wire: &mut LoopWire,
    response: &Response,
) -> Result<Response, StoreFault>
    requires { HasDueBody response.now }
    ensures carried { IfOk result (IsReadOf (response_bytes response.now)) }
    ensures lost { IfErr result (λ fault. is_loss fault ≡ true) }
{
    wire.clear();
    match write_response(alloc, wire, response) {
        Ok(_) => receive_response(alloc, wire, response),
        Err(fault) => Err(loss(fault, WireFault::WriteFault)),
    }
}
