//! What links in the lobby are answered.
ghost use Rattle.std.specs.Prelude.{◌≡◌, IfOk, None, codes};
ghost use Rattle.script_world.specs.Seats.{is_waiting, tells, lobby_frame};
ghost use Rattle.script_world.specs.House.{lobby_tells};

use crate::seats::{Seats, record};
use cool_base::{Memory, TextOf};
use cool_frame::{ErrorKind, Frame};
use cool_message::{ClientMessage, MessageFault, command_of, read_message};
use std::alloc::Global;

/// The frame that refuses a command.
fn error_frame(alloc: Global, command: &str, kind: ErrorKind) -> Result<Frame, Memory>
    ensures { IfOk result (λ frame. frame ≡ Frame.Error command.now kind None) }
{
    let cmd = TextOf::of(String::from_str(alloc, command)?);
    Ok(Frame::Error {
        cmd,
        kind,
        code: None,
    })
}

/// What a message in the lobby is answered.
fn lobby_frame(alloc: Global, text: &[u8]) -> Result<Frame, Memory>
    ensures { IfOk result (λ frame. frame ≡ lobby_frame text.now) }
{
    match read_message(alloc, text) {
        Ok(ClientMessage::CoolClient) => Ok(Frame::Server),
        Ok(ClientMessage::Load { url: _ }) => error_frame(alloc, "load", ErrorKind::BadMessage),
        Ok(_) => error_frame(alloc, command_of(text), ErrorKind::NotLoaded),
        Err(MessageFault::Memory) => Err(Memory),
        Err(_) => error_frame(alloc, command_of(text), ErrorKind::BadMessage),
    }
}

/// The records of the answer to a link, where it is in the lobby.
pub(crate) fn lobby_record(
    alloc: Global,
    seats: &Seats,
    link: u32,
    text: &[u8],
) -> Result<Vec<u8>, Memory>
    ensures { IfOk result (λ bytes. bytes.items ≡ lobby_tells (is_waiting seats.now link) link text.now) }
{
    if !seats.is_waiting(link) {
        return Ok(Vec::new(alloc));
    }
    let frame = lobby_frame(alloc, text)?;
    record(alloc, link, &frame)
}

/// The record of the frame that refuses a load.
pub(crate) fn load_refusal(alloc: Global, link: u32, kind: ErrorKind) -> Result<Vec<u8>, Memory>
    ensures { IfOk result (λ bytes. bytes.items ≡ tells link (Frame.Error (codes "load") kind None)) }
{
    let frame = error_frame(alloc, "load", kind)?;
    record(alloc, link, &frame)
}
