//! `lobby_act`.
ghost use Rattle.std.specs.Prelude.{◌≡◌, IfOk, None};
ghost use Rattle.cool_message.specs.Reading.{reading};
ghost use Rattle.cool_frame.specs.Frames.{frame_bytes};
ghost use Rattle.cool_frame.specs.declared.frame.Frame.TheVariants.{Error as ErrorFrame};
ghost use Rattle.poll_lobby.specs.Acts.{act_for};
ghost use Rattle.poll_lobby.specs.declared.acts.LobbyAct.TheVariants.{Answer};

use cool_base::{ListOf, Memory, TextOf};
use cool_frame::{ErrorKind, Frame, write_frame};
use cool_message::{ClientMessage, MessageFault, command_of, read_message};
use std::alloc::Global;

/// What comes of a message of a lobby's link.
#[derive(Drop)]
pub enum LobbyAct {
    /// The link is given these bytes of one frame.
    Answer(ListOf<u8>),
    /// A load of this address begins.
    Load(TextOf),
}

fn answer(alloc: Global, frame: &Frame) -> Result<LobbyAct, Memory>
    ensures { IfOk result (λ act. act ≡ Answer (frame_bytes frame.now)) }
{
    Ok(LobbyAct::Answer(ListOf::of(write_frame(alloc, frame)?)))
}

fn refuse(alloc: Global, command: &str, kind: ErrorKind) -> Result<LobbyAct, Memory>
    ensures { IfOk result (λ act. act ≡ Answer (frame_bytes (ErrorFrame command.now kind None))) }
{
    let cmd = TextOf::of(String::from_str(alloc, command)?);
    answer(
        alloc,
        &Frame::Error {
            cmd,
            kind,
            code: None,
        },
    )
}

/// What comes of a text, of any bytes, that a link of a lobby says: `coolclient` is greeted, `load`
/// begins a load, any other message is answered `notloaded`, and a text that is no message
/// `badmessage`.
pub fn lobby_act(alloc: Global, text: &[u8]) -> Result<LobbyAct, Memory>
    ensures { IfOk result (λ act. act ≡ act_for text.now (reading text.now)) }
{
    match read_message(alloc, text) {
        Ok(ClientMessage::CoolClient) => answer(alloc, &Frame::Server),
        Ok(ClientMessage::Load { url }) => Ok(LobbyAct::Load(url)),
        Ok(_) => refuse(alloc, command_of(text), ErrorKind::NotLoaded),
        Err(MessageFault::Memory) => Err(Memory),
        Err(_) => refuse(alloc, command_of(text), ErrorKind::BadMessage),
    }
}
