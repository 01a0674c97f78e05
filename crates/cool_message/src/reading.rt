//! A text read as a message.
ghost use Rattle.std.specs.Prelude.{◌≡◌, ◌≢◌, ◌↔◌, IfOk, IfErr, Ok, Err};
ghost use Rattle.std.specs.List.{list_all};
ghost use Rattle.cool_words.specs.Words.{is_blank, words};
ghost use Rattle.cool_message.specs.Reading.{reading, said, tabled, uno, with_command, fault_of, texts};
ghost use Rattle.cool_message.specs.Table.{fields_of};
ghost use Rattle.cool_message.specs.declared.fault.MessageFault.TheVariants.{Memory};

use crate::fault::{MessageFault, Word};
use crate::faults::fault_of;
use crate::limits::MESSAGE_LIMIT;
use crate::message::ClientMessage;
use crate::table::Command;
use crate::values::message_from;
use cool_words::words;
use std::alloc::Global;

/// The message that the text says, or the first fault: in time linear in the text's length. The first
/// three faults are judged before any memory is taken; `Memory` may come in place of any other answer.
#[tactic(auto, unfolding(crate::specs::Reading::reading))]
pub fn read_message(alloc: Global, text: &[u8]) -> Result<ClientMessage, MessageFault>
    ensures ok { IfOk result (λ message. reading text.now ≡ Ok message) }
    ensures refused { IfErr result (λ fault. fault ≢ Memory → reading text.now ≡ Err fault) }
    ensures empty { (result ≡ Err MessageFault.Empty) ↔ (reading text.now ≡ Err MessageFault.Empty) }
    ensures too_long { (result ≡ Err MessageFault.TooLong) ↔ (reading text.now ≡ Err MessageFault.TooLong) }
    ensures not_utf8 { (result ≡ Err MessageFault.NotUtf8) ↔ (reading text.now ≡ Err MessageFault.NotUtf8) }
{
    if is_blank_text(text) {
        return Err(MessageFault::Empty);
    }
    if text.len() > MESSAGE_LIMIT {
        return Err(MessageFault::TooLong);
    }
    let Ok(text) = std::str::from_utf8(text) else {
        return Err(MessageFault::NotUtf8);
    };
    read_text(alloc, text)
}

/// What the words of the text say.
fn read_text(alloc: Global, text: &str) -> Result<ClientMessage, MessageFault>
    ensures ok { IfOk result (λ message. said (words text.now) ≡ Ok message) }
    ensures refused { IfErr result (λ fault. fault ≢ Memory → said (words text.now) ≡ Err fault) }
{
    let words = words(alloc, text)?;
    said(alloc, &words)
}

fn is_blank_text(text: &[u8]) -> bool
    ensures { result ≡ list_all is_blank text.now }
{
    text.iter().all(|byte| *byte == b' ')
}

/// What the words say, the first being the command.
fn said(alloc: Global, words: &[&str]) -> Result<ClientMessage, MessageFault>
    ensures ok { IfOk result (λ message. said (texts words.now) ≡ Ok message) }
    ensures refused { IfErr result (λ fault. fault ≢ Memory → said (texts words.now) ≡ Err fault) }
{
    match words {
        [] => Err(MessageFault::Empty),
        [first, others @ ..] => {
            if *first == "uno" {
                uno(others)
            } else {
                with_command(alloc, Command::read(first), others)
            }
        }
    }
}

/// What `uno` says with the words behind it.
fn uno(words: &[&str]) -> Result<ClientMessage, MessageFault>
    ensures { result ≡ uno (texts words.now) }
{
    match words {
        [] => Err(MessageFault::MissingWord(Word::Command)),
        [second, ..] => {
            if *second == ".uno:Save" {
                Ok(ClientMessage::UnoSave)
            } else {
                Err(MessageFault::BadWord(Word::Command))
            }
        }
    }
}

/// What a command of the table says with the words behind it.
fn with_command(
    alloc: Global,
    command: Option<Command>,
    words: &[&str],
) -> Result<ClientMessage, MessageFault>
    ensures ok { IfOk result (λ message. with_command command (texts words.now) ≡ Ok message) }
    ensures refused { IfErr result (λ fault. fault ≢ Memory → with_command command (texts words.now) ≡ Err fault) }
{
    let Some(command) = command else {
        return Err(MessageFault::UnknownCommand);
    };
    match fault_of(command.fields(), words) {
        Some(fault) => Err(fault),
        None => Ok(message_from(alloc, command, words)?),
    }
}
