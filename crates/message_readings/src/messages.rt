//! Messages.
use anyhow::Result;
use cool_message::{ClientMessage, command_of, keys_of, read_message, write_message};

/// The parts of the document that keys are asked for in.
const PARTS: u32 = 2;

/// Prints what the bytes say as a message, what it is written as, and the keys that it asks for.
pub fn show_message(rt: &HostRuntime, text: &[u8]) -> Result<()> {
    let command = command_of(text);
    match read_message(rt.alloc(), text) {
        Ok(message) => {
            println!(rt; "  {command} {message:?}")?;
            let written = write_message(rt.alloc(), &message)?;
            let written = std::str::from_utf8(&written).unwrap_or("no UTF-8");
            println!(rt; "  {written}")?;
            show_keys(rt, &message)
        }
        Err(fault) => {
            println!(rt; "  {command} {fault:?}")?;
            Ok(())
        }
    }
}

// Prints the keys that the message asks for.
fn show_keys(rt: &HostRuntime, message: &ClientMessage) -> Result<()> {
    let Some(keys) = keys_of(rt.alloc(), PARTS, message)? else {
        println!(rt; "  no keys")?;
        return Ok(());
    };
    for key in keys.as_slice() {
        println!(rt; "  {key:?}")?;
    }
    Ok(())
}
