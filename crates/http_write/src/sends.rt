// Bytes that are sent whole.
ghost use Rattle.std.specs.Prelude.{◌≡◌, Err};
ghost use Rattle.outside.specs.Causes.{HasCause};
ghost use Rattle.http_write.specs.Writes.{SendsWhole};

use outside::{Wire, WireFault, WriteStep};

// Sends the bytes in as many steps as the wire takes.
pub(crate) fn send_all<W: Wire>(wire: &mut W, bytes: &[u8]) -> Result<(), WireFault>
    ensures sends { SendsWhole (W.talk wire.old) bytes.now result (W.talk wire.new) }
    ensures cause { HasCause (W.faults wire.old) (W.faults wire.new) (result ≡ Err WireFault.WriteFault) }
{
    let mut rest = bytes;
    while !rest.is_empty() {
        match wire.send(rest) {
            WriteStep::Wrote(count) => rest = &rest[count..],
            WriteStep::Failed => return Err(WireFault::WriteFault),
        }
    }
    Ok(())
}
