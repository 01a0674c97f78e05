//! Frames.
use anyhow::Result;
use cool_frame::{Frame, read_frame, write_frame};

/// Prints what the bytes are as a frame, and whether it is written as the same bytes.
pub fn show_frame(rt: &HostRuntime, bytes: &[u8]) -> Result<()> {
    match read_frame(rt.alloc(), bytes) {
        Ok(frame) => {
            let written = write_frame(rt.alloc(), &frame)?;
            let same = written.as_slice() == bytes;
            println!(rt; "  written the same: {same}")?;
            show_fields(rt, &frame)
        }
        Err(fault) => {
            println!(rt; "  {fault:?}")?;
            Ok(())
        }
    }
}

// Prints the fields of the frame, of a picture its length alone.
fn show_fields(rt: &HostRuntime, frame: &Frame) -> Result<()> {
    match frame {
        Frame::Tile {
            key,
            ver,
            wid,
            pixels,
        } => {
            let count = pixels.len();
            println!(rt; "  {key:?} {ver} {wid:?} {count} bytes")?;
        }
        other => println!(rt; "  {other:?}")?,
    }
    Ok(())
}
