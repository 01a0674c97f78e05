//! Files that are made.
use cool_base::Memory;
use std::alloc::Global;

/// A file of one part with so many texts of 1,022 bytes in column A, at most 4,000, and one of `last`
/// bytes in A4096.
pub fn long_file(alloc: Global, count: u32, last: u32) -> Result<String, Memory> {
    let mut text = String::from_str(alloc, "coolsheet 1\nparts 1\n")?;
    for row in 0..count.min(4_000) {
        let number = row + 1;
        let line = format!(in alloc; "0 A{number} ")?;
        text.push_str(line.as_str())?;
        push_bytes(&mut text, 1_022)?;
    }
    text.push_str("0 A4096 ")?;
    push_bytes(&mut text, last)?;
    Ok(text)
}

// Adds a line of so many bytes.
fn push_bytes(text: &mut String, count: u32) -> Result<(), Memory> {
    for _byte in 0..count.min(4_000_000) {
        text.push('x')?;
    }
    text.push('\n')?;
    Ok(())
}

/// A file whose A1 is 1 and is read by so many cells of column B from B1 on, at most 4,000.
pub fn read_by(alloc: Global, rows: u32) -> Result<String, Memory> {
    let mut text = String::from_str(alloc, "coolsheet 1\nparts 1\n0 A1 1\n")?;
    for row in 0..rows.min(4_000) {
        let number = row + 1;
        let line = format!(in alloc; "0 B{number} =A1\n")?;
        text.push_str(line.as_str())?;
    }
    Ok(text)
}
