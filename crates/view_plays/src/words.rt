//! Numbers in lines.
use cool_base::{Memory, read_u31};
use std::alloc::Global;

/// The numbers among the words of the text.
pub(crate) fn numbers(alloc: Global, text: &str) -> Result<Vec<u32>, Memory> {
    let mut numbers = Vec::new(alloc);
    for word in text.split(' ') {
        if let Some(number) = read_u31(word.as_bytes()) {
            numbers.push(number)?;
        }
    }
    Ok(numbers)
}

/// The number at this place, 0 where there is none.
pub(crate) fn at(numbers: &[u32], i: usize) -> u32 {
    numbers.get(i).copied().unwrap_or(0)
}
