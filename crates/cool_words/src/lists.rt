//! Lists of numbers separated by single commas.
ghost use Rattle.std.specs.Prelude.{◌≡◌, IfOk, length, nat_le};
ghost use Rattle.cool_base.specs.Numbers.{number_31, number_64};
ghost use Rattle.cool_words.specs.Lists.{parts, is_list, number_in, numbers};

use cool_base::{Memory, read_u31, read_u64};
use std::alloc::{AllocError, Global};

/// The most numbers of a list.
pub const MOST_NUMBERS: usize = 1_024;

/// Whether the text is a list of 1 to 1,024 numbers of at most 2,147,483,647.
pub fn is_list_31(text: &str) -> bool
    ensures { result ≡ is_list number_31 text.now }
{
    is_short(text)
        && text
            .split(',')
            .all(|part| read_u31(part.as_bytes()).is_some())
}

/// Whether the text is a list of 1 to 1,024 numbers below 2^64.
pub fn is_list_64(text: &str) -> bool
    ensures { result ≡ is_list number_64 text.now }
{
    is_short(text)
        && text
            .split(',')
            .all(|part| read_u64(part.as_bytes()).is_some())
}

fn is_short(text: &str) -> bool
    ensures { result ≡ nat_le (length (parts text.now)) MOST_NUMBERS }
{
    count_parts(text) <= MOST_NUMBERS
}

/// How many parts stand between the commas of the text.
pub fn count_parts(text: &str) -> usize
    ensures { result ≡ length (parts text.now) }
{
    text.split(',').count()
}

/// The numbers of a list, each at most 2,147,483,647; 0 stands for a part that is no such number.
pub fn list_31(alloc: Global, text: &str) -> Result<Vec<u32>, Memory>
    ensures { IfOk result (λ list. list.items ≡ numbers number_31 text.now) }
{
    Ok(numbers_31(alloc, text)?)
}

fn numbers_31(alloc: Global, text: &str) -> Result<Vec<u32>, AllocError>
    ensures { IfOk result (λ list. list.items ≡ numbers number_31 text.now) }
{
    text.split(',').map(|part| number_31(part)).collect(alloc)
}

/// The numbers of a list, each below 2^64; 0 stands for a part that is no such number.
pub fn list_64(alloc: Global, text: &str) -> Result<Vec<u64>, Memory>
    ensures { IfOk result (λ list. list.items ≡ numbers number_64 text.now) }
{
    Ok(numbers_64(alloc, text)?)
}

fn numbers_64(alloc: Global, text: &str) -> Result<Vec<u64>, AllocError>
    ensures { IfOk result (λ list. list.items ≡ numbers number_64 text.now) }
{
    text.split(',').map(|part| number_64(part)).collect(alloc)
}

/// The number that the text is, at most 2,147,483,647; 0 where it is no such number.
pub fn number_31(text: &str) -> u32
    ensures { result ≡ number_in number_31 text.now }
{
    read_u31(text.as_bytes()).unwrap_or(0)
}

/// The number that the text is, below 2^64; 0 where it is no such number.
fn number_64(text: &str) -> u64
    ensures { result ≡ number_in number_64 text.now }
{
    read_u64(text.as_bytes()).unwrap_or(0)
}
