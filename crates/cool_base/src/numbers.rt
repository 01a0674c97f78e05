//! Decimal numbers.
ghost use Rattle.std.specs.Prelude.{◌≡◌, ◌+◌, ◌*◌, ◌^◌, ◌<◌, ◌≤◌, true, MatchOption, ℕ, Some, decimal};
ghost use Rattle.std.specs.Char.{is_ascii_digit, digit_value};
ghost use Rattle.cool_base.specs.Numbers.{value_below, number, number_31, number_64};

/// The number of a text of 1 to 10 decimal digits, leading zeros allowed, with a value of at most
/// 2,147,483,647; None exactly where the text is none.
pub fn read_u31(text: &[u8]) -> Option<u32>
    ensures { result ≡ number_31 text.now }
{
    let value = read_number(text, 10, 2_147_483_647)?;
    Some(value as u32)
}

/// The number of a text of 1 to 20 decimal digits, leading zeros allowed, with a value below 2^64;
/// None exactly where the text is none.
pub fn read_u64(text: &[u8]) -> Option<u64>
    ensures { result ≡ number_64 text.now }
{
    read_number(text, 20, u64::MAX)
}

/// The number of a text of 1 to `most` decimal digits with a value of at most `limit`.
pub fn read_number(text: &[u8], most: usize, limit: u64) -> Option<u64>
    ensures { result ≡ number most limit text.now }
{
    if text.is_empty() || text.len() > most {
        return None;
    }
    let value = digits_of(text)?;
    if value <= limit { Some(value) } else { None }
}

// The number of the digits; None where a byte is no digit or the number is 2^64 or more.
#[tactic(auto, using(crate::proofs::NumberLemmas::readings))]
fn digits_of(text: &[u8]) -> Option<u64>
    ensures { result ≡ value_below (2 ^ 64) text.now }
{
    let mut value: u64 = 0;
    for digit in text {
        if !digit.is_ascii_digit() {
            return None;
        }
        value = one_more(value, *digit)?;
    }
    Some(value)
}

// The number with one more digit behind it; None where it is 2^64 or more.
fn one_more(value: u64, digit: u8) -> Option<u64>
    requires { is_ascii_digit digit ≡ true }
    ensures { MatchOption result (2 ^ 64 ≤ value * 10 + digit_value digit) (λ more. (more ≡ value * 10 + digit_value digit) × (more < 2 ^ 64)) }
{
    value.checked_mul(10)?.checked_add(u64::from(digit - b'0'))
}

/// What is written of a number, without leading zeros, is read as that number.
pub fn written_numbers_are_read()
    ensures small { (n : ℕ) → n ≤ 2147483647 → number_31 (decimal n) ≡ Some n }
    ensures large { (n : ℕ) → n < 2 ^ 64 → number_64 (decimal n) ≡ Some n }
{}
