//! The numbers and words of a line, one after the other.
ghost use Rattle.std.specs.Prelude.{◌≡◌, ◌≤◌, ◌^◌, ◌<◌, ℕ, IfSome, not, length, drop};
ghost use Rattle.std.specs.Char.{is_ascii_digit};
ghost use Rattle.std.specs.List.{position, position_or_len, before_first, after_first};
ghost use Rattle.std.specs.Option.{option_map};
ghost use Rattle.cool_frame.specs.Likely.{number_in, from_digit, is_other, is_equals, is_mark, word_in, behind_word, small, large};

use cool_base::read_number;
use cool_words::is_letter;

/// The first number in the text, which is below 2^32, and what stands behind it; None where there is
/// none.
pub fn small_in(text: &[u8]) -> Option<(u32, &[u8])>
    ensures { option_map (λ found. (found.0, found.1.now)) result ≡ number_in small text.now }
{
    let (number, rest) = number_in(text, 4_294_967_295)?;
    Some((number as u32, rest))
}

/// The first number in the text, which is below 2^31, and what stands behind it.
pub fn side_in(text: &[u8]) -> Option<(u32, &[u8])>
    ensures value { option_map (λ found. (found.0, found.1.now)) result ≡ number_in 2147483647 text.now }
    ensures below { IfSome result (λ found. found.0 < 2 ^ 31) }
{
    let (number, rest) = number_in(text, 2_147_483_647)?;
    Some((number as u32, rest))
}

/// The first number in the text, which is below 2^64, and what stands behind it.
pub fn large_in(text: &[u8]) -> Option<(u64, &[u8])>
    ensures { option_map (λ found. (found.0, found.1.now)) result ≡ number_in large text.now }
{
    number_in(text, u64::MAX)
}

/// The first number in the text, of at most `limit`, and what stands behind it.
#[tactic(auto, unfolding(crate::specs::Likely::number_in))]
pub fn number_in(text: &[u8], limit: u64) -> Option<(u64, &[u8])>
    ensures value { option_map (λ found. (found.0, found.1.now)) result ≡ number_in limit text.now }
    ensures below { IfSome result (λ found. found.0 ≤ limit) }
{
    let digits = from_digit(text);
    let count = digits_len(digits);
    let number = read_number(&digits[..count], 20, limit)?;
    Some((number, &digits[count..]))
}

fn from_digit(text: &[u8]) -> &[u8]
    ensures { result.now ≡ from_digit text.now }
{
    &text[digit_at(text)..]
}

#[tactic(auto, using(crate::proofs::Places::place_or_len, crate::proofs::Places::place_within))]
fn digit_at(text: &[u8]) -> usize
    ensures place { result ≡ position_or_len is_ascii_digit text.now }
    ensures within { result ≤ length text.now }
{
    first_digit(text).unwrap_or(text.len())
}

fn first_digit(text: &[u8]) -> Option<usize>
    ensures { result ≡ position is_ascii_digit text.now }
{
    text.iter().position(|byte| byte.is_ascii_digit())
}

#[tactic(auto, using(crate::proofs::Places::place_or_len, crate::proofs::Places::place_within))]
fn digits_len(text: &[u8]) -> usize
    ensures place { result ≡ position_or_len is_other text.now }
    ensures within { result ≤ length text.now }
{
    first_other(text).unwrap_or(text.len())
}

fn first_other(text: &[u8]) -> Option<usize>
    ensures { result ≡ position is_other text.now }
{
    text.iter().position(|byte| !byte.is_ascii_digit())
}

/// The letters behind the first equals sign of the text, and what stands behind them.
#[tactic(auto, unfolding(crate::specs::Likely::word_in, crate::specs::Likely::behind_word))]
pub fn word_in(text: &[u8]) -> (&[u8], &[u8])
    ensures word { result.0.now ≡ word_in text.now }
    ensures behind { result.1.now ≡ behind_word text.now }
{
    let value = behind_equals(text);
    let count = letters_len(value);
    (&value[..count], &value[count..])
}

fn behind_equals(text: &[u8]) -> &[u8]
    ensures { result.now ≡ after_first is_equals text.now }
{
    match equals_at(text) {
        Some(place) => &text[place + 1..],
        None => &text[text.len()..],
    }
}

fn equals_at(text: &[u8]) -> Option<usize>
    ensures place { result ≡ position is_equals text.now }
    ensures within { IfSome result (λ place. place < length text.now) }
{
    text.iter().position(|byte| *byte == b'=')
}

#[tactic(auto, using(crate::proofs::Places::place_or_len, crate::proofs::Places::place_within))]
fn letters_len(text: &[u8]) -> usize
    ensures place { result ≡ position_or_len is_mark text.now }
    ensures within { result ≤ length text.now }
{
    first_mark(text).unwrap_or(text.len())
}

fn first_mark(text: &[u8]) -> Option<usize>
    ensures { result ≡ position is_mark text.now }
{
    text.iter().position(|byte| !is_letter(*byte))
}
