//! What a raw text is that holds no formula.
ghost use Rattle.std.specs.Prelude.{◌≡◌};
ghost use Rattle.std.specs.Char.{is_ascii_digit};
ghost use Rattle.sheet_cells.specs.Plains.{plain_of, positive, negative};

use cool_base::read_number;

/// What a raw text is that holds no formula.
#[derive(Clone, Copy, Debug, PartialEq, Eq)]
pub enum Plain {
    /// The text is empty.
    Empty,
    /// The text is an optional `-` and 1 to 19 digits within 64 signed bits.
    Number(i64),
    /// Any other text.
    Text,
}

/// What the raw text is, where it holds no formula.
pub fn read_plain(raw: &str) -> Plain
    ensures { result ≡ plain_of raw.now }
{
    match raw.as_bytes() {
        [] => Plain::Empty,
        [b'-', digits @ ..] => below_zero(digits),
        digits => from_zero(digits),
    }
}

/// Whether the byte is a decimal digit.
pub fn is_digit(byte: u8) -> bool
    ensures { result ≡ is_ascii_digit byte }
{
    byte.is_ascii_digit()
}

// What digits without a sign are.
fn from_zero(digits: &[u8]) -> Plain
    ensures { result ≡ positive digits.now }
{
    match read_number(digits, 19, 9_223_372_036_854_775_807) {
        Some(number) => Plain::Number(number as i64),
        None => Plain::Text,
    }
}

// What digits behind a `-` are.
fn below_zero(digits: &[u8]) -> Plain
    ensures { result ≡ negative digits.now }
{
    match read_number(digits, 19, 9_223_372_036_854_775_808) {
        Some(9_223_372_036_854_775_808) => Plain::Number(i64::MIN),
        Some(number) => Plain::Number(-(number as i64)),
        None => Plain::Text,
    }
}
