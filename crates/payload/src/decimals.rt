ghost use Rattle.std.specs.Prelude.{◌≡◌, Some};
ghost use Rattle.std.specs.Char.{is_ascii_digit};
ghost use Rattle.std.specs.List.{list_all};
ghost use Rattle.payload.specs.Decimals.{plain, decimal_of};
ghost use Rattle.payload.specs.Errors.{decimal_error_text, decimal_error_number};

use std::error::Error;
use std::fmt;

/// Why a text is no number.
#[derive(Clone, Copy, PartialEq, Eq, Debug)]
pub enum DecimalError {
    /// It is empty, has a leading zero, or holds something else than a digit.
    NotNumber = 1,
    /// It does not fit 64 bits.
    OutOfRange = 2,
}

/// The number of the refusal.
impl From<DecimalError> for u8 {
    ghost from_gives = { λ error number. number ≡ decimal_error_number error };

    fn from(error: DecimalError) -> u8 {
        error as u8
    }
}

impl fmt::Display for DecimalError {
    ghost output = { λ error. Some (decimal_error_text error) };

    fn fmt<W: fmt::Write>(&self, f: &mut fmt::Formatter<W>) -> fmt::Result {
        f.write_str(match *self {
            DecimalError::NotNumber => "not a decimal number",
            DecimalError::OutOfRange => "the number does not fit 64 bits",
        })
    }
}

impl Error for DecimalError {}

/// The number that a decimal text without sign or leading zeros stands for.
pub fn decimal(text: &str) -> Result<u64, DecimalError>
    ensures { result ≡ decimal_of text.now }
{
    if !is_plain(text.as_bytes()) {
        return Err(DecimalError::NotNumber);
    }
    text.parse().map_err(|_| DecimalError::OutOfRange)
}

// Whether the text is some digits, with no zero in front of others.
fn is_plain(text: &[u8]) -> bool
    ensures { result ≡ plain text.now }
{
    match text {
        [] | [b'0', _, ..] => false,
        _ => all_digits(text),
    }
}

fn all_digits(text: &[u8]) -> bool
    ensures { result ≡ list_all is_ascii_digit text.now }
{
    text.iter().all(u8::is_ascii_digit)
}
