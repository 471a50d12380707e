ghost use Rattle.std.specs.Prelude.{◌≡◌, ◌<◌, IfOk, Some, refl};
ghost use Rattle.std.proofs.Common.{sym, ◌∙◌};
ghost use Rattle.payload.specs.Tickets.{ticket_of, ticket_word, hex_digit, digest_of, length_refusal, ticket_text, ReadBack, same_ticket};
ghost use Rattle.payload.specs.Errors.{ticket_error_text, ticket_error_number};
ghost use Rattle.payload.specs.Alike.{decides_ticket};

use crate::decimals::{DecimalError, decimal};
use crate::kinds::Payload;
use std::error::Error;
use std::fmt;
use std::str::FromStr;

/// A digest of 32 bytes and a length. The digest is given from outside.
// An array by value: a rule of the project, and the library has no heap.
#[derive(Clone, Copy, PartialEq, Eq, Debug)]
pub struct Ticket {
    digest: [u8; 32],
    length: u64,
}

/// Why a word is no ticket.
#[derive(Clone, Copy, PartialEq, Eq, Debug)]
pub enum TicketError {
    /// No colon stands between a digest and a length.
    NoColon = 1,
    /// The digest is not 64 lowercase hexadecimal digits.
    NotDigest = 2,
    /// The length is not a decimal number.
    NotNumber = 3,
    /// The length does not fit 64 bits.
    OutOfRange = 4,
}

/// The number of the refusal.
impl From<TicketError> for u8 {
    ghost from_gives = { λ error number. number ≡ ticket_error_number error };

    fn from(error: TicketError) -> u8 {
        error as u8
    }
}

impl fmt::Display for TicketError {
    ghost output = { λ error. Some (ticket_error_text error) };

    fn fmt<W: fmt::Write>(&self, f: &mut fmt::Formatter<W>) -> fmt::Result {
        f.write_str(match *self {
            TicketError::NoColon => "no colon between digest and length",
            TicketError::NotDigest => "the digest is not 64 lowercase hexadecimal digits",
            TicketError::NotNumber => "the length is not a decimal number",
            TicketError::OutOfRange => "the length does not fit 64 bits",
        })
    }
}

impl Error for TicketError {}

/// Why a ticket is refused whose length is no number.
impl From<DecimalError> for TicketError {
    ghost from_gives = { λ error refusal. refusal ≡ length_refusal error };

    fn from(error: DecimalError) -> TicketError {
        match error {
            DecimalError::NotNumber => TicketError::NotNumber,
            DecimalError::OutOfRange => TicketError::OutOfRange,
        }
    }
}

impl Ticket {
    /// A ticket with this digest and length.
    pub fn new(digest: [u8; 32], length: u64) -> Ticket
        ensures result { result ≡ ticket_of digest length }
        ensures read_back { ReadBack result }
    {
        Ticket { digest, length }
    }

    /// The digest.
    pub fn digest(&self) -> [u8; 32]
        ensures { result ≡ self.now.digest }
    {
        self.digest
    }

    /// The length.
    pub fn length(&self) -> u64
        ensures { result ≡ self.now.length }
    {
        self.length
    }
}

/// The ticket that a word of a log stands for: 64 lowercase hexadecimal digits,
/// a colon, and a decimal length without leading zeros.
impl FromStr for Ticket {
    type Err = TicketError;

    ghost from_str_gives = { λ word answer. answer ≡ ticket_word word };

    fn from_str(word: &str) -> Result<Ticket, TicketError> {
        let (digest, length) = word.split_once(':').ok_or(TicketError::NoColon)?;
        Ok(Ticket::new(read_digest(digest)?, decimal(length)?))
    }
}

// The bytes that 64 lowercase hexadecimal digits stand for, the high digit of each first.
fn read_digest(text: &str) -> Result<[u8; 32], TicketError>
    ensures { result ≡ digest_of text.now }
{
    let digits = text.as_bytes();
    if digits.len() != 64 {
        return Err(TicketError::NotDigest);
    }
    let mut digest = [0; 32];
    // By number, and no zip of the pairs with `iter_mut`: after that the check knows nothing of the bytes.
    for (i, byte) in digest.iter_mut().enumerate() {
        *byte = 16 * read_digit(digits[2 * i])? + read_digit(digits[2 * i + 1])?;
    }
    Ok(digest)
}

// The value of a lowercase hexadecimal digit.
fn read_digit(c: u8) -> Result<u8, TicketError>
    ensures value { result ≡ hex_digit c }
    ensures bound { IfOk result (λ d. d < 16) }
{
    match c {
        b'0'..=b'9' => Ok(c - b'0'),
        b'a'..=b'f' => Ok(c - b'a' + 10),
        _ => Err(TicketError::NotDigest),
    }
}

/// Alike exactly when all bytes of the digest and the length are the same.
impl Payload for Ticket {
    ghost same = { same_ticket };

    ghost reflexive = { λ t. (decides_ticket t t).1 (λ k h. refl, refl) };

    ghost symmetric = { λ t u e.
        let s = (decides_ticket t u).0 e in
        (decides_ticket u t).1 (λ k h. sym (s.0 k h), sym s.1) };

    ghost transitive = { λ t u v e f.
        let s = (decides_ticket t u).0 e in
        let r = (decides_ticket u v).0 f in
        (decides_ticket t v).1 (λ k h. s.0 k h ∙ r.0 k h, s.1 ∙ r.1) };

    fn alike(&self, other: &Ticket) -> bool {
        // A rule of the project: the digests are compared element by element, by index.
        for i in 0..32 {
            if self.digest[i] != other.digest[i] {
                return false;
            }
        }
        let (mine, theirs) = (self.length, other.length);
        mine == theirs
    }
}

/// 64 lowercase hexadecimal digits, `:`, the length in decimal
impl fmt::Display for Ticket {
    ghost output = { λ ticket. Some (ticket_text ticket) };

    fn fmt<W: fmt::Write>(&self, f: &mut fmt::Formatter<W>) -> fmt::Result {
        for byte in &self.digest {
            write!(f, "{byte:02x}")?;
        }
        write!(f, ":{}", self.length)
    }
}
