//! The words of a written line.

ghost use Rattle.std.specs.Prelude.{◌≡◌};
ghost use Rattle.history_check.specs.Reading.{behind_word, first_word, read_address, read_number};

use std::net::Ipv4Addr;
use std::str;

/// Splits a text at its first blank: the word before it and what follows it, nothing if there is no blank.
pub(crate) fn word(text: &[u8]) -> (&[u8], &[u8])
    ensures word { result.0.now ≡ first_word text.now }
    ensures behind { result.1.now ≡ behind_word text.now }
{
    match text.iter().position(|byte| *byte == b' ') {
        Some(end) => (&text[..end], &text[end + 1..]),
        None => (text, b""),
    }
}

/// Reads a number below 18,446,744,073,709,551,616 from its decimal digits.
pub(crate) fn number(word: &[u8]) -> Option<u64>
    ensures { result ≡ read_number word.now }
{
    // A plus would be read too.
    if word.starts_with(b"+") {
        return None;
    }
    match str::from_utf8(word) {
        Ok(digits) => digits.parse::<u64>().ok(),
        Err(_) => None,
    }
}

/// Reads an IPv4 address.
pub(crate) fn address(word: &[u8]) -> Option<[u8; 4]>
    ensures { result ≡ read_address word.now }
{
    match Ipv4Addr::parse_ascii(word) {
        Ok(address) => Some(address.octets()),
        Err(_) => None,
    }
}
