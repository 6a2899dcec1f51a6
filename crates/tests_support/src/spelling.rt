use crate::append;
use std::alloc::Global;

/// The base32 digits.
const DIGITS: [u8; 32] = *b"ABCDEFGHIJKLMNOPQRSTUVWXYZ234567";

/// Gives the bytes that a text of a conversation or of a row spells; nothing where a word of it has no meaning. The text is taken as it stands
/// but for what is between `<` and `>`:
///
/// - `P0`, `P1`, `P2`, `P3`: a PID, 38 times A and then A, I, Q or Y; it is its own CID;
/// - `secret`: what answers the challenge of zeros for the password `secret`, `ONSWG4TFOQ` and 29 times A;
/// - `n`: the number of the round, in three base32 digits;
/// - `xff`: a byte by its number, in two hexadecimal digits;
/// - `65526*x`, `24*x00`: a text or a byte so many times; nothing at all: no byte.
pub fn spell(alloc: Global, text: &str, round: usize) -> Option<Vec<u8>> {
    let mut bytes = Vec::new(alloc);
    let mut is_front = true;
    for piece in text.split('<') {
        let rest = if is_front {
            piece
        } else {
            let (word, rest) = piece.split_once('>')?;
            append_word(&mut bytes, word, round)?;
            rest
        };
        is_front = false;
        append(&mut bytes, rest.as_bytes()).ok()?;
    }
    Some(bytes)
}

fn append_word(bytes: &mut Vec<u8>, word: &str, round: usize) -> Option<()> {
    match word {
        "P0" => append_padded(bytes, b"", 38, b"A"),
        "P1" => append_padded(bytes, b"", 38, b"I"),
        "P2" => append_padded(bytes, b"", 38, b"Q"),
        "P3" => append_padded(bytes, b"", 38, b"Y"),
        "secret" => append_padded(bytes, b"ONSWG4TFOQ", 29, b""),
        "n" => append(bytes, &digits(round)).ok(),
        _ => append_counted(bytes, word),
    }
}

/// Appends a front, so many times A, and an end.
fn append_padded(bytes: &mut Vec<u8>, front: &[u8], count: usize, end: &[u8]) -> Option<()> {
    append(bytes, front).ok()?;
    repeat(bytes, count, b"A")?;
    append(bytes, end).ok()
}

fn append_counted(bytes: &mut Vec<u8>, word: &str) -> Option<()> {
    match word.split_once('*') {
        Some((count, what)) => append_times(bytes, count.parse().ok()?, what),
        None if word.is_empty() => Some(()),
        None => append(bytes, &[hex_byte(word)?]).ok(),
    }
}

fn append_times(bytes: &mut Vec<u8>, count: usize, what: &str) -> Option<()> {
    match hex_byte(what) {
        Some(byte) => repeat(bytes, count, &[byte]),
        None => repeat(bytes, count, what.as_bytes()),
    }
}

fn hex_byte(what: &str) -> Option<u8> {
    u8::from_str_radix(what.strip_prefix('x')?, 16).ok()
}

fn repeat(bytes: &mut Vec<u8>, count: usize, what: &[u8]) -> Option<()> {
    for _ in 0..count {
        append(bytes, what).ok()?;
    }
    Some(())
}

/// Writes the last three base32 digits of a number.
fn digits(number: usize) -> [u8; 3] {
    [
        DIGITS[number / 1024 % 32],
        DIGITS[number / 32 % 32],
        DIGITS[number % 32],
    ]
}
