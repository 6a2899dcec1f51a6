//! The bytes of a written line: `%` and two hexadecimal digits stand for one byte.

ghost use Rattle.std.specs.Prelude.{◌≡◌, ◌<◌, IfOk, IfSome};
ghost use Rattle.std.specs.Option.{option_map};
ghost use Rattle.history_check.specs.Reading.{read_byte, read_bytes, read_digit};

use std::alloc::{AllocError, Global};

/// Reads bytes; `None` if a `%` is not followed by two hexadecimal digits, whose letters are capitals.
pub(crate) fn read_bytes(alloc: Global, text: &[u8]) -> Result<Option<Vec<u8>>, AllocError>
    ensures { IfOk result (λ bytes. option_map (λ v. v.items) bytes ≡ read_bytes text.now) }
{
    let mut bytes = Vec::with_capacity(alloc, text.len())?;
    let mut rest = text;
    'bytes: while let [first, behind @ ..] = rest {
        if *first != b'%' {
            bytes.push(*first)?;
            rest = behind;
            continue;
        }
        let [high, low, behind @ ..] = behind else {
            return Ok(None);
        };
        let Some(byte) = byte_of(*high, *low) else {
            return Ok(None);
        };
        bytes.push(byte)?;
        rest = behind;
    }
    Ok(Some(bytes))
}

/// Reads a byte from its two digits.
#[tactic(auto, unfolding(crate::specs::Reading::read_byte))]
fn byte_of(high: u8, low: u8) -> Option<u8>
    ensures { result ≡ read_byte high low }
{
    let high = digit(high)?;
    let low = digit(low)?;
    Some(high * 16 + low)
}

#[tactic(auto, unfolding(crate::specs::Reading::read_digit))]
fn digit(character: u8) -> Option<u8>
    ensures value { result ≡ read_digit character }
    ensures below { IfSome result (λ value. value < 16) }
{
    match character {
        b'0'..=b'9' => Some(character - b'0'),
        b'A'..=b'F' => Some(character - b'A' + 10),
        _ => None,
    }
}
