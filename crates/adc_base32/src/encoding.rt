ghost use Rattle.std.specs.Prelude.{◌≡◌, ℕ, List, ◌++◌, ◌∷◌, [], ◌%◌, IfOk, IfErr, OnOk, length};
ghost use Rattle.std.specs.String.{string_bytes};
ghost use Rattle.adc_base32.specs.Digits.{digit_of};
ghost use Rattle.adc_base32.specs.Spelled.{spelling};
ghost use Rattle.adc_base32.specs.Bits.{IsBase32, text_len};

use crate::fault::B32;
use crate::sid::character;
use std::alloc::{AllocError, Global};

/// Writes the base32 text of the bytes: `(8 n + 4) / 5` digits for n bytes, upper case, with no padding (RFC 4648, section
/// 6; ADC 1.0, "Message syntax"). Refused only with `Memory`, where memory runs out.
pub fn encode(alloc: Global, bytes: &[u8]) -> Result<String, B32>
    ensures spelt { IfOk result (λ text. IsBase32 (string_bytes text) bytes.now) }
    ensures only { IfOk result (λ text. (other : List ℕ) → IsBase32 other bytes.now → other ≡ string_bytes text) }
    ensures refused { IfErr result (λ fault. fault ≡ B32.Memory) }
{
    Ok(digits(alloc, bytes)?)
}

fn digits(alloc: Global, bytes: &[u8]) -> Result<String, AllocError>
    ensures { IfOk result (λ text. IsBase32 (string_bytes text) bytes.now) }
{
    let mut text = String::with_capacity(alloc, bytes.len() / 5 * 8 + 8)?;
    let mut held: u32 = 0;
    let mut pending: u32 = 0;
    'bytes: for byte in bytes {
        held = held % 16 * 256 + u32::from(*byte);
        pending += 8;
        'whole: while pending >= 5 {
            pending -= 5;
            push_digit(&mut text, held >> pending)?;
        }
    }
    if pending == 0 {
        return Ok(text);
    }
    push_digit(&mut text, held << (5 - pending))?;
    Ok(text)
}

/// Writes the 39 digits of 24 bytes, as [`encode`] writes them; it takes no memory.
pub fn encode24(bytes: &[u8; 24]) -> [u8; 39]
    ensures spelt { IsBase32 result bytes.now }
    ensures only { (other : List ℕ) → IsBase32 other bytes.now → other ≡ result }
    ensures exact { result ≡ spelling bytes.now }
{
    digits24(bytes)
}

fn digits24(bytes: &[u8; 24]) -> [u8; 39]
    ensures { IsBase32 result bytes.now }
{
    let mut text = [0; 39];
    fill(bytes, &mut text);
    text
}

/// Writes the digits of the bytes.
fn fill(bytes: &[u8], text: &mut [u8])
    requires { length text.old ≡ text_len (length bytes.now) }
    ensures { IsBase32 text.new bytes.now }
{
    let mut held: u32 = 0;
    let mut pending: u32 = 0;
    let mut at = 0;
    'bytes: for byte in bytes {
        held = held % 16 * 256 + u32::from(*byte);
        pending += 8;
        'whole: while pending >= 5 {
            pending -= 5;
            text[at] = character(((held >> pending) % 32) as u8);
            at += 1;
        }
    }
    if pending == 0 {
        return;
    }
    text[at] = character(((held << (5 - pending)) % 32) as u8);
}

/// Appends the digit of the lowest five bits.
fn push_digit(text: &mut String, value: u32) -> Result<(), AllocError>
    ensures { OnOk result (string_bytes text.new ≡ string_bytes text.old ++ digit_of (value % 32) ∷ []) }
{
    text.push(char::from(character((value % 32) as u8)))
}
