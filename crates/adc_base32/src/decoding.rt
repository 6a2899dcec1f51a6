ghost use Rattle.std.specs.Prelude.{◌≡◌, ◌≢◌, ◌*◌, ◌-◌, ℕ, ◌<◌, List, length, take, drop, replicate, Some, None, vec_len, IfOk, IfErr};
ghost use Rattle.std.specs.Bool.{Decides};
ghost use Rattle.std.specs.List.{All};
ghost use Rattle.adc_base32.specs.Bits.{AreDigits, IsBase32, byte_bits, text_bits, text_len, value_of};
ghost use Rattle.adc_base32.specs.Codec.{HasBytes, IsDecodeFault};
ghost use Rattle.adc_base32.specs.Spelled.{spelled_bytes};

use crate::fault::B32;
use crate::sid::value;
use std::alloc::Global;

/// Reads the n bytes that a base32 text spells, where its bits beyond them are zero (RFC 4648, section 6; ADC 1.0, "Message
/// syntax").
///
/// Refused, in this order: with `Length` where the text has not `(8 n + 4) / 5` characters; `Digit` where one of them is no
/// digit (lower case and padding are none). Then come `LowBits` where an unused low bit of the last digit is not zero, and
/// `Memory` where memory runs out, and only for a text that is refused by none of the others.
pub fn decode(alloc: Global, text: &[u8], n: usize) -> Result<Vec<u8>, B32>
    ensures count { IfOk result (λ bytes. vec_len bytes ≡ n) }
    ensures spelt { IfOk result (λ bytes. IsBase32 text.now bytes.items) }
    ensures only { IfOk result (λ bytes. (other : List ℕ) → length other ≡ n → All (λ b. b < 256) other → IsBase32 text.now other → other ≡ bytes.items) }
    ensures fault { IfErr result (λ fault. IsDecodeFault text.now n fault) }
    ensures no_bytes { IfErr result (λ fault. fault ≢ B32.Memory → (bytes : List ℕ) → length bytes ≡ n → IsBase32 text.now bytes → ⊥) }
    ensures memory { IfErr result (λ fault. fault ≡ B32.Memory → HasBytes n text.now) }
{
    let bytes = decode_checked_text(alloc, text, n)?;
    Ok(bytes)
}

/// Reads the 24 bytes that a base32 text of 39 characters spells, as [`decode`] reads them; it takes no memory, and so is
/// never refused with `Memory`.
pub fn decode24(text: &[u8]) -> Result<[u8; 24], B32>
    ensures spelt { IfOk result (λ bytes. IsBase32 text.now bytes) }
    ensures only { IfOk result (λ bytes. (other : List ℕ) → length other ≡ 24 → All (λ b. b < 256) other → IsBase32 text.now other → other ≡ bytes) }
    ensures fault { IfErr result (λ fault. IsDecodeFault text.now 24 fault) }
    ensures no_bytes { IfErr result (λ fault. (bytes : List ℕ) → length bytes ≡ 24 → IsBase32 text.now bytes → ⊥) }
    ensures no_memory { IfErr result (λ fault. fault ≢ B32.Memory) }
    ensures read { IfOk result (λ bytes. spelled_bytes 24 text.now ≡ Some bytes) }
    ensures unread { IfErr result (λ _. spelled_bytes 24 text.now ≡ None) }
{
    let bytes = checked24(text)?;
    Ok(bytes)
}

fn decode_checked_text(alloc: Global, text: &[u8], n: usize) -> Result<Vec<u8>, B32>
    ensures count { IfOk result (λ bytes. vec_len bytes ≡ n) }
    ensures spelt { IfOk result (λ bytes. IsBase32 text.now bytes.items) }
    ensures small { IfOk result (λ bytes. All (λ b. b < 256) bytes.items) }
    ensures fault { IfErr result (λ fault. IsDecodeFault text.now n fault) }
    ensures memory { IfErr result (λ fault. fault ≡ B32.Memory → HasBytes n text.now) }
{
    check(text, n)?;
    let mut bytes = vec![in alloc; 0u8; n]?;
    fill(text, &mut bytes);
    Ok(bytes)
}

fn checked24(text: &[u8]) -> Result<[u8; 24], B32>
    ensures spelt { IfOk result (λ bytes. IsBase32 text.now bytes) }
    ensures small { IfOk result (λ bytes. All (λ b. b < 256) bytes) }
    ensures fault { IfErr result (λ fault. IsDecodeFault text.now 24 fault) }
    ensures no_memory { IfErr result (λ fault. fault ≢ B32.Memory) }
    ensures read { IfOk result (λ bytes. spelled_bytes 24 text.now ≡ Some bytes) }
    ensures unread { IfErr result (λ _. spelled_bytes 24 text.now ≡ None) }
{
    check(text, 24)?;
    let mut bytes = [0; 24];
    fill(text, &mut bytes);
    Ok(bytes)
}

fn check(text: &[u8], n: usize) -> Result<(), B32>
    ensures length { IfOk result (λ _. length text.now ≡ text_len n) }
    ensures digits { IfOk result (λ _. AreDigits text.now) }
    ensures zeros { IfOk result (λ _. drop (8 * n) (text_bits text.now) ≡ replicate (5 * length text.now - 8 * n) 0) }
    ensures fault { IfErr result (λ fault. IsDecodeFault text.now n fault) }
    ensures no_memory { IfErr result (λ fault. fault ≢ B32.Memory) }
    ensures unread { IfErr result (λ _. spelled_bytes n text.now ≡ None) }
{
    if n > text.len() || n / 5 * 8 + (n % 5 * 8 + 4) / 5 != text.len() {
        return Err(B32::Length);
    }
    if !are_digits(text) {
        return Err(B32::Digit);
    }
    if !are_low_bits_zero(text, n) {
        return Err(B32::LowBits);
    }
    Ok(())
}

fn are_digits(text: &[u8]) -> bool
    ensures { Decides result (AreDigits text.now) }
{
    for character in text {
        if value(*character).is_none() {
            return false;
        }
    }
    true
}

/// Tests that the bits of the text behind those of n bytes are zero.
fn are_low_bits_zero(text: &[u8], n: usize) -> bool
    requires { length text.now ≡ text_len n }
    ensures { Decides result (drop (8 * n) (text_bits text.now) ≡ replicate (5 * length text.now - 8 * n) 0) }
{
    let Some(last) = text.last() else {
        return true;
    };
    let unused = 4 - (n % 5 * 3 + 4) % 5;
    value_of(*last) % (1 << unused) == 0
}

/// Writes the bytes of the text's bits.
fn fill(text: &[u8], bytes: &mut [u8])
    requires { length text.now ≡ text_len (length bytes.old) }
    ensures bits { byte_bits bytes.new ≡ take (8 * length bytes.new) (text_bits text.now) }
    ensures small { All (λ b. b < 256) bytes.new }
{
    let mut held: u32 = 0;
    let mut pending: u32 = 0;
    let mut at = 0;
    'characters: for character in text {
        held = held % 128 * 32 + u32::from(value_of(*character));
        pending += 5;
        'whole: while pending >= 8 {
            pending -= 8;
            bytes[at] = ((held >> pending) % 256) as u8;
            at += 1;
        }
    }
}

#[tactic(auto, unfolding(crate::specs::Bits::value_of))]
fn value_of(character: u8) -> u8
    ensures exact { result ≡ value_of character }
    ensures below { result < 32 }
{
    value(character).unwrap_or(0)
}
