ghost use Rattle.std.specs.Prelude.{◌≡◌, ◌+◌, ◌≤◌, ◌/◌, ◌%◌, ◌++◌, length, take, drop, replicate};
ghost use Rattle.arrayvec.specs.ArrayVec.{array_vec_len};
ghost use Rattle.session_hash.specs.Padding.{padding, with_padding, block_count, IsTail};
ghost use Rattle.session_hash.specs.Tables.{words_from};
ghost use Rattle.session_hash.specs.Tiger.{tiger, registers_after, compress, compressed_twice, bytes_of};

use crate::tiger::{Registers, compress};
use crate::words::block_words;
use arrayvec::ArrayVec;

/// The bytes of a block.
const BLOCK: usize = 64;

/// Makes the digest of a message. `tables` has 1,024 words.
#[tactic(auto, unfolding(crate::specs::Tiger::tiger))]
pub(crate) fn digest_of(tables: &[u64], message: &[u8]) -> [u8; 24]
    requires { length tables.now ≡ 1024 }
    ensures { result ≡ tiger tables.now message.now }
{
    bytes_of(absorb(tables, message))
}

/// Gives the registers' bytes, the lowest of each first.
#[tactic(auto, unfolding(crate::specs::Tiger::bytes_of))]
fn bytes_of(registers: Registers) -> [u8; 24]
    ensures { result ≡ bytes_of registers }
{
    let mut bytes = [0; 24];
    bytes[..8].copy_from_slice(&registers.a.to_le_bytes());
    bytes[8..16].copy_from_slice(&registers.b.to_le_bytes());
    bytes[16..].copy_from_slice(&registers.c.to_le_bytes());
    bytes
}

/// Takes in a message: its whole blocks as they lie, and then its rest with the padding.
fn absorb(tables: &[u64], message: &[u8]) -> Registers
    requires { length tables.now ≡ 1024 }
    ensures { result ≡ registers_after tables.now (with_padding message.now) (block_count (length message.now)) }
{
    let registers = absorb_whole(tables, message);
    let rest = &message[BLOCK * (message.len() / BLOCK)..];
    let tail = tail(rest, message.len());
    absorb_tail(tables, registers, tail.as_slice())
}

/// Takes in the whole blocks of a message.
fn absorb_whole(tables: &[u64], message: &[u8]) -> Registers
    requires { length tables.now ≡ 1024 }
    ensures { result ≡ registers_after tables.now (with_padding message.now) (length message.now / 64) }
{
    let mut registers = Registers::START;
    for place in 0..message.len() / BLOCK {
        let block = &message[BLOCK * place..BLOCK * place + BLOCK];
        registers = compress(tables, registers, block_words(block));
    }
    registers
}

/// Takes in one block or two.
fn absorb_tail(tables: &[u64], registers: Registers, tail: &[u8]) -> Registers
    requires tables { length tables.now ≡ 1024 }
    requires blocks { IsTail (length tail.now) }
    ensures one { length tail.now ≡ 64 → result ≡ compress tables.now registers (words_from 8 tail.now) }
    ensures two { length tail.now ≡ 128 → result ≡ compressed_twice tables.now registers tail.now }
{
    if tail.len() == BLOCK {
        return compress(tables, registers, block_words(tail));
    }
    let (first, second) = tail.split_at(BLOCK);
    let registers = compress(tables, registers, block_words(first));
    compress(tables, registers, block_words(second))
}

/// Pads what is left of a message of `total` bytes behind its whole blocks.
fn tail(rest: &[u8], total: usize) -> ArrayVec<u8, 128>
    requires { length rest.now ≡ total % 64 }
    ensures { result.items ≡ rest.now ++ padding total }
{
    let mut tail = ArrayVec::new();
    append(&mut tail, rest);
    tail.push(1);
    append_zeros(&mut tail, (119 - total % BLOCK) % BLOCK);
    let bits = (total as u64).wrapping_mul(8);
    append(&mut tail, &bits.to_le_bytes());
    tail
}

fn append(tail: &mut ArrayVec<u8, 128>, bytes: &[u8])
    requires { array_vec_len tail.old + length bytes.now ≤ 128 }
    ensures items { tail.new.items ≡ tail.old.items ++ bytes.now }
    ensures len { array_vec_len tail.new ≡ array_vec_len tail.old + length bytes.now }
{
    for byte in bytes {
        tail.push(*byte);
    }
}

fn append_zeros(tail: &mut ArrayVec<u8, 128>, count: usize)
    requires { array_vec_len tail.old + count ≤ 128 }
    ensures items { tail.new.items ≡ tail.old.items ++ replicate count 0 }
    ensures len { array_vec_len tail.new ≡ array_vec_len tail.old + count }
{
    for place in 0..count {
        tail.push(0);
    }
}
