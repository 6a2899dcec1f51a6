ghost use Rattle.std.specs.Prelude.{◌≡◌, ◌*◌, ◌<◌, length, IfOk};

use session_hash::{Registers, TABLE_WORDS, block_words, compress};
use std::alloc::{AllocError, AllocFailed, Global};

/// The block that stirs the tables, by its makers.
const TITLE: &[u8; 64] = b"Tiger - A Fast New Hash Function, by Ross Anderson and Eli Biham";

/// The count of times that the tables are gone through.
const TIMES: u8 = 5;

/// The words of a table.
const TABLE: usize = 256;

/// Makes the bytes of Tiger's four tables, the lowest byte of each word first: from nothing, by the procedure that the
/// makers of Tiger published.
pub(crate) fn bytes(alloc: Global) -> Result<Vec<u8>, AllocError>
    ensures { IfOk result (λ bytes. length bytes.items ≡ 8192) }
{
    let words = words(alloc)?;
    let mut bytes = Vec::with_capacity(alloc, 8 * TABLE_WORDS)?;
    for word in words.as_slice() {
        bytes.extend_from_slice(&word.to_le_bytes())?;
    }
    Ok(bytes)
}

/// Makes the words of the tables. Each byte of the words begins as the word's number in its table. Then, table by table and
/// column by column, bytes change places, as the registers say. After three registers are used up, Tiger's own block step
/// makes new ones with the tables as they stand.
fn words(alloc: Global) -> Result<Vec<u64>, AllocError>
    ensures { IfOk result (λ words. length words.items ≡ 1024) }
{
    let mut words = Vec::with_capacity(alloc, TABLE_WORDS)?;
    for word in 0..TABLE_WORDS as u64 {
        words.push(word % 256 * 0x0101_0101_0101_0101)?;
    }
    let mut stirred = Stirred {
        registers: Registers::START,
        used: 2,
    };
    for _time in 0..TIMES {
        stir(words.as_mut_slice(), &mut stirred);
    }
    Ok(words)
}

/// The source of the bytes that tell what to swap.
#[derive(Drop)]
struct Stirred {
    registers: Registers,
    // The register that was used last.
    used: u8,
}

fn stir(words: &mut [u64], stirred: &mut Stirred)
    requires { length words.old ≡ 1024 }
    ensures { length words.new ≡ 1024 }
{
    for place in 0..TABLE {
        for table in 0..4 {
            let source = next_register(words, stirred);
            for column in 0..8 {
                let other = (source >> (8 * column)) as usize % 256;
                swap_bytes(words, TABLE * table + place, TABLE * table + other, column);
            }
        }
    }
}

/// Gives the register to use next.
fn next_register(words: &[u64], stirred: &mut Stirred) -> u64
    requires { length words.now ≡ 1024 }
{
    stirred.used = match stirred.used {
        0 => 1,
        1 => 2,
        _ => {
            stirred.registers = compress(words, stirred.registers, block_words(TITLE));
            0
        }
    };
    match stirred.used {
        0 => stirred.registers.a,
        1 => stirred.registers.b,
        _ => stirred.registers.c,
    }
}

/// Swaps one byte of two words, 0 the lowest.
fn swap_bytes(words: &mut [u64], first: usize, second: usize, column: u32)
    requires first { first < length words.old }
    requires second { second < length words.old }
    requires column { column < 8 }
{
    let change = (words[first] ^ words[second]) & (0xff << (8 * column));
    words[first] ^= change;
    words[second] ^= change;
}
