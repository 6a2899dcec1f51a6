ghost use Rattle.std.specs.Prelude.{◌≡◌, ◌<◌, ◌^◌, length, bit_xor};
ghost use Rattle.session_hash.specs.Tables.{entry};
ghost use Rattle.session_hash.specs.Tiger.{even_entries, odd_entries, round_of, pass, with_xor, with_sum, less_key, less_up, less_down, first_half, second_half, passes, fed_forward, compress};
ghost use Rattle.session_hash.specs.Words.{add64, sub64, mul64, not_up, not_down, byte_of};

/// The words of the four tables together.
pub const TABLE_WORDS: usize = 1024;

/// The three registers of Tiger.
#[derive(Clone, Copy, PartialEq, Eq)]
pub struct Registers {
    pub a: u64,
    pub b: u64,
    pub c: u64,
}

impl Registers {
    /// The values before the first block.
    pub const START: Registers = Registers {
        a: 0x0123_4567_89AB_CDEF,
        b: 0xFEDC_BA98_7654_3210,
        c: 0xF096_A5B4_C3B2_E187,
    };
}

/// Takes one block of eight words into the registers: three passes with the key schedule between
/// them, and the registers as they were taken into the result. `tables` has 1,024 words, the four
/// tables of 256 words one after another.
#[tactic(auto, unfolding(crate::specs::Tiger::compress))]
pub fn compress(tables: &[u64], registers: Registers, block: [u64; 8]) -> Registers
    requires { length tables.now ≡ 1024 }
    ensures { result ≡ compress tables.now registers block }
{
    feed_forward(registers, passes(tables, registers, block))
}

#[inline(always)]
#[tactic(auto, unfolding(crate::specs::Tiger::passes))]
fn passes(tables: &[u64], registers: Registers, block: [u64; 8]) -> Registers
    requires { length tables.now ≡ 1024 }
    ensures { result ≡ passes tables.now registers block }
{
    let first = pass(tables, registers, block, 5);
    let next = second_half(first_half(block));
    let second = pass(tables, first, next, 7);
    let last = second_half(first_half(next));
    pass(tables, second, last, 9)
}

#[inline(always)]
#[tactic(auto, unfolding(crate::specs::Tiger::fed_forward))]
fn feed_forward(before: Registers, now: Registers) -> Registers
    ensures { result ≡ fed_forward before now }
{
    Registers {
        a: now.a ^ before.a,
        b: sub(now.b, before.b),
        c: add(now.c, before.c),
    }
}

#[inline(always)]
#[tactic(auto, unfolding(crate::specs::Tiger::pass))]
fn pass(tables: &[u64], registers: Registers, block: [u64; 8], factor: u64) -> Registers
    requires { length tables.now ≡ 1024 }
    ensures { result ≡ pass tables.now registers block factor }
{
    let r = turn(tables, registers, block[0], factor);
    let r = turn(tables, r, block[1], factor);
    let r = turn(tables, r, block[2], factor);
    let r = turn(tables, r, block[3], factor);
    let r = turn(tables, r, block[4], factor);
    let r = turn(tables, r, block[5], factor);
    let r = turn(tables, r, block[6], factor);
    turn(tables, r, block[7], factor)
}

/// Makes one round, after which the registers are turned: the next takes b, c, a for a, b, c.
#[inline(always)]
#[tactic(auto, unfolding(crate::specs::Tiger::round_of))]
fn turn(tables: &[u64], r: Registers, word: u64, factor: u64) -> Registers
    requires { length tables.now ≡ 1024 }
    ensures { result ≡ round_of tables.now r word factor }
{
    let c = r.c ^ word;
    Registers {
        a: mul(add(r.b, odd_entries(tables, c)), factor),
        b: c,
        c: sub(r.a, even_entries(tables, c)),
    }
}

#[inline(always)]
#[tactic(auto, unfolding(crate::specs::Tiger::even_entries))]
fn even_entries(tables: &[u64], c: u64) -> u64
    requires { length tables.now ≡ 1024 }
    ensures { result ≡ even_entries tables.now c }
{
    entry(tables, 0, byte(c, 0))
        ^ entry(tables, 1, byte(c, 2))
        ^ entry(tables, 2, byte(c, 4))
        ^ entry(tables, 3, byte(c, 6))
}

#[inline(always)]
#[tactic(auto, unfolding(crate::specs::Tiger::odd_entries))]
fn odd_entries(tables: &[u64], c: u64) -> u64
    requires { length tables.now ≡ 1024 }
    ensures { result ≡ odd_entries tables.now c }
{
    entry(tables, 3, byte(c, 1))
        ^ entry(tables, 2, byte(c, 3))
        ^ entry(tables, 1, byte(c, 5))
        ^ entry(tables, 0, byte(c, 7))
}

#[inline(always)]
#[tactic(auto, unfolding(crate::specs::Tables::entry))]
fn entry(tables: &[u64], table: usize, byte: usize) -> u64
    requires words { length tables.now ≡ 1024 }
    requires table { table < 4 }
    requires byte { byte < 256 }
    ensures { result ≡ entry tables.now table byte }
{
    tables[256 * table + byte]
}

/// Gives byte `k` of a word, 0 the lowest.
#[inline(always)]
#[tactic(auto, unfolding(crate::specs::Words::byte_of))]
fn byte(word: u64, k: u32) -> usize
    requires { k < 8 }
    ensures is { result ≡ byte_of word k }
    ensures below { result < 256 }
{
    (word >> (8 * k)) as usize % 256
}

#[inline(always)]
#[tactic(auto, unfolding(crate::specs::Words::add64))]
fn add(x: u64, y: u64) -> u64
    ensures { result ≡ add64 x y }
{
    x.wrapping_add(y)
}

#[inline(always)]
#[tactic(auto, unfolding(crate::specs::Words::sub64))]
fn sub(x: u64, y: u64) -> u64
    ensures { result ≡ sub64 x y }
{
    x.wrapping_sub(y)
}

#[inline(always)]
#[tactic(auto, unfolding(crate::specs::Words::mul64))]
fn mul(x: u64, y: u64) -> u64
    ensures { result ≡ mul64 x y }
{
    x.wrapping_mul(y)
}

/// Makes the first half of the key schedule.
#[inline(always)]
#[tactic(auto, unfolding(crate::specs::Tiger::first_half))]
fn first_half(x: [u64; 8]) -> [u64; 8]
    ensures { result ≡ first_half x }
{
    let x = less_key(x, 0, 7, 0xA5A5_A5A5_A5A5_A5A5);
    let x = with_xor(x, 1, 0);
    let x = with_sum(x, 2, 1);
    let x = less_up(x, 3, 2, 1);
    let x = with_xor(x, 4, 3);
    let x = with_sum(x, 5, 4);
    let x = less_down(x, 6, 5, 4);
    with_xor(x, 7, 6)
}

/// Makes the second half of the key schedule.
#[inline(always)]
#[tactic(auto, unfolding(crate::specs::Tiger::second_half))]
fn second_half(x: [u64; 8]) -> [u64; 8]
    ensures { result ≡ second_half x }
{
    let x = with_sum(x, 0, 7);
    let x = less_up(x, 1, 0, 7);
    let x = with_xor(x, 2, 1);
    let x = with_sum(x, 3, 2);
    let x = less_down(x, 4, 3, 2);
    let x = with_xor(x, 5, 4);
    let x = with_sum(x, 6, 5);
    less_key(x, 7, 6, 0x0123_4567_89AB_CDEF)
}

#[inline(always)]
#[tactic(auto, unfolding(crate::specs::Tiger::with_xor))]
fn with_xor(mut x: [u64; 8], i: usize, j: usize) -> [u64; 8]
    requires i { i < 8 }
    requires j { j < 8 }
    ensures { result ≡ with_xor i j x }
{
    x[i] ^= x[j];
    x
}

#[inline(always)]
#[tactic(auto, unfolding(crate::specs::Tiger::with_sum))]
fn with_sum(mut x: [u64; 8], i: usize, j: usize) -> [u64; 8]
    requires i { i < 8 }
    requires j { j < 8 }
    ensures { result ≡ with_sum i j x }
{
    x[i] = add(x[i], x[j]);
    x
}

#[inline(always)]
#[tactic(auto, unfolding(crate::specs::Tiger::less_key))]
fn less_key(mut x: [u64; 8], i: usize, j: usize, key: u64) -> [u64; 8]
    requires i { i < 8 }
    requires j { j < 8 }
    ensures { result ≡ less_key i j key x }
{
    x[i] = sub(x[i], x[j] ^ key);
    x
}

#[inline(always)]
#[tactic(auto, unfolding(crate::specs::Tiger::less_up))]
fn less_up(mut x: [u64; 8], i: usize, j: usize, k: usize) -> [u64; 8]
    requires i { i < 8 }
    requires j { j < 8 }
    requires k { k < 8 }
    ensures { result ≡ less_up i j k x }
{
    x[i] = sub(x[i], x[j] ^ not_up(x[k]));
    x
}

#[inline(always)]
#[tactic(auto, unfolding(crate::specs::Tiger::less_down))]
fn less_down(mut x: [u64; 8], i: usize, j: usize, k: usize) -> [u64; 8]
    requires i { i < 8 }
    requires j { j < 8 }
    requires k { k < 8 }
    ensures { result ≡ less_down i j k x }
{
    x[i] = sub(x[i], x[j] ^ not_down(x[k]));
    x
}

#[inline(always)]
#[tactic(auto, unfolding(crate::specs::Words::not_up))]
fn not_up(x: u64) -> u64
    ensures { result ≡ not_up x 19 }
{
    !x << 19
}

#[inline(always)]
#[tactic(auto, unfolding(crate::specs::Words::not_down))]
fn not_down(x: u64) -> u64
    ensures { result ≡ not_down x 23 }
{
    !x >> 23
}
