ghost use Rattle.std.specs.Prelude.{◌≡◌, ◌+◌, ◌≤◌, length, take, drop};
ghost use Rattle.std.specs.Int.{w64, from_le_bytes};
ghost use Rattle.session_hash.specs.Tables.{words_from};

/// Reads the word that the first eight bytes make, the lowest first, and gives the bytes after them.
pub(crate) fn first_word(bytes: &[u8]) -> (u64, &[u8])
    requires { 8 ≤ length bytes.now }
    ensures word { result.0 ≡ from_le_bytes w64 (take 8 bytes.now) }
    ensures rest { result.1.now ≡ drop 8 bytes.now }
    ensures left { length result.1.now + 8 ≡ length bytes.now }
{
    let (first, rest) = bytes.split_at(8);
    let mut word = [0; 8];
    word.copy_from_slice(first);
    (u64::from_le_bytes(word), rest)
}

/// Reads the eight words of a block of 64 bytes, the lowest byte of each first.
#[tactic(auto, unfolding(crate::specs::Tables::words_from))]
pub fn block_words(bytes: &[u8]) -> [u64; 8]
    requires { length bytes.now ≡ 64 }
    ensures { result ≡ words_from 8 bytes.now }
{
    let (a, rest) = first_word(bytes);
    let (b, rest) = first_word(rest);
    let (c, rest) = first_word(rest);
    let (d, rest) = first_word(rest);
    let (e, rest) = first_word(rest);
    let (f, rest) = first_word(rest);
    let (g, rest) = first_word(rest);
    let (h, _) = first_word(rest);
    [a, b, c, d, e, f, g, h]
}
