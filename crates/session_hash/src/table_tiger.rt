ghost use Rattle.std.specs.Prelude.{◌≡◌, ◌≢◌, ◌↔◌, IfOk, IsErrOf, length};
ghost use Rattle.session_hash.specs.Tables.{words_from};
ghost use Rattle.session_hash.specs.Tiger.{tiger};

use crate::SessionHash;
use crate::message::digest_of;
use crate::tiger::TABLE_WORDS;
use crate::words::first_word;
use std::alloc::{AllocError, AllocFailed, Global};
use std::marker::Model;

/// The reasons for which bytes are no tables, looked for in the order 2, 1.
#[derive(Clone, Copy, Debug, PartialEq, Eq)]
pub enum TablesFault {
    /// Memory ran out.
    Memory = 1,
    /// The length is wrong: there are not 8,192 bytes.
    Length = 2,
}

impl From<AllocError> for TablesFault {
    ghost use Rattle.std.specs.Prelude.{◌≡◌};
    ghost use Rattle.session_hash.specs.declared.table_tiger.TablesFault.TheVariants.{Memory};

    ghost from_gives = { λ _ fault. fault ≡ Memory };

    fn from(_: AllocError) -> TablesFault {
        TablesFault::Memory
    }
}

impl<T: Drop> From<AllocFailed<T>> for TablesFault {
    ghost use Rattle.std.specs.Prelude.{◌≡◌};
    ghost use Rattle.session_hash.specs.declared.table_tiger.TablesFault.TheVariants.{Memory};

    ghost from_gives = { λ _ fault. fault ≡ Memory };

    fn from(_: AllocFailed<T>) -> TablesFault {
        TablesFault::Memory
    }
}

/// Tiger over four tables that were read from a file (ADC-EXT, "TIGR"): plain Tiger of the bytes,
/// 24 bytes of output. Contracts see it as the 1,024 words of the tables.
pub struct TableTiger {
    words: Vec<u64>,
}

impl Drop for TableTiger {
    fn drop(self) {
        let TableTiger { words } = self;
        drop(words);
    }
}

impl Model for TableTiger {
    ghost use Rattle.std.specs.Prelude.{◌≡◌, ℕ, List, length};

    ghost Value = { List ℕ };

    ghost view = { λ t. t.words.items };

    ghost invariant = { λ t. length t.words.items ≡ 1024 };
}

impl TableTiger {
    /// Makes the tables that 8,192 bytes hold: four of 256 words each, one after another, the lowest byte of each word
    /// first.
    ///
    /// Refused: `Length` where there are not 8,192 bytes; then `Memory`.
    pub fn from_bytes(alloc: Global, bytes: &[u8]) -> Result<TableTiger, TablesFault>
        ensures words { IfOk result (λ tables. tables ≡ words_from 1024 bytes.now) }
        ensures length { IsErrOf result TablesFault.Length ↔ (length bytes.now ≢ 8192) }
    {
        if bytes.len() != 8 * TABLE_WORDS {
            return Err(TablesFault::Length);
        }
        Ok(TableTiger {
            words: words_of(alloc, bytes)?,
        })
    }
}

impl SessionHash for TableTiger {
    ghost digest_of = { λ tables bytes. tiger tables bytes };

    fn digest(&self, bytes: &[u8]) -> [u8; 24] {
        digest_of(&self.words, bytes)
    }
}

fn words_of(alloc: Global, bytes: &[u8]) -> Result<Vec<u64>, AllocError>
    requires { length bytes.now ≡ 8192 }
    ensures words { IfOk result (λ words. words.items ≡ words_from 1024 bytes.now) }
    ensures length { IfOk result (λ words. length words.items ≡ 1024) }
{
    let mut words = Vec::with_capacity(alloc, TABLE_WORDS)?;
    let mut rest = bytes;
    for place in 0..TABLE_WORDS {
        let (word, after) = first_word(rest);
        words.push(word)?;
        rest = after;
    }
    Ok(words)
}
