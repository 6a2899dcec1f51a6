//! The hash by which clients prove who they are.
#![tactic(auto)]

mod first24;
mod hash;
mod message;
mod table_tiger;
mod tiger;
mod words;

pub use first24::First24;
pub use hash::SessionHash;
pub use table_tiger::{TableTiger, TablesFault};
pub use tiger::{Registers, TABLE_WORDS, compress};
pub use words::block_words;
