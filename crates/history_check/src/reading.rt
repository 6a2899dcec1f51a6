//! Reads a written history.

ghost use Rattle.std.specs.Prelude.{IfErr, IfOk};
ghost use Rattle.history_check.specs.Read.{IsReadAs, IsReadFault};

use crate::entries::read_entry;
use crate::written::WrittenEntry;
use std::alloc::{AllocError, AllocFailed, Global};

/// A history as it is written, with the number of the line of each entry.
#[derive(Drop)]
pub struct Written {
    /// The entries, oldest first.
    pub entries: Vec<WrittenEntry>,
    /// The numbers of their lines, from 1 on.
    pub lines: Vec<usize>,
}

/// A reason why a text is no written history.
#[derive(Clone, Copy, Debug, PartialEq, Eq)]
pub enum ReadFault {
    /// The line of this number, from 1 on, writes no entry.
    Line(usize),
    /// Memory ran out.
    Memory,
}

impl From<AllocError> for ReadFault {
    ghost use Rattle.std.specs.Prelude.{◌≡◌};
    ghost use Rattle.history_check.specs.declared.reading.ReadFault.TheVariants.{Memory};

    ghost from_gives = { λ _ fault. fault ≡ Memory };

    fn from(_: AllocError) -> ReadFault {
        ReadFault::Memory
    }
}

impl<T: Drop> From<AllocFailed<T>> for ReadFault {
    ghost use Rattle.std.specs.Prelude.{◌≡◌};
    ghost use Rattle.history_check.specs.declared.reading.ReadFault.TheVariants.{Memory};

    ghost from_gives = { λ _ fault. fault ≡ Memory };

    fn from(_: AllocFailed<T>) -> ReadFault {
        ReadFault::Memory
    }
}

/// Reads a written history, an entry a line. Lines that are empty or begin with `#` have no entry.
///
/// Returns `Line` for the first line that writes no entry, and `Memory` if an allocation fails.
pub fn read_history(alloc: Global, text: &[u8]) -> Result<Written, ReadFault>
    ensures written { IfOk result (λ written. IsReadAs text.now written) }
    ensures fault { IfErr result (λ fault. IsReadFault text.now fault) }
{
    let mut written = Written {
        entries: Vec::new(alloc),
        lines: Vec::new(alloc),
    };
    for (place, line) in text.split(|byte| *byte == b'\n').enumerate() {
        if line.is_empty() || line.starts_with(b"#") {
            continue;
        }
        let number = place + 1;
        let Some(entry) = read_entry(alloc, line)? else {
            return Err(ReadFault::Line(number));
        };
        written.entries.push(entry)?;
        written.lines.push(number)?;
    }
    Ok(written)
}
