ghost use Rattle.std.specs.Prelude.{◌≡◌};
ghost use Rattle.std.specs.Fmt.{is_char_start};
ghost use Rattle.settings_report.specs.Places.{IsBehind};

use crate::findings::Finding;
use crate::statements::{Statement, statements};
use std::alloc::{AllocError, Global};

/// A place in a text: line and column from 1, the column in characters.
#[derive(Clone, Copy, Debug, PartialEq, Eq)]
pub struct TextPlace {
    /// The line.
    pub line: usize,
    /// The column.
    pub column: usize,
}

impl TextPlace {
    /// The place behind these bytes, with which a text begins.
    pub(crate) fn behind(bytes: &[u8]) -> TextPlace
        ensures { IsBehind bytes.now result }
    {
        let mut place = TextPlace { line: 1, column: 1 };
        for byte in bytes {
            if *byte == b'\n' {
                place.line = place.line.saturating_add(1);
                place.column = 1;
            } else if begins_character(*byte) {
                place.column = place.column.saturating_add(1);
            }
        }
        place
    }
}

/// Tests whether a byte of a text begins a character.
fn begins_character(byte: u8) -> bool
    ensures { result ≡ is_char_start byte }
{
    byte < 0x80 || 0xC0 <= byte
}

/// Finds where the statement of a document begins that makes what was found: the first with which its beginning has it. Each statement
/// adds to what those before it say, so half of them are left out at a time.
pub(crate) fn place_of(
    alloc: Global,
    text: &str,
    finding: &Finding<'_>,
) -> Result<TextPlace, AllocError> {
    let statements = statements(alloc, text)?;
    let place = match first_with(alloc, text, &statements, finding)? {
        Some(found) => TextPlace {
            line: found.line,
            column: found.column,
        },
        None => TextPlace { line: 1, column: 1 },
    };
    drop(statements);
    Ok(place)
}

/// The first of these statements of a document up to which it has what was found, or else the last.
fn first_with(
    alloc: Global,
    text: &str,
    statements: &[Statement],
    finding: &Finding<'_>,
) -> Result<Option<Statement>, AllocError> {
    let mut later = statements;
    let mut found = statements.last().copied();
    for _half in 0..usize::BITS {
        let (before, rest) = later.split_at(later.len() / 2);
        let Some((middle, behind)) = rest.split_first() else {
            break;
        };
        if is_before(alloc, text, middle.end, finding)? {
            found = Some(*middle);
            later = before;
        } else {
            later = behind;
        }
    }
    Ok(found)
}

/// Tests whether the beginning of a document with so many bytes has what was found.
fn is_before(
    alloc: Global,
    text: &str,
    end: usize,
    finding: &Finding<'_>,
) -> Result<bool, AllocError> {
    match toml::table_from_str(alloc, text.get(..end).unwrap_or(text)) {
        Ok(table) => Ok(finding.is_in(&table)),
        Err(error) if error.is_memory() => Err(AllocError),
        Err(_) => Ok(false),
    }
}
