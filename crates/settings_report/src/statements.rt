ghost use Rattle.settings_report.specs.Statements.{BeginsAt};

use std::alloc::{AllocError, Global};

/// A statement of a document: a table's head, or a key and its value.
#[derive(Clone, Copy, Debug)]
pub(crate) struct Statement {
    /// The line where it begins, from 1.
    pub(crate) line: usize,
    /// The column where it begins, from 1.
    pub(crate) column: usize,
    /// The number of bytes of the document up to the end of its last line.
    pub(crate) end: usize,
}

/// What the next byte of a document stands in. A quote is the byte that begins and ends a text.
#[derive(Clone, Copy, Debug, PartialEq, Eq)]
enum Within {
    /// No text and no comment.
    Statement,
    /// A comment, to the end of its line.
    Comment,
    /// The quotes that begin a text: so many were read, 1 or 2.
    Opening {
        quote: u8,
        read: u8,
    },
    /// A text of one line.
    Text {
        quote: u8,
        is_escaped: bool,
    },
    /// A text of several lines, of whose end so many quotes were read.
    LongText {
        quote: u8,
        is_escaped: bool,
        read: u8,
    },
    /// The quotes behind the three that end a text of several lines.
    Closed {
        quote: u8,
    },
}

/// A place in a document that is read byte by byte.
#[derive(Clone, Copy, Debug)]
struct Reader {
    within: Within,
    /// How many brackets are open.
    depth: usize,
}

impl Reader {
    fn take(&mut self, byte: u8) {
        self.within = match self.within {
            Within::Comment if byte != b'\n' => Within::Comment,
            Within::Opening { quote, read: 1 } if byte != quote => in_text(quote, false, byte),
            Within::Opening { quote, read } if byte == quote => opened(quote, read),
            Within::Text { quote, is_escaped } => in_text(quote, is_escaped, byte),
            Within::LongText {
                quote,
                is_escaped,
                read,
            } => in_long_text(quote, is_escaped, read, byte),
            Within::Closed { quote } if byte == quote => Within::Closed { quote },
            _ => self.in_statement(byte),
        };
    }

    fn in_statement(&mut self, byte: u8) -> Within {
        match byte {
            b'#' => return Within::Comment,
            b'"' | b'\'' => {
                return Within::Opening {
                    quote: byte,
                    read: 1,
                };
            }
            b'[' | b'{' => self.depth = self.depth.saturating_add(1),
            b']' | b'}' => self.depth = self.depth.saturating_sub(1),
            _ => {}
        }
        Within::Statement
    }

    fn is_between_statements(&self) -> bool {
        self.within == Within::Statement && self.depth == 0
    }
}

fn opened(quote: u8, read: u8) -> Within {
    if read == 1 {
        return Within::Opening { quote, read: 2 };
    }
    Within::LongText {
        quote,
        is_escaped: false,
        read: 0,
    }
}

fn in_text(quote: u8, is_escaped: bool, byte: u8) -> Within {
    if byte == quote && !is_escaped {
        return Within::Statement;
    }
    Within::Text {
        quote,
        is_escaped: escapes(quote, is_escaped, byte),
    }
}

fn in_long_text(quote: u8, is_escaped: bool, read: u8, byte: u8) -> Within {
    if byte == quote && !is_escaped && read >= 2 {
        return Within::Closed { quote };
    }
    Within::LongText {
        quote,
        is_escaped: escapes(quote, is_escaped, byte),
        read: if byte == quote && !is_escaped {
            read.saturating_add(1)
        } else {
            0
        },
    }
}

/// Tests whether this byte of a text escapes the next: only a backslash between double quotes does.
fn escapes(quote: u8, is_escaped: bool, byte: u8) -> bool {
    quote == b'"' && byte == b'\\' && !is_escaped
}

/// Finds the statements of a document of TOML. It is read once.
pub(crate) fn statements(alloc: Global, text: &str) -> Result<Vec<Statement>, AllocError> {
    let mut found = Vec::new(alloc);
    let mut reader = Reader {
        within: Within::Statement,
        depth: 0,
    };
    let (mut number, mut end) = (0usize, 0usize);
    // Where the statement begins that is being read.
    let mut begun = None;
    for line in text.split_inclusive('\n') {
        number = number.saturating_add(1);
        end = end.saturating_add(line.len());
        begun = begun.or(beginning(line, number));
        for byte in line.bytes() {
            reader.take(byte);
        }
        if let (Some((line, column)), true) = (begun, reader.is_between_statements()) {
            found.push(Statement { line, column, end })?;
            begun = None;
        }
    }
    // The last line may end in a comment.
    if let Some((line, column)) = begun {
        found.push(Statement { line, column, end })?;
    }
    Ok(found)
}

/// Gives the line and the column where a statement begins in this line, outside all others; `None` where it has none.
fn beginning(line: &str, number: usize) -> Option<(usize, usize)>
    ensures { BeginsAt line.now number result }
{
    let statement = line.trim_start();
    if statement.is_empty() || statement.starts_with('#') {
        return None;
    }
    Some((number, (line.len() - statement.len()).saturating_add(1)))
}
