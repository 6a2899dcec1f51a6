ghost use Rattle.std.specs.Prelude.{◌≡◌, ◌↔◌, IfOk, IsTrue};
ghost use Rattle.adc_line.specs.Lines.{reading};
ghost use Rattle.settings_report.specs.MenuTexts.{HasCarriageReturn, TellsFlaw, flaw_words, goes_to_hub, is_sent};
ghost use Rattle.settings_report.specs.Places.{EndsWithLineFeed};

use adc_line::{Kind, Line, LineFault};
use std::alloc::{AllocError, Global};

/// A flaw of a menu entry's text, which a client sends as it stands.
#[derive(Clone, Copy, Debug, PartialEq, Eq)]
pub enum TextFlaw {
    /// It does not end with a line feed, so what the client sends next becomes part of it.
    Unended,
    /// A carriage return stands before a line feed, and becomes part of the message.
    CarriageReturn,
    /// One of its lines is no message that a client may send.
    NoMessage,
}

impl TextFlaw {
    /// Says it in words.
    pub fn words(self) -> &'static str
        ensures { result.now ≡ flaw_words self }
    {
        match self {
            TextFlaw::Unended => {
                "it does not end with \\n, so it swallows what the client sends next"
            }
            TextFlaw::CarriageReturn => "it has \\r\\n, and \\r becomes part of the message",
            TextFlaw::NoMessage => "it is no message that a client can send to a hub",
        }
    }
}

/// Tests whether a menu entry's text has this flaw.
pub(crate) fn has_flaw(alloc: Global, text: &str, flaw: TextFlaw) -> Result<bool, AllocError>
    ensures { IfOk result (TellsFlaw flaw text.now) }
{
    match flaw {
        TextFlaw::Unended => Ok(!ends_with_line_feed(text)),
        TextFlaw::CarriageReturn => Ok(has_carriage_return(text)),
        TextFlaw::NoMessage => has_other_lines(alloc, text),
    }
}

fn ends_with_line_feed(text: &str) -> bool
    ensures { IsTrue result ↔ EndsWithLineFeed text.now }
{
    text.ends_with('\n')
}

/// Tests whether a carriage return stands before a line feed.
fn has_carriage_return(text: &str) -> bool
    ensures { IsTrue result ↔ HasCarriageReturn text.now }
{
    text.contains("\r\n")
}

/// Tests whether a line of a text is neither empty nor a message that a client may send. Of one that begins with what is filled in
/// nothing can be said.
fn has_other_lines(alloc: Global, text: &str) -> Result<bool, AllocError> {
    for line in text.split('\n') {
        if !line.is_empty() && !line.starts_with("%[") && !is_message(alloc, line)? {
            return Ok(true);
        }
    }
    Ok(false)
}

fn is_message(alloc: Global, line: &str) -> Result<bool, AllocError> {
    let filled = filled(alloc, line)?;
    is_sent(alloc, filled.as_bytes())
}

/// Tests whether bytes are a message that a client may send.
fn is_sent(alloc: Global, bytes: &[u8]) -> Result<bool, AllocError>
    ensures { IfOk result (λ told. told ≡ is_sent (reading bytes.now)) }
{
    match Line::parse(alloc, bytes) {
        Ok(message) => Ok(is_from_client(message.kind())),
        Err(LineFault::Memory) => Err(AllocError),
        Err(_) => Ok(false),
    }
}

fn is_from_client(kind: Kind) -> bool
    ensures { result ≡ goes_to_hub kind }
{
    !matches!(kind, Kind::Client | Kind::Info | Kind::Udp)
}

/// Fills in what a client fills in: a session identifier where one is named so, a letter anywhere else.
fn filled(alloc: Global, line: &str) -> Result<String, AllocError> {
    let mut pieces = line.split("%[");
    let mut filled = String::from_str(alloc, pieces.next().unwrap_or(""))?;
    for piece in pieces {
        match piece.split_once(']') {
            Some((name, rest)) => {
                filled.push_str(if name.ends_with("SID") { "AAAB" } else { "A" })?;
                filled.push_str(rest)?;
            }
            None => {
                filled.push_str("%[")?;
                filled.push_str(piece)?;
            }
        }
    }
    Ok(filled)
}
