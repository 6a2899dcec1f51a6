ghost use Rattle.std.specs.Prelude.{◌≡◌, ◌≢◌, IfOk, IfErr, MatchResult, is_some, not, Some, None};
ghost use Rattle.std.specs.Option.{option_copied};
ghost use Rattle.adc_line.specs.Gives.{Gives};
ghost use Rattle.adc_line.specs.Header.{header_at};
ghost use Rattle.adc_line.specs.Lines.{reading, with_header};
ghost use Rattle.adc_line.specs.Words.{words};
ghost use Rattle.adc_line.specs.WordsLeft.{words_left};
ghost use Rattle.std.specs.List.{list_all};
ghost use Rattle.adc_line.specs.Escapes.{is_escaped, escape_means};
ghost use Rattle.adc_line.specs.Frames.{is_lf};
ghost use Rattle.adc_line.specs.Parameters.{is_parameter, params_fault};

use crate::fault::LineFault;
use crate::header::{Header, Kind, header_at, header_words};
use crate::words::Words;
use adc_base32::Sid;
use std::alloc::Global;
use std::marker::Model;

/// The bytes that a line may have, without its line feed.
pub(crate) const MAX_LINE: usize = 65_536;

/// A line of ADC: a header and parameters, without the line feed (ADC 1.0, "Message syntax").
pub struct Line {
    text: String,
    header: Header,
}

impl Drop for Line {
    fn drop(self) {
        let Line { text, header: _ } = self;
        drop(text);
    }
}

impl Model for Line {
    ghost use Rattle.adc_line.specs.Lines.{Reading};

    ghost Value = { Reading };

    ghost use Rattle.adc_line.specs.LineView.{line_message, IsRead};

    ghost view = { line_message };

    ghost invariant = { IsRead };
}

impl Line {
    ghost use Rattle.adc_line.specs.Grammar.{Reads};
    ghost use Rattle.adc_line.specs.Lines.{Reading};

    /// Reads the line that bytes spell, which have no line feed at their end (ADC 1.0, "Message syntax").
    ///
    /// Refused with the first of these that applies: `TooLong` over 65,536 bytes, `NotUtf8`, `Header` where the first words
    /// are no header of a type (none in the empty line). Then come `Parameter` where a later word is empty or holds a line
    /// feed, `Escape` where in one a backslash begins no escape. `Memory` comes last, and only for a line that is one.
    pub fn parse(alloc: Global, bytes: &[u8]) -> Result<Line, LineFault>
        ensures exact { Gives (λ line. line) result (reading bytes.now) }
        ensures found { IfOk result (λ line. Reads bytes.now line) }
        ensures only { (line : Reading) → Reads bytes.now line → MatchResult result (λ read. read ≡ line) (λ fault. fault ≡ LineFault.Memory) }
    {
        Line::read(alloc, bytes)
    }

    #[tactic(auto, unfolding(crate::specs::Lines::reading))]
    fn read(alloc: Global, bytes: &[u8]) -> Result<Line, LineFault>
        ensures { Gives (λ line. line) result (reading bytes.now) }
    {
        let text = text_of(bytes)?;
        let header = header_at(text).ok_or(LineFault::Header)?;
        check_params(Words::of(text).after(header_words(header.head.kind)))?;
        Ok(Line {
            text: String::from_str(alloc, text)?,
            header,
        })
    }

    /// Gives its type (ADC 1.0, "Message types").
    pub fn kind(&self) -> Kind
        ensures { result ≡ self.now.kind }
    {
        self.header.head.kind
    }

    /// Gives the three characters of its command's name.
    pub fn command(&self) -> [u8; 3]
        ensures { result ≡ self.now.command }
    {
        self.header.head.command
    }

    /// Gives the sender's identifier, in a line of type B, D, E or F.
    pub fn from(&self) -> Option<Sid>
        ensures { result ≡ self.now.from }
    {
        self.header.from
    }

    /// Gives the identifier of whom it is for, in a line of type D or E.
    pub fn target(&self) -> Option<Sid>
        ensures { result ≡ self.now.target }
    {
        self.header.target
    }

    /// Gives the feature word of a line of type F.
    pub fn features(&self) -> Option<&str>
        ensures { option_copied result ≡ self.now.features }
    {
        match self.header.head.kind {
            Kind::Feature => Some(Words::of(&self.text).after(2).next_or_empty()),
            _ => None,
        }
    }

    /// Gives its parameters in order, escaped as they came.
    pub fn params(&self) -> Words<'_>
        ensures { words_left result ≡ self.now.params }
    {
        Words::of(&self.text).after(header_words(self.header.head.kind))
    }

    /// Gives the whole line as it came, without the line feed.
    pub fn text(&self) -> &str
        ensures bytes { result.now ≡ self.now.text }
        ensures whole { reading result.now ≡ Ok self.now }
    {
        self.text.as_str()
    }
}

/// Reads the bytes as text, where they are not too many and are UTF-8.
#[tactic(auto, unfolding(crate::specs::Lines::reading))]
fn text_of(bytes: &[u8]) -> Result<&str, LineFault>
    ensures same { IfOk result (λ text. text.now ≡ bytes.now) }
    ensures checked { MatchResult result (λ text. reading bytes.now ≡ with_header text.now (header_at (words text.now))) (λ fault. reading bytes.now ≡ Err fault) }
    ensures no_memory { IfErr result (λ fault. fault ≢ LineFault.Memory) }
{
    if bytes.len() > MAX_LINE {
        return Err(LineFault::TooLong);
    }
    match str::from_utf8(bytes) {
        Ok(text) => Ok(text),
        Err(_) => Err(LineFault::NotUtf8),
    }
}

/// Tests whether words are parameters, and then whether each is escaped.
#[tactic(auto, unfolding(crate::specs::Parameters::params_fault))]
pub(crate) fn check_params(words: Words<'_>) -> Result<(), LineFault>
    ensures checked { MatchResult result (λ _. params_fault (words_left words.entry) ≡ None) (λ fault. params_fault (words_left words.entry) ≡ Some fault) }
    ensures no_memory { IfErr result (λ fault. fault ≢ LineFault.Memory) }
{
    if !are_parameters(words) {
        return Err(LineFault::Parameter);
    }
    if !are_escaped(words) {
        return Err(LineFault::Escape);
    }
    Ok(())
}

fn are_parameters(words: Words<'_>) -> bool
    ensures { result ≡ list_all is_parameter (words_left words.entry) }
{
    for word in words {
        if !is_parameter(word.as_bytes()) {
            return false;
        }
    }
    true
}

fn are_escaped(words: Words<'_>) -> bool
    ensures { result ≡ list_all is_escaped (words_left words.entry) }
{
    for word in words {
        if !is_escaped(word.as_bytes()) {
            return false;
        }
    }
    true
}

fn is_parameter(word: &[u8]) -> bool
    ensures { result ≡ is_parameter word.now }
{
    !word.is_empty() && has_no_lf(word)
}

fn has_no_lf(word: &[u8]) -> bool
    ensures { result ≡ list_all (λ b. not (is_lf b)) word.now }
{
    word.iter().all(|b| *b != b'\n')
}

fn is_escaped(word: &[u8]) -> bool
    ensures { result ≡ is_escaped word.now }
{
    let mut rest = word;
    'bytes: while let [byte, after @ ..] = rest {
        if *byte == b'\\' {
            let [letter, more @ ..] = after else {
                return false;
            };
            if !ends_escape(*letter) {
                return false;
            }
            rest = more;
        } else {
            rest = after;
        }
    }
    true
}

#[tactic(auto, unfolding(crate::specs::Escapes::escape_means))]
fn ends_escape(byte: u8) -> bool
    ensures { result ≡ is_some (escape_means byte) }
{
    matches!(byte, b's' | b'n' | b'\\')
}
