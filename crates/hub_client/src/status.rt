ghost use Rattle.std.specs.Prelude.{◌≡◌, ◌⊎◌, Some, IfErr, IfOk, map};
ghost use Rattle.std.specs.Option.{option_copied};
ghost use Rattle.std.specs.String.{string_bytes};
ghost use Rattle.adc_line.specs.WordsLeft.{words_left};
ghost use Rattle.hub_client.specs.Fields.{IsFirstField};
ghost use Rattle.std.specs.Fmt.{WritesOnOk};
ghost use Rattle.hub_client.specs.Statuses.{IsMisspeltSubject, IsNoStatus, IsStatus, IsSubject, is_well, refusal_by, seconds_text, status_text, subject_text};

use crate::fault::ClientFault;
use crate::fields::{field_among, field_text_among};
use adc_line::{Line, Words, unescape};
use std::alloc::Global;
use std::fmt;

/// A status message of a hub.
#[derive(Debug, Drop)]
pub struct Status {
    // The severity and the two digits of the code.
    number: [u8; 3],
    text: String,
    // The subject of the text, where the hub names it.
    about: String,
    seconds: String,
}

/// The meaning of a refusal for whoever asked.
#[derive(Clone, Copy, Debug, PartialEq, Eq)]
pub enum LoginRefusal {
    /// The password is wrong.
    Password,
    /// The client is banned.
    Banned,
    /// Anything else, as the text says.
    Other,
}

impl Status {
    /// Reads a message of the type STA. Refused: `NotAdc` if it has no status; `Memory`.
    pub(crate) fn read(alloc: Global, line: &Line) -> Result<Status, ClientFault>
        ensures status { IfOk result (λ status. IsStatus line.now.params status) }
        ensures refused { IfErr result (λ fault. (fault ≡ ClientFault.Memory) ⊎ (fault ≡ ClientFault.NotAdc)) }
        ensures none { IfErr result (λ fault. fault ≡ ClientFault.NotAdc → IsNoStatus line.now.params) }
    {
        let mut words = line.params();
        let Some([severity, tens, ones]) = words.next().map(|word| word.as_bytes()) else {
            return Err(ClientFault::NotAdc);
        };
        let text = unescape(alloc, words.next().unwrap_or(""))?;
        Ok(Status {
            number: [*severity, *tens, *ones],
            text,
            about: about(alloc, words)?,
            seconds: field_text_among(alloc, words, "TL")?,
        })
    }

    /// Tests whether it is a success, by its severity.
    pub fn is_success(&self) -> bool
        ensures { result ≡ is_well self.now.number }
    {
        self.number[0] == b'0'
    }

    /// Returns the meaning of the status as a refusal.
    pub fn refusal(&self) -> LoginRefusal
        ensures { result ≡ refusal_by self.now.number }
    {
        match self.number {
            [_, b'2', b'3'] => LoginRefusal::Password,
            [_, b'3', b'1' | b'2'] => LoginRefusal::Banned,
            _ => LoginRefusal::Other,
        }
    }
}

/// Returns the subject of a status: the text of its field `I4`, `FB`, `FM` or `FC`, the first of these that it has.
fn about(alloc: Global, words: Words<'_>) -> Result<String, ClientFault>
    ensures subject { IfOk result (λ text. IsSubject (words_left words.entry) (string_bytes text)) }
    ensures refused { IfErr result (λ fault. (fault ≡ ClientFault.Memory) ⊎ (fault ≡ ClientFault.NotAdc)) }
    ensures misspelt { IfErr result (λ fault. fault ≡ ClientFault.NotAdc → IsMisspeltSubject (words_left words.entry)) }
{
    match first_field(words, &["I4", "FB", "FM", "FC"]) {
        Some(value) => Ok(unescape(alloc, value)?),
        None => Ok(String::new(alloc)),
    }
}

/// Returns the value of the first of these fields that the words have.
fn first_field<'a>(words: Words<'a>, names: &[&str]) -> Option<&'a str>
    ensures { IsFirstField (map (λ name. name.now) names.now) (words_left words.entry) (option_copied result) }
{
    for name in names {
        if let Some(value) = field_among(words, name) {
            return Some(value);
        }
    }
    None
}

impl fmt::Display for Status {
    ghost output = { λ status. Some (status_text status) };

    fn fmt<W: fmt::Write>(&self, f: &mut fmt::Formatter<W>) -> fmt::Result {
        f.write_str(&self.text)?;
        write_subject(f, &self.about)?;
        write_seconds(f, &self.seconds)
    }
}

/// Writes the subject of a status in brackets; nothing of an empty text.
fn write_subject<W: fmt::Write>(f: &mut fmt::Formatter<W>, about: &str) -> fmt::Result
    ensures { WritesOnOk W.write_str_gives f.old result (subject_text about.now) f.new }
{
    if !about.is_empty() {
        write!(f, " ({about})")?;
    }
    Ok(())
}

/// Writes the seconds that a status lasts; nothing of an empty text.
fn write_seconds<W: fmt::Write>(f: &mut fmt::Formatter<W>, seconds: &str) -> fmt::Result
    ensures { WritesOnOk W.write_str_gives f.old result (seconds_text seconds.now) f.new }
{
    if !seconds.is_empty() {
        write!(f, " for {seconds} seconds")?;
    }
    Ok(())
}
