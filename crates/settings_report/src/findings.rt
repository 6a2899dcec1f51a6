ghost use Rattle.std.specs.Prelude.{◌≡◌, IfOk, false, string_bytes};
ghost use Rattle.std.specs.Option.{option_map};
ghost use Rattle.toml.specs.Data.{get_member};
ghost use Rattle.toml.specs.Text.{IsValueText};
ghost use Rattle.toml.specs.View.{table_view, view};
ghost use Rattle.settings_report.specs.FaultWords.{IsFindingText, IsShown, kind_words};

use crate::allowed::Allowed;
use std::alloc::{AllocError, Global};
use std::fmt::{Display, Formatter};
use toml::{Table, Value};

/// The value that stands where a fault is.
#[derive(Clone, Copy, Debug)]
pub(crate) enum Found<'a> {
    /// A value.
    Value(&'a Value),
    /// A value that is kept to itself, as it may be a password.
    Secret(&'a Value),
    /// A key that is none here.
    Unknown,
    /// Nothing.
    Nothing,
    /// One entry too many.
    Surplus,
    /// The nick of an earlier account.
    Twice(&'a Value),
}

/// A fault of a document: at a key, or in an entry of the list there, or at a key of that entry.
#[derive(Clone, Copy, Debug)]
pub(crate) struct Finding<'a> {
    pub(crate) key: &'a str,
    /// Counted from 0.
    pub(crate) entry: Option<usize>,
    pub(crate) inner: Option<&'a str>,
    pub(crate) found: Found<'a>,
    pub(crate) allowed: Allowed,
}

impl Finding<'_> {
    /// Tests whether a table has what was found; of a key that is missing, the entry that lacks it.
    pub(crate) fn is_in(&self, table: &Table) -> bool {
        let Some(value) = table.get(self.key) else {
            return false;
        };
        let Some(entry) = self.entry else {
            return true;
        };
        let Some(items) = value.as_array() else {
            return false;
        };
        let Some(item) = items.get(entry) else {
            return false;
        };
        match (self.inner, self.found) {
            (None, _) | (_, Found::Nothing) => true,
            (Some(inner), _) => match item.as_table() {
                Some(table) => table.contains_key(inner),
                None => false,
            },
        }
    }

    /// Tells what stands there, in words.
    pub(crate) fn words(&self, alloc: Global) -> Result<String, AllocError>
        ensures { IfOk result (λ words. IsFindingText self.now.found (string_bytes words)) }
    {
        match self.found {
            Found::Value(value) => value_text(alloc, value),
            Found::Secret(value) => kind(alloc, value),
            Found::Unknown => String::from_str(alloc, "an unknown key"),
            Found::Nothing => String::from_str(alloc, "nothing"),
            Found::Surplus => String::from_str(alloc, "one more"),
            Found::Twice(value) => {
                let mut words = value_text(alloc, value)?;
                words.push_str(" once more")?;
                Ok(words)
            }
        }
    }
}

/// A value as it is written; of a list or a table only that it is one.
#[tactic(auto, using(crate::proofs::Shown::kind_shown, crate::proofs::Shown::value_shown))]
fn value_text(alloc: Global, value: &Value) -> Result<String, AllocError>
    ensures { IfOk result (λ words. IsShown (view value.now) (string_bytes words)) }
{
    if value.is_array() || value.is_table() {
        return kind(alloc, value);
    }
    written(alloc, value)
}

/// Writes a value as TOML does.
fn written(alloc: Global, value: &Value) -> Result<String, AllocError>
    ensures { IfOk result (λ words. IsValueText false (view value.now) (string_bytes words)) }
{
    let mut text = Formatter::new(String::new(alloc));
    match value.fmt(&mut text) {
        Ok(()) => Ok(text.into_inner()),
        Err(_) => Err(AllocError),
    }
}

/// The kind of a value, and whether it is an empty text.
fn kind(alloc: Global, value: &Value) -> Result<String, AllocError>
    ensures { IfOk result (λ words. string_bytes words ≡ kind_words (view value.now)) }
{
    let words = match value {
        Value::String(text) if text.is_empty() => "an empty text",
        Value::String(_) => "a text",
        Value::Integer(_) => "a whole number",
        Value::Float(_) => "a number that is not whole",
        Value::Boolean(_) => "true or false",
        Value::Datetime(_) => "a date or a time",
        Value::Array(_) => "a list",
        Value::Table(_) => "a table",
    };
    String::from_str(alloc, words)
}

/// Gives the value at a key.
pub(crate) fn value_at<'a>(table: &'a Table, key: &str) -> Option<&'a Value>
    ensures { option_map (λ value. view value.now) result ≡ get_member key.now (table_view table.entry.now) }
{
    table.get(key)
}
