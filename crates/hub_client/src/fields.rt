ghost use Rattle.std.specs.Prelude.{◌≡◌, ◌⊎◌, IfErr, IfOk};
ghost use Rattle.std.specs.Option.{option_copied};
ghost use Rattle.std.specs.String.{string_bytes};
ghost use Rattle.adc_line.specs.WordsLeft.{words_left};
ghost use Rattle.hub_client.specs.Fields.{IsField, IsFieldText, IsMisspelt};

use crate::fault::ClientFault;
use adc_line::{Line, Words, unescape};
use std::alloc::Global;

/// Returns the value of the first parameter of a message that has this name, escaped as it came.
pub fn field<'a>(line: &'a Line, name: &str) -> Option<&'a str>
    ensures { IsField name.now line.now.params (option_copied result) }
{
    field_among(line.params(), name)
}

/// Returns the value of the first of these parameters that has this name.
pub(crate) fn field_among<'a>(mut words: Words<'a>, name: &str) -> Option<&'a str>
    ensures { IsField name.now (words_left words.entry) (option_copied result) }
{
    'words: while let Some(word) = words.next() {
        if let Some(value) = word.strip_prefix(name) {
            return Some(value);
        }
    }
    None
}

/// Returns the text of the field with this name; empty if there is none. Refused: `NotAdc` if its value spells no text; `Memory`.
pub fn field_text(alloc: Global, line: &Line, name: &str) -> Result<String, ClientFault>
    ensures text { IfOk result (λ text. IsFieldText name.now line.now.params (string_bytes text)) }
    ensures refused { IfErr result (λ fault. (fault ≡ ClientFault.Memory) ⊎ (fault ≡ ClientFault.NotAdc)) }
    ensures misspelt { IfErr result (λ fault. fault ≡ ClientFault.NotAdc → IsMisspelt name.now line.now.params) }
{
    field_text_among(alloc, line.params(), name)
}

/// Returns the text of the field with this name among these parameters; empty if there is none.
pub(crate) fn field_text_among(
    alloc: Global,
    words: Words<'_>,
    name: &str,
) -> Result<String, ClientFault>
    ensures text { IfOk result (λ text. IsFieldText name.now (words_left words.entry) (string_bytes text)) }
    ensures refused { IfErr result (λ fault. (fault ≡ ClientFault.Memory) ⊎ (fault ≡ ClientFault.NotAdc)) }
    ensures misspelt { IfErr result (λ fault. fault ≡ ClientFault.NotAdc → IsMisspelt name.now (words_left words.entry)) }
{
    match field_among(words, name) {
        Some(value) => Ok(unescape(alloc, value)?),
        None => Ok(String::new(alloc)),
    }
}
