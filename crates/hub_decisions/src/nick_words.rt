ghost use Rattle.std.specs.Prelude.{◌≡◌, IfOk};
ghost use Rattle.std.specs.String.{string_bytes};
ghost use Rattle.adc_line.specs.WordsLeft.{words_left};
ghost use Rattle.hub_rules.specs.Acts.{text_in};
ghost use Rattle.hub_rules.specs.Identities.{meaning};

use adc_line::{UnescapeFault, Words, unescape};
use std::alloc::{AllocError, Global};

/// Gives what a word means: the text that it spells, and the empty text where it spells none. Refused only where memory
/// runs out.
pub(crate) fn meaning(alloc: Global, word: &str) -> Result<String, AllocError>
    ensures { IfOk result (λ text. string_bytes text ≡ meaning word.now) }
{
    match unescape(alloc, word) {
        Ok(text) => Ok(text),
        Err(UnescapeFault::Escape) => Ok(String::new(alloc)),
        Err(UnescapeFault::Memory) => Err(AllocError),
    }
}

/// Gives what the first parameter means. Refused only where memory runs out.
pub(crate) fn text_in(alloc: Global, words: Words<'_>) -> Result<String, AllocError>
    ensures { IfOk result (λ text. string_bytes text ≡ text_in (words_left words.entry)) }
{
    let mut words = words;
    match words.next() {
        Some(word) => meaning(alloc, word),
        None => Ok(String::new(alloc)),
    }
}
