ghost use Rattle.std.specs.Prelude.{◌≡◌, length, nat_eq};
ghost use Rattle.std.specs.Option.{option_copied};
ghost use Rattle.operator_acts.specs.Acts.{rest_of, words_after};

use std::marker::Model;

/// The text that follows the words of an act, as it was written: a reason, or a topic. It is empty where
/// nothing follows, and also where a blank follows with nothing behind it.
#[derive(Drop)]
pub struct FreeText<'a> {
    text: &'a str,
}

impl<'a> Model for FreeText<'a> {
    ghost use Rattle.std.specs.Prelude.{ℕ, List};

    ghost Value = { List ℕ };

    ghost use Rattle.operator_acts.specs.TextView.{text_bytes};

    ghost view = { text_bytes };
}

impl<'a> FreeText<'a> {
    pub(crate) fn of(rest: Option<&'a str>) -> FreeText<'a>
        ensures { result ≡ rest_of (words_after (option_copied rest.entry)) }
    {
        FreeText {
            text: rest.unwrap_or(""),
        }
    }

    /// Gives the text, not escaped.
    pub fn as_str(&self) -> &'a str
        ensures { result.now ≡ self.now }
    {
        self.text
    }

    /// Tests whether there is none.
    pub fn is_empty(&self) -> bool
        ensures { result ≡ nat_eq (length self.now) 0 }
    {
        self.as_str().is_empty()
    }
}
