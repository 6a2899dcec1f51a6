ghost use Rattle.std.specs.Prelude.{◌≡◌, ◌==◌, [], ◌∷◌, drop};
ghost use Rattle.std.specs.Iterator.{YieldsFirstRef, item_count};
ghost use Rattle.std.specs.Option.{option_map_or};
ghost use Rattle.adc_line.specs.Words.{words, word_at};

/// The words of a line that are left, in order: what stands between its blanks, escaped as it came
/// (ADC 1.0, "Message syntax").
#[derive(Clone, Copy)]
pub struct Words<'a> {
    rest: Option<&'a str>,
}

impl<'a> Words<'a> {
    ghost use Rattle.adc_line.specs.WordsLeft.{words_left};

    /// Gives all words of a text.
    pub(crate) fn of(text: &'a str) -> Words<'a>
        ensures { words_left result ≡ words text.now }
    {
        Words { rest: Some(text) }
    }

    /// Gives the next word, or the empty text where none is left.
    pub(crate) fn next_or_empty(&mut self) -> &'a str
        ensures word { result.now ≡ word_at (words_left self.old) 0 }
        ensures rest { words_left self.new ≡ drop 1 (words_left self.old) }
    {
        self.next().unwrap_or("")
    }

    /// Gives the words after the first `count`.
    pub(crate) fn after(self, count: usize) -> Words<'a>
        ensures { words_left result ≡ drop count (words_left self.entry) }
    {
        let mut words = self;
        for _taken in 0..count {
            words.next_or_empty();
        }
        words
    }
}

impl<'a> Iterator for Words<'a> {
    ghost use Rattle.adc_line.specs.WordsLeft.{words_left};

    type Item = &'a str;

    ghost next_gives = { YieldsFirstRef words_left };

    ghost remaining = { item_count words_left };

    fn next(&mut self) -> Option<&'a str> {
        let (word, rest) = split_word(self.rest?);
        self.rest = rest;
        Some(word)
    }
}

/// Splits a text into what is before the first blank, and what follows that blank.
fn split_word(text: &str) -> (&str, Option<&str>)
    ensures { words text.now ≡ result.0.now ∷ option_map_or (λ rest. words rest.now) result.1 [] }
{
    match text.split_once(' ') {
        Some((word, rest)) => (word, Some(rest)),
        None => (text, None),
    }
}
