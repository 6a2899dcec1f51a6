ghost use Rattle.std.specs.Prelude.{◌≡◌, ◌&&◌};
ghost use Rattle.adc_line.specs.Header.{is_sign, is_named, is_feature_name, are_features, is_feature_word};

use crate::header::{is_letter, is_letter_or_digit};

fn is_sign(byte: u8) -> bool
    ensures { result ≡ is_sign byte }
{
    matches!(byte, b'+' | b'-')
}

/// Tests whether a word is a feature word, by which a message of type F chooses who hears it (ADC 1.0, "Message types"). It
/// is one or more parts, each a sign, `+` or `-`, and a feature's name.
#[tactic(auto, unfolding(crate::specs::Header::is_feature_word))]
pub fn is_feature_word(word: &[u8]) -> bool
    ensures { result ≡ is_feature_word word.now }
{
    !word.is_empty() && are_features(word)
}

/// Tests whether each five bytes are a sign and a feature's name.
fn are_features(word: &[u8]) -> bool
    ensures { result ≡ are_features word.now }
{
    let mut rest = word;
    'parts: while let [sign, a, b, c, d, more @ ..] = rest {
        if !is_feature(*sign, *a, *b, *c, *d) {
            return false;
        }
        rest = more;
    }
    rest.is_empty()
}

/// Tests whether five bytes are a sign, and a feature's name.
fn is_feature(sign: u8, a: u8, b: u8, c: u8, d: u8) -> bool
    ensures { result ≡ (is_sign sign && is_named a b c d) }
{
    is_sign(sign) && is_named(a, b, c, d)
}

fn is_named(a: u8, b: u8, c: u8, d: u8) -> bool
    ensures { result ≡ is_named a b c d }
{
    is_letter(a) && is_letter_or_digit(b) && is_letter_or_digit(c) && is_letter_or_digit(d)
}

/// Tests whether these bytes are a feature's name: a letter A to Z, and three letters or digits (ADC 1.0, "Message syntax").
#[tactic(auto, unfolding(crate::specs::Header::is_feature_name))]
pub fn is_feature_name(name: &[u8]) -> bool
    ensures { result ≡ is_feature_name name.now }
{
    let [a, b, c, d] = name else {
        return false;
    };
    is_named(*a, *b, *c, *d)
}
