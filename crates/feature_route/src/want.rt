ghost use Rattle.std.specs.Prelude.{◌≡◌, ℕ, List, is_some};
ghost use Rattle.adc_line.specs.Header.{is_feature_word};
ghost use Rattle.feature_route.specs.Wants.{want_at, wants_of};
ghost use Rattle.feature_route.specs.Matching.{feature_set, matches, meets, suits};

use crate::feature_set::FeatureSet;
use crate::features::FeatureSource;
use crate::su::Su;
use adc_line::is_feature_word;
use std::marker::Model;

/// The wish of a message of type F about those who hear it: features that they have, and features that they
/// have not (ADC 1.0, "Message types"). It borrows the feature word.
#[derive(Drop)]
pub struct Want<'a> {
    text: &'a str,
}

impl<'a> Model for Want<'a> {
    ghost use Rattle.feature_route.specs.Wants.{Wants};

    ghost Value = { Wants };

    ghost use Rattle.feature_route.specs.WantView.{wants_in};

    ghost view = { wants_in };
}

impl<'a> Want<'a> {
    /// Reads a feature word, and gives `None` where the text is none. A feature word is one or more parts, each a sign, `+`
    /// or `-`, and a feature's name, a letter A to Z and three letters or digits (ADC 1.0, "Message types").
    #[tactic(auto, unfolding(crate::specs::Wants::want_at))]
    pub fn parse(text: &'a str) -> Option<Want<'a>>
        ensures exact { result ≡ want_at text.now }
        ensures variant { is_some result ≡ is_feature_word text.now }
    {
        if !is_feature_word(text.as_bytes()) {
            return None;
        }
        Some(Want::of(text))
    }

    /// Reads a text that is known to be a feature word.
    pub(crate) fn of(text: &'a str) -> Want<'a>
        ensures { result ≡ wants_of text.now }
    {
        Want { text }
    }

    /// Tests whether a user whose field SU is this text is asked: the words between its commas hold every
    /// feature that is wanted, and none that is not. A user without that field has the empty text, and
    /// no feature.
    pub fn matches(&self, su: &str) -> bool
        ensures { result ≡ matches self.now su.now }
    {
        meets(self.text.as_bytes(), &Su { text: su })
    }

    /// Tests whether a user with these features is asked, as [`Want::matches`] says of the text that they
    /// were read from.
    pub fn matches_set(&self, set: &FeatureSet) -> bool
        ensures exact { result ≡ meets self.now set.now }
        ensures text { (su : List ℕ) → set.now ≡ feature_set su → result ≡ matches self.now su }
    {
        meets(self.text.as_bytes(), set)
    }
}

/// Tests whether the features are as a feature word wants them.
fn meets<F: FeatureSource>(word: &[u8], features: &F) -> bool
    ensures { result ≡ meets (wants_of word.now) (F.words features.now) }
{
    let mut rest = word;
    'parts: while let [sign, a, b, c, d, more @ ..] = rest {
        let had = features.has([*a, *b, *c, *d]);
        if !suits(*sign, had) {
            return false;
        }
        rest = more;
    }
    true
}

/// Tests whether a feature that is had or not is as its sign asks.
fn suits(sign: u8, had: bool) -> bool
    ensures { result ≡ suits sign had }
{
    match sign {
        b'+' => had,
        b'-' => !had,
        _ => true,
    }
}
