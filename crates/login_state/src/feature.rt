ghost use Rattle.std.specs.Prelude.{◌≡◌};
ghost use Rattle.login_state.specs.Signs.{read_mention, mention_with_sign};
ghost use Rattle.login_state.specs.Mentions.{base, tigr, ping, ucmd, feature_named, mention_at};

use adc_line::is_feature_name;
use std::marker::Model;

/// A feature, by the four characters of its name (ADC 1.0, "SUP").
#[derive(Clone, Copy, Debug, PartialEq, Eq)]
pub struct Feature {
    name: [u8; 4],
}

impl Model for Feature {
    ghost use Rattle.std.specs.Prelude.{ℕ, List};

    ghost Value = { List ℕ };

    ghost view = { λ feature. feature.name };

    ghost inverse = { λ name. record { name = name } };
}

impl Feature {
    /// Gives BASE, the protocol itself, without which nobody can talk to the hub.
    pub fn base() -> Feature
        ensures { result ≡ base }
    {
        Feature { name: *b"BASE" }
    }

    /// Gives TIGR, the hash of the session.
    pub fn tigr() -> Feature
        ensures { result ≡ tigr }
    {
        Feature { name: *b"TIGR" }
    }

    /// Gives PING: the hub tells about itself at once (ADC-EXT, "PING").
    pub fn ping() -> Feature
        ensures { result ≡ ping }
    {
        Feature { name: *b"PING" }
    }

    /// Gives UCMD: the hub offers commands in the client's menus (ADC-EXT, "UCMD").
    pub fn ucmd() -> Feature
        ensures { result ≡ ucmd }
    {
        Feature { name: *b"UCMD" }
    }

    /// Gives the feature of a name, a letter A to Z and three letters or digits, where it is one. `BAS0` and `UCM0` are
    /// early names of BASE and UCMD.
    #[tactic(auto, unfolding(crate::specs::Mentions::feature_named))]
    pub fn of_name(name: [u8; 4]) -> Option<Feature>
        ensures { result ≡ feature_named name }
    {
        if !is_feature_name(&name) {
            return None;
        }
        if name == *b"BAS0" {
            return Some(Feature::base());
        }
        if name == *b"UCM0" {
            return Some(Feature::ucmd());
        }
        Some(Feature { name })
    }

    /// Gives the four characters of its name.
    pub fn name(self) -> [u8; 4]
        ensures { result ≡ self }
    {
        self.name
    }
}

/// A word of a SUP, read.
#[derive(Clone, Copy)]
pub enum Mention {
    /// `AD`: the client supports it.
    Adds(Feature),
    /// `RM`: the client supports it no more.
    Removes(Feature),
}

/// Reads a word: `AD` or `RM`, and a feature's name.
pub(crate) fn mention_at(word: &[u8]) -> Option<Mention>
    ensures { result ≡ mention_at word.now }
{
    read_mention(word)
}

fn read_mention(word: &[u8]) -> Option<Mention>
    ensures { result ≡ read_mention word.now }
{
    let [first, second, a, b, c, d] = word else {
        return None;
    };
    let feature = Feature::of_name([*a, *b, *c, *d])?;
    mention_of(*first, *second, feature)
}

#[tactic(auto, unfolding(crate::specs::Signs::mention_with_sign))]
fn mention_of(first: u8, second: u8, feature: Feature) -> Option<Mention>
    ensures { result ≡ mention_with_sign first second feature }
{
    match (first, second) {
        (b'A', b'D') => Some(Mention::Adds(feature)),
        (b'R', b'M') => Some(Mention::Removes(feature)),
        _ => None,
    }
}
