ghost use Rattle.std.specs.Prelude.{◌≡◌, ℕ, List};
ghost use Rattle.feature_route.specs.Matching.{feature_set};
ghost use Rattle.feature_route.specs.Audiences.{holds, holds_words};

use crate::feature_set::FeatureSet;
use crate::want::Want;
use adc_base32::Sid;

/// The audience of a message: those for whom it is, among the users who are present. It borrows the message's feature word.
#[derive(Drop)]
pub enum Audience<'a> {
    /// All of them.
    All,
    /// The user with this identifier.
    One(Sid),
    /// The users with these two identifiers, which differ.
    Two(Sid, Sid),
    /// All whose features are as wanted.
    Having(Want<'a>),
    /// No user.
    Nobody,
}

impl<'a> Audience<'a> {
    /// Tests whether a message is for the user with this identifier and this text of the field SU, which is
    /// empty for a user without that field (ADC 1.0, "INF").
    #[tactic(auto, unfolding(crate::specs::Audiences::holds_words))]
    pub fn holds(&self, sid: Sid, su: &str) -> bool
        ensures { result ≡ holds self.now sid su.now }
    {
        match self {
            Audience::All => true,
            Audience::One(one) => *one == sid,
            Audience::Two(one, other) => *one == sid || *other == sid,
            Audience::Having(want) => want.matches(su),
            Audience::Nobody => false,
        }
    }

    /// Tests whether a message is for the user with this identifier and these features, as
    /// [`Audience::holds`] says of the text that they were read from.
    #[tactic(auto, unfolding(crate::specs::Audiences::holds_words))]
    pub fn holds_set(&self, sid: Sid, set: &FeatureSet) -> bool
        ensures exact { result ≡ holds_words self.now sid set.now }
        ensures text { (su : List ℕ) → set.now ≡ feature_set su → result ≡ holds self.now sid su }
    {
        match self {
            Audience::All => true,
            Audience::One(one) => *one == sid,
            Audience::Two(one, other) => *one == sid || *other == sid,
            Audience::Having(want) => want.matches_set(set),
            Audience::Nobody => false,
        }
    }
}
