ghost use Rattle.std.specs.Prelude.{◌≡◌, IfOk};

use crate::sender::SeatChange;
use adc_base32::Sid;
use adc_ids::{Cid, Nick};
use feature_route::{Audience, FeatureSet};
use inf_fields::Update;
use login_state::Features;
use operator_acts::Ban;
use outboxes::Batch;
use std::alloc::{AllocError, Global};
use std::marker::Model;
use user_table::User;

/// A user who is about to enter.
#[derive(Drop)]
pub struct Entrant {
    /// The part of it that the other users will know.
    pub user: User,
    /// The features that its field SU names.
    pub support: FeatureSet,
}

/// The new fields of a user who is present.
#[derive(Drop)]
pub struct Revision {
    /// The fields that change.
    pub update: Update,
    /// The nick, where the update has one.
    pub nick: Option<Nick>,
    /// The features that the field SU names afterwards.
    pub support: FeatureSet,
}

/// A change of the connection that sent a line.
#[derive(Drop)]
pub enum SenderChange {
    /// The first SUP: the client said what it supports, and may log in.
    Greets(Features),
    /// The wait for a password: the user may enter once it gives this digest.
    Waits(Entrant, [u8; 24]),
    /// The entry of the user for whose password the hub waited.
    Enters,
    /// The entry of this user.
    EntersAs(Entrant),
    /// The support of other features.
    Learns(Features),
    /// The fields of its user change.
    Updates(Revision),
    /// A search goes out at this moment, in seconds.
    Searches(u64),
    /// The removal of the connection: it is shut out.
    Falls,
}

/// A user whom an operator shuts out for a time.
#[derive(Drop)]
pub struct Banned {
    /// The session identifier.
    pub sid: Sid,
    /// The client identifier, which is shut out.
    pub cid: Cid,
    /// The ban on that identifier.
    pub ban: Ban,
}

/// The hub's topic.
#[derive(Drop)]
pub struct Topic {
    text: String,
}

impl Model for Topic {
    ghost use Rattle.std.specs.Prelude.{ℕ, List};
    ghost use Rattle.std.specs.String.{string_bytes};

    ghost Value = { List ℕ };

    ghost view = { λ topic. string_bytes topic.text };
}

impl Topic {
    /// Makes a topic of this text, which may be empty. Refused only where memory runs out.
    pub fn new(alloc: Global, text: &str) -> Result<Topic, AllocError>
        ensures { IfOk result (λ topic. topic ≡ text.now) }
    {
        Ok(Topic {
            text: String::from_str(alloc, text)?,
        })
    }

    /// Gives the text, unescaped.
    pub fn as_str(&self) -> &str
        ensures { result.now ≡ self.now }
    {
        self.text.as_str()
    }
}

/// A change of one user's connection or of what all connections share, by an operator.
#[derive(Drop)]
pub enum HubChange {
    /// The connection of the user with this session identifier changes.
    At(Sid, SeatChange),
    /// The removal of this user, and of whoever comes with its identifier.
    Ban(Banned),
    /// The end of a ban: this identifier is let in again.
    Unban(Cid),
    /// The topic is another.
    Topic(Topic),
}

/// The one thing that a line changes.
#[derive(Drop)]
pub enum Change {
    /// No change.
    Nothing,
    /// The connection that sent the line changes.
    Sender(SenderChange),
    /// The hub itself changes, for all connections.
    Hub(HubChange),
}

/// The users, of those who are present, who hear what is said to them all.
#[derive(Drop)]
pub enum Hearers<'a> {
    /// All but the connection that sent the line.
    Others,
    /// The users for whom the message is.
    Those(Audience<'a>),
}

/// The effect of a line: what it leads to, before anything is changed.
#[derive(Drop)]
pub struct Effect<'a> {
    /// The messages for the connection that sent the line, after those that it hears with others.
    pub own: Batch,
    /// The messages for users who are present.
    pub others: Batch,
    /// The users who hear it.
    pub hearers: Hearers<'a>,
    /// The change.
    pub change: Change,
}
