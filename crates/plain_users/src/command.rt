use adc_base32::Sid;
use adc_ids::{Cid, Nick};
use inf_fields::Update;
use user_table::{TableRefused, Totals, User};

/// A call on the users who are present, with what it is given: see [`Users`](crate::Users).
#[derive(Drop)]
pub enum Command {
    /// Puts a user behind the others.
    Insert(User),
    /// Takes out the user with a session identifier.
    Remove(Sid),
    /// Merges an update into the fields of the user with a session identifier, and gives a new nick
    /// where there is one.
    MergeInfo(Sid, Update, Option<Nick>),
    /// Looks for a session identifier.
    BySid(Sid),
    /// Looks for a client identifier.
    ByCid(Cid),
    /// Looks for the key of a nick, which is what `Nick::key` gives.
    ByNick(String),
    /// Looks for a place in the order of entry, from 0.
    At(usize),
    /// Asks how many users are present, and what they share together.
    Count,
}

/// The answer to a [`Command`].
#[derive(Clone, Copy, PartialEq, Eq)]
pub enum CommandAnswer {
    /// The command was not made, since its condition did not hold.
    Skipped,
    /// The user was put in or updated.
    Done,
    /// The user was not put in or not updated.
    Refused(TableRefused),
    /// The session identifier of the user who was found or taken out.
    Found(Option<Sid>),
    /// The count of users who are present, and what they share together.
    Counted(Totals),
}
