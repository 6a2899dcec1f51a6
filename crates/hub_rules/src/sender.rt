ghost use Rattle.std.specs.Prelude.{◌≡◌};
ghost use Rattle.hub_rules.specs.Senders.{is_removal, notes_by, new_sender};

use adc_base32::Sid;
use login_state::Features;
use std::alloc::Global;

/// A change of the connection of a user who is present, by an operator.
#[derive(Clone, Copy)]
pub enum SeatChange {
    /// The removal of the user: the connection is shut out.
    Gone,
}

impl SeatChange {
    /// Answers whether it shuts the connection out.
    pub fn is_removal(self) -> bool
        ensures { result ≡ is_removal self }
    {
        match self {
            SeatChange::Gone => true,
        }
    }
}

/// What is noted of a connection, for decisions on its later lines.
#[derive(Clone, Copy)]
pub struct Notes {
    /// The moment of its last search that went out, in seconds.
    pub searched: Option<u64>,
}

impl Notes {
    /// Notes the change of the connection that an operator asked for.
    pub fn change(&mut self, change: SeatChange)
        ensures { self.new ≡ notes_by change self.old }
    {
        match change {
            SeatChange::Gone => {}
        }
    }
}

/// The plain fields of a connection: what is kept of it beside how far it has come. A decision reads them of the connection
/// that sent the line.
#[derive(Drop)]
pub struct Sender {
    /// The session identifier of the connection.
    pub sid: Sid,
    /// The address of its peer.
    pub peer: [u8; 4],
    /// The challenge with which its password is hashed.
    pub challenge: [u8; 24],
    /// The features that its client supports.
    pub features: Features,
    /// What was noted of its lines and by operators.
    pub notes: Notes,
}

impl Sender {
    /// Creates the fields of a connection that has just joined: its client has named no feature and has not searched.
    pub fn new(alloc: Global, sid: Sid, peer: [u8; 4], challenge: [u8; 24]) -> Sender
        ensures { result ≡ new_sender sid peer challenge }
    {
        Sender {
            sid,
            peer,
            challenge,
            features: Features::new(alloc),
            notes: Notes { searched: None },
        }
    }
}
