//! Worked conversations with the hub: short histories from its opening on, and what they come to, byte for byte.
#![tactic(auto)]

mod worked_conversations;

pub use worked_conversations::{
    worked_chats, worked_identifiers, worked_logins, worked_messages, worked_operators,
    worked_passwords, worked_questions,
};
