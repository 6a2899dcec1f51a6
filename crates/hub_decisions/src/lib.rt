//! The decisions on lines: what each leads to, before anything is changed.
#![tactic(auto)]

mod act;
mod agreement;
mod decision;
mod denial;
mod effect;
mod entering;
mod field_values;
mod grounds;
mod hub_facts;
mod lines;
mod login;
mod message;
mod nick_words;
mod password;
mod present;
mod sender_facts;
mod sup;
mod update;

pub use agreement::checks_agree;
pub use decision::decide;
pub use hub_facts::HubFacts;
pub use lines::PresentLines;
pub use sender_facts::SenderFacts;
