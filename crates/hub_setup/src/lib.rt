//! The setup of a hub, the lines that are made ready before its turn, and the messages that it writes.
#![tactic(auto)]

mod accounts;
mod inf;
mod menu;
mod options;
mod preparation;
mod refused;
mod setup;
mod texts;
mod user_texts;

pub use accounts::{Accounts, Registered};
pub use hub_rules::PlainOptions;
pub use inf::Inf;
pub use menu::Menu;
pub use options::{
    Account, DEFAULT_USERS, MOST_ACCOUNTS, MOST_COMMANDS, MOST_USERS, MenuEntry, MenuItem, Options,
};
pub use preparation::{Prepared, Says, prepare};
pub use refused::{ListRefused, SetupRefused};
pub use setup::Setup;
pub use texts::{
    challenge_line, denial_line, done_line, hub_line, identifier_line, passed_line, ping_fields,
    support_line, topic_line,
};
pub use user_texts::{removal_line, update_line, user_line};
