//! The settings of a hub, as an operator's file says them.
#![tactic(auto)]

mod account_list;
mod command_list;
mod fault;
mod hash_name;
mod keys;
mod kinds;
mod plain_keys;
mod reading;
mod settings;
mod unknown;
mod values;

pub use fault::{KeyName, SettingsFault};
pub use hash_name::HashName;
pub use keys::{KEYS, kind_of};
pub use kinds::SettingKind;
pub use reading::read_settings;
pub use settings::Settings;
