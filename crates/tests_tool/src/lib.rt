//! Wrong settings with what is said of each, and conversations of a client over memory: tests alone.
#![tactic(auto)]

#[cfg(test)]
mod addresses;
#[cfg(test)]
mod conversations;
#[cfg(test)]
mod memory;
#[cfg(test)]
mod messages;
#[cfg(test)]
mod wrong_lists;
#[cfg(test)]
mod wrong_settings;
