//! Worked conversations with the hub, played by tests: what goes over the wire, line by line.
#![tactic(auto)]

#[cfg(test)]
mod bans;
#[cfg(test)]
mod capacity;
#[cfg(test)]
mod chat;
#[cfg(test)]
mod concerned;
#[cfg(test)]
mod conversation;
#[cfg(test)]
mod first_words;
#[cfg(test)]
mod histories;
#[cfg(test)]
mod hub;
#[cfg(test)]
mod limits;
#[cfg(test)]
mod lists;
#[cfg(test)]
mod lock;
#[cfg(test)]
mod login;
#[cfg(test)]
mod operators;
#[cfg(test)]
mod outbox;
#[cfg(test)]
mod passwords;
#[cfg(test)]
mod refusal;
#[cfg(test)]
mod refused;
#[cfg(test)]
mod routing;
#[cfg(test)]
mod searches;
#[cfg(test)]
mod settings;
#[cfg(test)]
mod shared;
#[cfg(test)]
mod stops;
#[cfg(test)]
mod updates;
