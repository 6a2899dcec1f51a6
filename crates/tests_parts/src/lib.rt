//! Worked values of the parts of a hub, which tests compare with what the parts give; and each public call that takes memory, refused it once.
#![tactic(auto)]

#[cfg(test)]
mod acts;
#[cfg(test)]
mod base32;
#[cfg(test)]
mod fields;
#[cfg(test)]
mod hashes;
#[cfg(test)]
mod identities;
#[cfg(test)]
mod lines;
#[cfg(test)]
mod logins;
#[cfg(test)]
mod logs;
#[cfg(test)]
mod queues;
#[cfg(test)]
mod refused;
#[cfg(test)]
mod routing;
#[cfg(test)]
mod rows;
#[cfg(test)]
mod searches;
#[cfg(test)]
mod settings_files;
#[cfg(test)]
mod setups;
#[cfg(test)]
mod steps;
#[cfg(test)]
mod users;
