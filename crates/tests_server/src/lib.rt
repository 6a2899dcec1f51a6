//! Worked conversations with a server, over sockets and over memory, and what the program makes of its command line: tests alone.
#![tactic(auto)]

#[cfg(test)]
mod client;
#[cfg(test)]
mod conversation;
#[cfg(test)]
mod flaky;
#[cfg(test)]
mod gate;
#[cfg(test)]
mod histories;
#[cfg(test)]
mod in_memory;
#[cfg(test)]
mod lingering;
#[cfg(test)]
mod listening;
#[cfg(test)]
mod machine;
#[cfg(test)]
mod over_memory;
#[cfg(test)]
mod program;
#[cfg(test)]
mod resting;
#[cfg(test)]
mod run;
#[cfg(test)]
mod scenes;
#[cfg(test)]
mod sessions;
#[cfg(test)]
mod slots;
#[cfg(test)]
mod warnings;
