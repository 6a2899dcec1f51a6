//! Worked conversations over one connection: tests alone.
#![tactic(auto)]

#[cfg(test)]
mod challenges;
#[cfg(test)]
mod checks;
#[cfg(test)]
mod sessions;
#[cfg(test)]
mod streams;
#[cfg(test)]
mod writes;
