//! The invariants of the hub's rules: what holds after every call, and so of every history. Lemmas alone, for the crates that keep a hub.
#![tactic(auto)]
