//! Decides whether a written history of a hub is legal: whether each reply in it is what the rules give at that point.
#![tactic(auto)]

mod check;
mod entries;
mod escapes;
mod laws;
mod reading;
mod report;
mod words;
mod written;

pub use check::{Demand, Judgement, check_history};
pub use hub_core::Verdict;
pub use laws::{judging_laws, text_laws};
pub use reading::{ReadFault, Written, read_history};
pub use report::report_history;
pub use written::{LineCount, WrittenCall, WrittenEntry, WrittenReply};
