//! The rules of who may do what when in an ADC hub, and what they are told when they may not.
#![tactic(auto)]

mod asks;
mod checks;
mod deny;
mod fault;
mod feature;
mod features;
mod findings;
mod named_field;
mod request;
mod rules;
mod stage;

pub use asks::{EntryAsk, InfAsk, UpdateAsk};
pub use checks::{Check, check_entry, check_inf, check_pass, check_sup, check_update};
pub use deny::{Deny, Severity};
pub use fault::SupFault;
pub use feature::Feature;
pub use features::Features;
pub use findings::{Account, Address, Admission, Ban, Claim, Identity, Required, Size, Validity};
pub use named_field::{CHECKED, CHECKED_FIELDS, NamedField};
pub use request::Request;
pub use stage::Stage;
