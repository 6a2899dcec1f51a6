//! The fields that INF messages say of a user: updates, their merge, and what may be passed on of them.
#![tactic(auto)]

mod address;
mod amount;
mod entries;
mod fault;
mod fields;
mod laws;
mod name;
mod parameter;
mod update;

pub use address::dotted_decimal;
pub use amount::{is_bad_number, shared_amount};
pub use fault::InfFault;
pub use fields::Fields;
pub use laws::merging_laws;
pub use name::FieldName;
pub use update::Update;
