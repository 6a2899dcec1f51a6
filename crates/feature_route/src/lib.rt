//! The users who hear a message: all, one, two, or those who have certain features.
#![tactic(auto)]

mod feature_set;
mod features;
mod receivers;
mod routing;
mod su;
mod want;

pub use feature_set::FeatureSet;
pub use receivers::Audience;
pub use routing::audience;
pub use want::Want;
