//! A report on a settings file: a summary, or its fault with the place, what stands there and what is allowed.
#![tactic(auto)]

mod allowed;
mod entries;
mod fault;
mod findings;
mod menu_texts;
mod places;
mod report;
mod statements;
mod summary;
mod warnings;

pub use allowed::Allowed;
pub use fault::ReportedFault;
pub use menu_texts::TextFlaw;
pub use places::TextPlace;
pub use report::{SettingsReport, report_file, report_settings};
pub use summary::Summary;
pub use warnings::SettingsWarning;
