//! Messages of the ADC protocol: lines, the escapes of their words, and the cut of a stream into lines.
#![tactic(auto)]

mod escaping;
mod fault;
mod feature_word;
mod framer;
mod header;
mod line;
mod stream;
mod words;

pub use escaping::{escape, unescape};
pub use fault::{FrameFault, LineFault, UnescapeFault};
pub use feature_word::{is_feature_name, is_feature_word};
pub use framer::{Framer, Next};
pub use header::Kind;
pub use line::Line;
pub use stream::stream_laws;
pub use words::Words;
