//! Base32 text as ADC writes it: bytes and session identifiers.
#![tactic(auto)]

mod decoding;
mod encoding;
mod fault;
mod laws;
mod sid;
mod window;

pub use decoding::{decode, decode24};
pub use encoding::{encode, encode24};
pub use fault::B32;
pub use laws::codec_laws;
pub use sid::Sid;
