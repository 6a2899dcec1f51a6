ghost use Rattle.std.specs.Prelude.{◌≡◌, ℕ, List, length, IfSome, IfNone};
ghost use Rattle.adc_base32.specs.Bits.{IsBase32};
ghost use Rattle.adc_base32.specs.Spelled.{spelled_bytes};

use adc_base32::decode24;
use std::marker::Model;

/// A private identifier: the 24 bytes whose hash is the client identifier (ADC 1.0, "Client identification").
#[derive(Clone, Copy, Debug, PartialEq, Eq)]
pub struct Pid {
    bytes: [u8; 24],
}

impl Model for Pid {
    ghost Value = { List ℕ };

    ghost view = { λ pid. pid.bytes };

    ghost inverse = { λ bytes. record { bytes = bytes } };
}

impl Pid {
    /// Gives its 24 bytes.
    pub fn bytes(&self) -> [u8; 24]
        ensures { result ≡ self.now }
    {
        self.bytes
    }

    /// Reads the identifier that 39 base32 digits spell. `None` where the text spells no 24 bytes: it has another length, a
    /// character that is no digit, or unused low bits that are not zero.
    pub fn parse(text: &[u8]) -> Option<Pid>
        ensures spelt { IfSome result (λ pid. IsBase32 text.now pid) }
        ensures exact { result ≡ spelled_bytes 24 text.now }
        ensures only { IfNone result ((bytes : List ℕ) → length bytes ≡ 24 → IsBase32 text.now bytes → ⊥) }
    {
        match decode24(text) {
            Ok(bytes) => Some(Pid { bytes }),
            Err(_) => None,
        }
    }
}
