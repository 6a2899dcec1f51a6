ghost use Rattle.std.specs.Prelude.{◌≡◌, ℕ, List, length, IfSome, IfNone};
ghost use Rattle.adc_base32.specs.Bits.{IsBase32};
ghost use Rattle.adc_base32.specs.Spelled.{spelled_bytes, spelling};

use adc_base32::{decode24, encode24};
use std::marker::Model;

/// A client identifier: the 24 bytes by which users know one another (ADC 1.0, "Client identification").
#[derive(Clone, Copy, Debug, PartialEq, Eq, PartialOrd, Ord)]
pub struct Cid {
    bytes: [u8; 24],
}

impl Model for Cid {
    ghost Value = { List ℕ };

    ghost view = { λ cid. cid.bytes };

    ghost inverse = { λ bytes. record { bytes = bytes } };
}

impl Cid {
    /// Makes the identifier with these bytes.
    pub fn from_bytes(bytes: [u8; 24]) -> Cid
        ensures { result ≡ bytes }
    {
        Cid { bytes }
    }

    /// Gives its 24 bytes.
    pub fn bytes(&self) -> [u8; 24]
        ensures { result ≡ self.now }
    {
        self.bytes
    }

    /// Reads the identifier that 39 base32 digits spell. `None` where the text spells no 24 bytes: it has another length, a
    /// character that is no digit, or unused low bits that are not zero.
    pub fn parse(text: &[u8]) -> Option<Cid>
        ensures spelt { IfSome result (λ cid. IsBase32 text.now cid) }
        ensures exact { result ≡ spelled_bytes 24 text.now }
        ensures only { IfNone result ((bytes : List ℕ) → length bytes ≡ 24 → IsBase32 text.now bytes → ⊥) }
    {
        match decode24(text) {
            Ok(bytes) => Some(Cid { bytes }),
            Err(_) => None,
        }
    }

    /// Gives its 39 base32 digits.
    pub fn text(&self) -> [u8; 39]
        ensures spelt { IsBase32 result self.now }
        ensures only { (other : List ℕ) → IsBase32 other self.now → other ≡ result }
        ensures exact { result ≡ spelling self.now }
    {
        encode24(&self.bytes)
    }
}
