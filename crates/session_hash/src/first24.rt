ghost use Rattle.std.specs.Prelude.{◌≡◌};
ghost use Rattle.session_hash.specs.First24.{first_24};

use crate::SessionHash;

/// A stand-in for a hash, which is none: the first 24 bytes, filled up with zeros. For tests and
/// worked examples; it keeps no secret, so no hub that strangers reach may use it.
#[derive(Clone, Copy, Default, PartialEq, Eq)]
pub struct First24;

impl SessionHash for First24 {
    ghost digest_of = { λ _ bytes. first_24 bytes };

    fn digest(&self, bytes: &[u8]) -> [u8; 24] {
        let mut digest = [0; 24];
        let length = bytes.len().min(24);
        digest[..length].copy_from_slice(&bytes[..length]);
        digest
    }
}
