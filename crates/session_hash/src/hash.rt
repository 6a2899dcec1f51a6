ghost use Rattle.std.specs.Prelude.{◌≡◌, ℕ, List, length};

/// A session hash (ADC-EXT, "TIGR"): what turns a client's PID into its CID, and a password with a
/// challenge into the answer that a client must give.
pub trait SessionHash {
    /// The digest of some bytes, for the value of the hash.
    ghost digest_of: { Self → List ℕ → List ℕ };

    /// Makes the 24 bytes of the digest. Takes no memory.
    fn digest(&self, bytes: &[u8]) -> [u8; 24]
        ensures { result ≡ digest_of self.now bytes.now };
}
