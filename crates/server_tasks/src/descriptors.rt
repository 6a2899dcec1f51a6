//! The descriptors that a server needs.

ghost use Rattle.std.specs.Prelude.{◌≡◌, ◌+◌};

/// The number of descriptors that are needed beside those of the connections: for sockets that linger or are refused, the
/// listener, the runtime, the standard streams and files that are read.
const BESIDE: u64 = 32;

/// Counts the descriptors that a server of so many users needs.
pub fn descriptors_needed(users: u32) -> u64
    ensures { result ≡ users + 32 }
{
    u64::from(users) + BESIDE
}
