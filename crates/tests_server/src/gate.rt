// A hash whose digests can be held up.
use session_hash::{First24, SessionHash};
use std::sync::atomic::{AtomicBool, Ordering};
use std::thread::yield_now;

/// The number of times that a digest looks whether it may end.
const TURNS: u32 = 1_000_000_000;

/// A hash that means what `First24` does, and whose digests wait until the gate is open.
#[derive(Drop)]
pub struct GateHash {
    has_begun: AtomicBool,
    may_end: AtomicBool,
    gave_up: AtomicBool,
}

impl SessionHash for GateHash {
    ghost use Rattle.session_hash.specs.First24.{first_24};

    ghost digest_of = { λ _ bytes. first_24 bytes };

    fn digest(&self, bytes: &[u8]) -> [u8; 24] {
        self.has_begun.store(true, Ordering::SeqCst);
        if !becomes_true(&self.may_end) {
            self.gave_up.store(true, Ordering::SeqCst);
        }
        First24.digest(bytes)
    }
}

impl GateHash {
    /// Makes a gate that is open at first, or is not.
    pub fn new(is_open: bool) -> GateHash {
        GateHash {
            has_begun: AtomicBool::new(false),
            may_end: AtomicBool::new(is_open),
            gave_up: AtomicBool::new(false),
        }
    }

    /// Lets all digests end.
    pub fn open(&self) {
        self.may_end.store(true, Ordering::SeqCst);
    }

    /// Answers whether a digest waited to its limit.
    pub fn gave_up(&self) -> bool {
        self.gave_up.load(Ordering::SeqCst)
    }

    /// Waits until a digest has begun.
    pub fn begins(&self) -> Option<()> {
        becomes_true(&self.has_begun).then_some(())
    }
}

/// Waits until a flag is set, to its limit.
fn becomes_true(flag: &AtomicBool) -> bool {
    for _turn in 0..TURNS {
        if flag.load(Ordering::SeqCst) {
            return true;
        }
        yield_now();
    }
    false
}
