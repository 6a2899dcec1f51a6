// A clock that stands where a conversation has set it.
use crate::machine::*;
use std::marker::PhantomData;
use std::sync::atomic::{AtomicU64, Ordering};

/// A clock that stands until it is set, for code that may wait as the runtime `R` may.
#[derive(Drop)]
pub(crate) struct StillClock<R> {
    seconds: AtomicU64,
    of: PhantomData<R>,
}

impl<R> StillClock<R> {
    /// Makes a clock that stands at 0.
    pub(crate) fn new() -> StillClock<R> {
        StillClock {
            seconds: AtomicU64::new(0),
            of: PhantomData,
        }
    }

    /// Sets the clock to so many seconds.
    pub(crate) fn set(&self, seconds: u64) {
        self.seconds.store(seconds, Ordering::SeqCst);
    }

    /// Gives the seconds at which it stands.
    pub(crate) fn seconds(&self) -> u64 {
        self.seconds.load(Ordering::SeqCst)
    }
}

impl<R: Wait> Wait for StillClock<R> {}

impl<R> Clock for StillClock<R> {
    fn monotonic(&self) -> io::Result<Duration> {
        Ok(Duration::from_secs(self.seconds()))
    }

    fn since_1970(&self) -> io::Result<Duration> {
        Ok(Duration::from_secs(self.seconds()))
    }
}
