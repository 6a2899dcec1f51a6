//! Whether somebody is behind, as every sender may see without a lock.
use std::sync::atomic::{AtomicBool, Ordering};

/// The word that nobody was seen to be behind.
#[derive(Drop)]
pub struct NobodyBehind(());

/// Somebody is behind, so that senders ask before each line.
#[derive(Drop)]
pub(crate) struct Behind {
    is_some: AtomicBool,
}

impl Behind {
    /// Nobody is behind.
    pub(crate) fn nobody() -> Behind {
        Behind {
            is_some: AtomicBool::new(false),
        }
    }

    /// Notes that somebody is behind, or nobody.
    pub(crate) fn note(&self, is_some: bool) {
        self.is_some.store(is_some, Ordering::SeqCst);
    }

    /// Gives the word that nobody is behind, unless somebody is.
    pub(crate) fn look(&self) -> Option<NobodyBehind> {
        if self.is_some.load(Ordering::SeqCst) {
            None
        } else {
            Some(NobodyBehind(()))
        }
    }
}
