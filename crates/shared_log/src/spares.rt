ghost use Rattle.std.specs.Prelude.{◌≡◌, true, IfOk};
ghost use Rattle.outboxes.specs.Backlogs.{empty_backlog};

use outboxes::Outbox;
use std::alloc::{AllocError, Global};

/// The most outboxes that are kept, 16 KB each: for so many sessions a line for one alone costs no allocation.
const MOST: usize = 32;

/// Outboxes in which nothing waits, for the next connections that are given lines of their own.
#[derive(Drop)]
pub struct Spares {
    alloc: Global,
    outboxes: Vec<Outbox>,
}

impl Spares {
    /// Makes room for them.
    ///
    /// `AllocError` where memory runs out.
    pub(crate) fn new(alloc: Global) -> Result<Spares, AllocError> {
        Ok(Spares {
            alloc,
            outboxes: Vec::with_capacity(alloc, MOST)?,
        })
    }

    /// Gives an empty outbox for at most `cap` lines and `bytes` bytes: one that was kept, or a new one.
    ///
    /// `AllocError` where memory runs out.
    pub(crate) fn take(&mut self, cap: usize, bytes: usize) -> Result<Outbox, AllocError>
        ensures { IfOk result (λ outbox. outbox ≡ empty_backlog cap bytes) }
    {
        if let Some(outbox) = self.outboxes.pop()
            && is_empty(&outbox, cap, bytes)
        {
            return Ok(outbox);
        }
        match Outbox::new(self.alloc, cap, bytes) {
            Ok(outbox) => Ok(outbox),
            Err(_) => Err(AllocError),
        }
    }

    /// Keeps an outbox, or lets it go where there are enough. It takes no memory.
    pub(crate) fn keep(&mut self, outbox: Outbox) {
        if self.outboxes.len() < MOST {
            let _ = self.outboxes.push(outbox);
        } else {
            drop(outbox);
        }
    }
}

/// Answers whether nothing waits in an outbox of these limits, and nothing was too much.
fn is_empty(outbox: &Outbox, cap: usize, bytes: usize) -> bool
    ensures { result ≡ true → outbox.now ≡ empty_backlog cap bytes }
{
    let (lines, room) = outbox.limits();
    outbox.waiting() == 0 && !outbox.lagging() && lines == cap && room == bytes
}
