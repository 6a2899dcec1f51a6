ghost use Rattle.std.specs.Prelude.{◌≡◌, ◌↔◌, IsOk, IsSome};

use crate::queued_line::QueuedLine;
use crossbeam_channel::TrySendError;
use std::marker::Model;
use std::sync::atomic::{AtomicU64, Ordering};

/// What became of a line that ended: it is in the queue, or it is counted as dropped.
#[derive(Drop)]
pub(crate) enum Outcome {
    Sent(Sent),
    Dropped(Counted),
}

/// The word that a line is in the queue. Only a call that put one there gives it.
#[derive(Drop)]
pub(crate) struct Sent(());

impl Sent {
    /// Gives the word, where this call put its line there.
    pub(crate) fn by(call: Result<(), TrySendError<QueuedLine>>) -> Option<Sent>
        ensures { IsSome result ↔ IsOk call }
    {
        match call {
            Ok(()) => Some(Sent(())),
            Err(_) => None,
        }
    }
}

/// The word that lines were counted as dropped. Only who counts gives it. Contracts see how many.
#[derive(Drop)]
pub(crate) struct Counted {
    lines: u64,
}

impl Model for Counted {
    ghost use Rattle.std.specs.Prelude.{ℕ};

    ghost Value = { ℕ };

    ghost view = { λ counted. counted.lines };
}

impl Counted {
    /// Counts so many lines more.
    pub(crate) fn add(counter: &AtomicU64, lines: u64) -> Counted
        ensures { result ≡ lines }
    {
        counter.fetch_add(lines, Ordering::SeqCst);
        Counted { lines }
    }
}
