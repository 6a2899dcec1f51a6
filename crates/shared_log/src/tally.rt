ghost use Rattle.std.specs.Prelude.{◌≡◌, length};
ghost use Rattle.outboxes.specs.Backlogs.{Backlog, backlog_after, empty_backlog, size_of};
ghost use Rattle.shared_log.specs.Entries.{entry_lines};
ghost use Rattle.shared_log.specs.Tallies.{IsTally, grown};

use crate::entry::LogEntry;
use outboxes::Outbox;

/// How many lines wait for a connection, how many bytes they have, and whether it lags; and what may wait.
#[derive(Drop)]
pub struct Tally {
    pub(crate) lines: usize,
    pub(crate) bytes: usize,
    pub(crate) lags: bool,
    pub(crate) cap: usize,
    pub(crate) limit: usize,
}

impl Tally {
    /// Counts what waits in an outbox.
    pub(crate) fn of(own: &Outbox) -> Tally
        ensures { IsTally own.now result }
    {
        let (cap, limit) = own.limits();
        Tally {
            lines: own.waiting() as usize,
            bytes: own.bytes(),
            lags: own.lagging(),
            cap,
            limit,
        }
    }

    /// Counts where nothing waits, of at most so many lines and bytes.
    pub(crate) fn of_nothing(cap: usize, bytes: usize) -> Tally
        ensures { IsTally (empty_backlog cap bytes) result }
    {
        Tally {
            lines: 0,
            bytes: 0,
            lags: false,
            cap,
            limit: bytes,
        }
    }

    /// Counts in what an entry gives.
    pub(crate) fn add(&mut self, entry: &LogEntry)
        ensures { (b : Backlog) → IsTally b self.old → IsTally (backlog_after b (entry_lines entry.now)) self.new }
    {
        if self.lags {
            return;
        }
        match self.grown(entry) {
            Some(grown) => *self = grown,
            None => self.lags = true,
        }
    }

    /// Counts what waits if an entry is given; `None` where it does not fit.
    fn grown(&self, entry: &LogEntry) -> Option<Tally>
        ensures { result ≡ grown self.now (length (entry_lines entry.now)) (size_of (entry_lines entry.now)) }
    {
        let lines = self.lines.checked_add(entry.count())?;
        if lines > self.cap {
            return None;
        }
        let room = self.limit.checked_sub(self.bytes)?;
        let size = entry.size_within(room)?;
        Some(Tally {
            lines,
            bytes: self.bytes + size,
            lags: self.lags,
            cap: self.cap,
            limit: self.limit,
        })
    }
}
