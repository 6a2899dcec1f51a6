ghost use Rattle.std.specs.Prelude.{◌≡◌, ◌<◌, ◌≤◌, ◌++◌, true, length, IfNone, IfSome, OnErr, OnOk};
ghost use Rattle.std.specs.List.{concat};
ghost use Rattle.outboxes.specs.Backlogs.{backlog_after, size_of};
ghost use Rattle.shared_log.specs.Entries.{entry_lines};
ghost use Rattle.shared_log.specs.OwnLines.{own_with};

use crate::own_lines::OwnLines;
use adc_base32::Sid;
use outboxes::{Batch, quit_line};
use std::alloc::AllocError;

// "IQUI ", four digits and a line feed.
const QUIT_BYTES: usize = 10;

/// What one call gave to all members.
#[derive(Drop)]
pub enum LogEntry {
    /// The lines of a batch.
    Lines(Batch),
    /// The news that this user has left.
    Quit(Sid),
}

impl LogEntry {
    /// Gives another handle of its lines to a connection that has an outbox.
    pub(crate) fn give_to(&self, own: &mut OwnLines) -> Result<(), AllocError>
        requires { own.old.is_kept ≡ true }
        ensures ok { OnOk result (own.new ≡ own_with (backlog_after own.old.backlog (entry_lines self.now)) own.old) }
        ensures err { OnErr result (own.new ≡ own.old) }
    {
        match self {
            LogEntry::Lines(batch) => own.give(batch.share()?),
            LogEntry::Quit(sid) => own.give_quit(*sid),
        }
        Ok(())
    }

    /// Appends its lines.
    pub(crate) fn write(&self, out: &mut Vec<u8>) -> Result<(), AllocError>
        ensures ok { OnOk result (out.new.items ≡ out.old.items ++ concat (entry_lines self.now)) }
        ensures err { OnErr result (out.new.items ≡ out.old.items) }
    {
        match self {
            LogEntry::Lines(batch) => batch.write(out),
            LogEntry::Quit(sid) => out.extend_from_slice(&quit_line(*sid)),
        }
    }

    /// Counts its lines.
    pub(crate) fn count(&self) -> usize
        ensures { result ≡ length (entry_lines self.now) }
    {
        match self {
            LogEntry::Lines(batch) => batch.count(),
            LogEntry::Quit(_) => 1,
        }
    }

    /// Counts the bytes of its lines, where these are no more than there is room for.
    pub(crate) fn size_within(&self, room: usize) -> Option<usize>
        ensures some { IfSome result (λ size. (size ≡ size_of (entry_lines self.now)) × (size ≤ room)) }
        ensures none { IfNone result (room < size_of (entry_lines self.now)) }
    {
        match self {
            LogEntry::Lines(batch) => batch.size_within(room),
            LogEntry::Quit(_) if room < QUIT_BYTES => None,
            LogEntry::Quit(_) => Some(QUIT_BYTES),
        }
    }
}
