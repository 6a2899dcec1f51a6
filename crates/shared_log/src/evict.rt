ghost use Rattle.std.specs.Prelude.{◌≡◌, ◌+◌, ◌≤◌, length, map, drop, OnErr, OnOk};
ghost use Rattle.std.specs.List.{All};
ghost use Rattle.circular_buffer.specs.Buffer.{buffer};
ghost use Rattle.shared_log.specs.Cursors.{AreWithin, rows_of};

use crate::cursor::Cursor;
use crate::cursors::{settle_before, shift};
use crate::entry::LogEntry;
use crate::spares::Spares;
use circular_buffer::HeapCircularBuffer;
use std::alloc::AllocError;

/// Lets the first `count` entries of the log go. What of them waits for a connection is first moved into its own outbox.
pub(crate) fn evict(
    spares: &mut Spares,
    cursors: &mut [Cursor],
    log: &mut HeapCircularBuffer<LogEntry>,
    count: usize,
) -> Result<(), AllocError>
    requires within { AreWithin log.old.items cursors.old }
    requires count { count ≤ length log.old.items }
    ensures kept { rows_of log.new.items cursors.new ≡ rows_of log.old.items cursors.old }
    ensures within { AreWithin log.new.items cursors.new }
    ensures ok { OnOk result (log.new ≡ buffer (drop count log.old.items) log.old.capacity) }
    ensures err { OnErr result (log.new ≡ log.old) }
{
    settle_before(spares, cursors, log, count)?;
    shift(cursors, count);
    log.truncate_front(log.len() - count);
    Ok(())
}

/// Makes room in the log for so many entries more. All others go where they are heavy. Where there is no
/// room yet, the older half goes, and then the log grows.
pub(crate) fn make_room(
    spares: &mut Spares,
    cursors: &mut [Cursor],
    log: &mut HeapCircularBuffer<LogEntry>,
    wanted: usize,
    is_heavy: bool,
) -> Result<(), AllocError>
    requires { AreWithin log.old.items cursors.old }
    ensures kept { rows_of log.new.items cursors.new ≡ rows_of log.old.items cursors.old }
    ensures within { AreWithin log.new.items cursors.new }
    ensures room { OnOk result (length log.new.items + wanted ≤ log.new.capacity) }
    ensures shorter { length log.new.items ≤ length log.old.items }
    ensures larger { log.old.capacity ≤ log.new.capacity }
{
    if is_heavy {
        evict(spares, cursors, log, log.len())?;
    }
    if log.capacity() - log.len() >= wanted {
        return Ok(());
    }
    evict(spares, cursors, log, log.len() - log.len() / 2)?;
    if log.capacity() - log.len() >= wanted {
        return Ok(());
    }
    match log.capacity().checked_add(wanted) {
        Some(capacity) => log.resize(capacity),
        None => Err(AllocError),
    }
}
