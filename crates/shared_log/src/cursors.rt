ghost use Rattle.std.specs.Prelude.{◌≡◌, ◌<◌, ◌≤◌, ◌==◌, ◌&&◌, ◌++◌, true, List, get_or, length, map, drop, take, slice_get, Some, IfNone, IfOk, IfSome, OnErr, OnOk};
ghost use Rattle.std.specs.List.{All, concat};
ghost use Rattle.shared_log.specs.Cursors.{AreWithin, IsPast, rows_of, settled_of, shifted, cursor_given, cursor_taken, is_kept_at, own_at, with_tail};
ghost use Rattle.shared_log.specs.declared.entry.LogEntry.{LogEntry};
ghost use Rattle.shared_log.specs.Tables.{at_place, new_row};
ghost use Rattle.shared_log.specs.Parts.{IsTakenPart};
ghost use Rattle.shared_log.specs.Tallies.{IsTally};

use crate::cursor::Cursor;
use crate::entry::LogEntry;
use crate::spares::Spares;
use crate::tally::Tally;
use circular_buffer::HeapCircularBuffer;
use outboxes::{Batch, TakeRefused, Taken};
use std::alloc::AllocError;

/// Moves what waits in the log for the connection at a place into its own outbox.
pub(crate) fn settle_at(
    spares: &mut Spares,
    cursors: &mut [Cursor],
    place: usize,
    log: &HeapCircularBuffer<LogEntry>,
) -> Result<(), AllocError>
    requires place { place < length cursors.old }
    requires within { AreWithin log.now.items cursors.old }
    ensures kept { rows_of log.now.items cursors.new ≡ rows_of log.now.items cursors.old }
    ensures within { AreWithin log.now.items cursors.new }
    ensures settled { OnOk result (settled_of log.now.items cursors.new ≡ at_place place (λ _. true) (settled_of log.now.items cursors.old)) }
    ensures err { OnErr result (settled_of log.now.items cursors.new ≡ settled_of log.now.items cursors.old) }
{
    cursors[place].settle(spares, log)
}

/// Moves what waits in the log into own outboxes, where one of the first `count` entries waits.
pub(crate) fn settle_before(
    spares: &mut Spares,
    cursors: &mut [Cursor],
    log: &HeapCircularBuffer<LogEntry>,
    count: usize,
) -> Result<(), AllocError>
    requires within { AreWithin log.now.items cursors.old }
    requires count { count ≤ length log.now.items }
    ensures kept { rows_of log.now.items cursors.new ≡ rows_of log.now.items cursors.old }
    ensures within { AreWithin log.now.items cursors.new }
    ensures past { OnOk result (All (IsPast count) cursors.new) }
{
    for cursor in cursors.iter_mut() {
        cursor.settle_before(spares, log, count)?;
    }
    Ok(())
}

/// Counts places from a log whose first `count` entries have left.
pub(crate) fn shift(cursors: &mut [Cursor], count: usize)
    requires { All (IsPast count) cursors.old }
    ensures { cursors.new ≡ map (shifted count) cursors.old }
{
    for cursor in cursors.iter_mut() {
        cursor.shift(count);
    }
}

/// Gives lines of its own to the connection at a place.
pub(crate) fn give_at(cursors: &mut [Cursor], place: usize, batch: Batch)
    requires place { place < length cursors.old }
    requires kept { is_kept_at place cursors.old ≡ true }
    ensures { cursors.new ≡ at_place place (cursor_given batch) cursors.old }
{
    cursors[place].own.give(batch);
}

/// Sets from where on the connection at a place hears the log.
pub(crate) fn set_tail(cursors: &mut [Cursor], place: usize, tail: Option<usize>)
    requires { place < length cursors.old }
    ensures { cursors.new ≡ at_place place (with_tail tail) cursors.old }
{
    cursors[place].tail = tail;
}

/// Takes the first lines of its own of the connection at a place.
pub(crate) fn take_at(
    cursors: &mut [Cursor],
    place: usize,
    count: usize,
    out: &mut Vec<u8>,
) -> Result<Taken, TakeRefused>
    requires place { place < length cursors.old }
    requires some { 1 ≤ count }
    requires few { count ≤ 256 }
    ensures lines { IfOk result (λ taken. taken.lines ≡ length (take count (own_at place cursors.old).lines)) }
    ensures ended { IfOk result (λ taken. taken.ended ≡ ((length (drop count (own_at place cursors.old).lines) == 0) && (own_at place cursors.old).lags)) }
    ensures rest { OnOk result (cursors.new ≡ at_place place (cursor_taken count) cursors.old) }
    ensures bytes { OnOk result (out.new.items ≡ out.old.items ++ concat (take count (own_at place cursors.old).lines)) }
    ensures err { OnErr result (cursors.new ≡ cursors.old) }
    ensures out_kept { OnErr result (out.new.items ≡ out.old.items) }
{
    cursors[place].own.take(count, out)
}

/// Lets the outbox of the connection at a place go where nothing waits in it.
pub(crate) fn rest_at(spares: &mut Spares, cursors: &mut [Cursor], place: usize)
    requires { place < length cursors.old }
    ensures kept { (log : List LogEntry) → rows_of log cursors.new ≡ rows_of log cursors.old }
    ensures within { (log : List LogEntry) → AreWithin log cursors.old → AreWithin log cursors.new }
    ensures many { length cursors.new ≡ length cursors.old }
{
    cursors[place].own.rest(spares);
}

/// Takes the first `count` lines of the connection at a place, or all, where these are some of its own and whole entries, and
/// it does not lag. Otherwise it takes nothing, and gives nothing.
pub(crate) fn take_whole_at(
    cursors: &mut [Cursor],
    place: usize,
    log: &HeapCircularBuffer<LogEntry>,
    count: usize,
    out: &mut Vec<u8>,
) -> Result<Option<Taken>, AllocError>
    requires place { place < length cursors.old }
    requires within { AreWithin log.now.items cursors.old }
    ensures taken { IfOk result (λ took. IfSome took (λ taken. IsTakenPart log.now.items cursors.old place count out.old.items taken cursors.new out.new.items)) }
    ensures none { IfOk result (λ took. IfNone took ((cursors.new ≡ cursors.old) × (out.new.items ≡ out.old.items))) }
    ensures err { OnErr result ((cursors.new ≡ cursors.old) × (out.new.items ≡ out.old.items)) }
{
    let Some(part) = cursors[place].part(log, count) else {
        return Ok(None);
    };
    cursors[place].take_part(log, count, &part, out)?;
    Ok(Some(Taken {
        lines: part.lines as u64,
        ended: false,
    }))
}

/// Counts what waits for the connection at a place.
pub(crate) fn tally_at(
    cursors: &[Cursor],
    place: usize,
    log: &HeapCircularBuffer<LogEntry>,
) -> Tally
    requires place { place < length cursors.now }
    requires within { AreWithin log.now.items cursors.now }
    ensures { IsTally (get_or (rows_of log.now.items cursors.now) place (new_row 0 0)).backlog result }
{
    cursors[place].tally(log)
}
