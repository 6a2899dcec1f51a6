ghost use Rattle.std.specs.Prelude.{◌≡◌, ◌≤◌, ◌==◌, ◌&&◌, ◌∷◌, [], ◌++◌, take, drop, length, IfOk, OnOk, OnErr, ◌+◌, ◌<◌, map, IfSome, IfNone};
ghost use Rattle.std.specs.List.{concat};
ghost use Rattle.outboxes.specs.Backlogs.{empty_backlog, with_lines, backlog_after, size_of};
ghost use Rattle.outboxes.specs.Quits.{quit_line};
ghost use Rattle.circular_buffer.specs.Buffer.{buffer};
ghost use Rattle.outboxes.specs.Places.{line_of};
ghost use Rattle.outboxes.specs.declared.outbox.Place.TheVariants.{Line};

use crate::batch::Batch;
use crate::refused::{OutboxRefused, TakeRefused};
use crate::taken::Taken;
use adc_base32::Sid;
use bytes::Bytes;
use circular_buffer::HeapCircularBuffer;
use std::alloc::{AllocError, Global};
use std::marker::Model;
use std::sync::Arc;

/// One line that waits. A line's handle lies elsewhere, so that an empty place is small.
#[derive(Drop)]
pub enum Place {
    /// A line of a batch.
    Line(Arc<Bytes>),
    /// The news that this user has left.
    Quit(Sid),
}

/// The bytes that each place of an outbox takes, whether a line waits there or not.
pub const PLACE_BYTES: usize = size_of::<Place>();

/// Writes the line by which others are told that a user left, with its line feed (ADC 1.0, "QUI").
pub fn quit_line(sid: Sid) -> [u8; 10]
    ensures { result ≡ quit_line sid }
{
    let [a, b, c, d] = sid.text();
    [b'I', b'Q', b'U', b'I', b' ', a, b, c, d, b'\n']
}

/// Counts the bytes that the lines have together, where these are no more than there is room for.
pub(crate) fn size_within(lines: &[Arc<Bytes>], room: usize) -> Option<usize>
    ensures some { IfSome result (λ size. (size ≡ size_of (map (λ line. line.value) lines.now)) × (size ≤ room)) }
    ensures none { IfNone result (room < size_of (map (λ line. line.value) lines.now)) }
{
    let mut left = room;
    for line in lines {
        left = left.checked_sub(line.len())?;
    }
    Some(room - left)
}

/// Adds lines that there are places for.
fn add_lines(places: &mut HeapCircularBuffer<Place>, lines: Vec<Arc<Bytes>>)
    requires { length places.old.items + length lines.items ≤ places.old.capacity }
    ensures { places.new ≡ buffer (places.old.items ++ map Line lines.items) places.old.capacity }
{
    for line in lines {
        add_line(places, line);
    }
}

/// Adds a line that there is a place for.
fn add_line(places: &mut HeapCircularBuffer<Place>, line: Arc<Bytes>)
    requires { length places.old.items < places.old.capacity }
    ensures { places.new ≡ buffer (places.old.items ++ Line line ∷ []) places.old.capacity }
{
    match places.try_push_back(Place::Line(line)) {
        Ok(()) => {}
        Err(_) => unreachable!(),
    }
}

/// Appends the lines of the places.
pub(crate) fn write_lines(places: &[Place], out: &mut Vec<u8>) -> Result<(), AllocError>
    ensures ok { OnOk result (out.new.items ≡ out.old.items ++ concat (map line_of places.now)) }
    ensures err { OnErr result (out.new.items ≡ out.old.items) }
{
    let start = out.len();
    for place in places {
        let written = match place {
            Place::Line(line) => out.extend_from_slice(line.as_slice()),
            Place::Quit(sid) => out.extend_from_slice(&quit_line(*sid)),
        };
        if written.is_err() {
            out.truncate(start);
            return Err(AllocError);
        }
    }
    Ok(())
}

/// Appends the first lines.
pub(crate) fn write_first(
    places: &HeapCircularBuffer<Place>,
    count: usize,
    out: &mut Vec<u8>,
) -> Result<(), AllocError>
    requires { count ≤ length places.now.items }
    ensures ok { OnOk result (out.new.items ≡ out.old.items ++ concat (map line_of (take count places.now.items))) }
    ensures err { OnErr result (out.new.items ≡ out.old.items) }
{
    let start = out.len();
    let (front, back) = places.as_slices();
    let in_front = count.min(front.len());
    write_lines(&front[..in_front], out)?;
    if write_lines(&back[..count - in_front], out).is_err() {
        out.truncate(start);
        return Err(AllocError);
    }
    Ok(())
}

// "IQUI ", four digits and a line feed.
const QUIT_BYTES: usize = 10;

/// The lines that wait for a connection, oldest first, within a number of lines and of bytes.
///
/// The lines that one call owes the connection go in whole or not at all. From the first time on that they do not fit, the
/// connection lags: nothing goes in any more, and what waits can still be taken.
pub struct Outbox {
    places: HeapCircularBuffer<Place>,
    bytes: usize,
    limit: usize,
    lags: bool,
}

impl Drop for Outbox {
    fn drop(self) {
        let Outbox {
            places,
            bytes: _,
            limit: _,
            lags: _,
        } = self;
        drop(places);
    }
}

impl Model for Outbox {
    ghost use Rattle.std.specs.Prelude.{◌≡◌, ◌≤◌, map};
    ghost use Rattle.outboxes.specs.Backlogs.{Backlog, size_of};

    ghost Value = { Backlog };

    ghost use Rattle.outboxes.specs.Places.{line_of};

    ghost view = { λ o. record { lines = map line_of o.places.items; lags = o.lags; cap = o.places.capacity; bytes = o.limit } };

    ghost invariant = { λ o. (o.bytes ≡ size_of (map line_of o.places.items)) × (o.bytes ≤ o.limit) };
}

impl Outbox {
    /// Makes an empty outbox for at most `cap` lines and `bytes` bytes, line feeds included. All its places are made here:
    /// 16 bytes for each line, beside 56 of its own. For 1,024 lines it takes 16,440 bytes.
    ///
    /// `Memory` where it runs out.
    pub fn new(alloc: Global, cap: usize, bytes: usize) -> Result<Outbox, OutboxRefused>
        ensures { IfOk result (λ o. o ≡ empty_backlog cap bytes) }
    {
        let places = HeapCircularBuffer::with_capacity(alloc, cap)?;
        Ok(Outbox {
            places,
            bytes: 0,
            limit: bytes,
            lags: false,
        })
    }

    /// Adds a batch's lines at the end if the lines that then wait are at most as many, and have at most
    /// as many bytes, as may wait. Otherwise it adds none, and the connection lags from then on; where
    /// it lagged before, nothing happens. It takes no memory.
    pub fn give(&mut self, batch: Batch)
        ensures { self.new ≡ backlog_after self.old batch }
    {
        match batch.into_only_line() {
            Ok(line) => self.give_line(line),
            Err(lines) => self.give_lines(lines),
        }
    }

    #[tactic(auto, unfolding(crate::specs::Backlogs::backlog_after))]
    fn give_line(&mut self, line: Arc<Bytes>)
        ensures { self.new ≡ backlog_after self.old (line.value ∷ []) }
    {
        let size = line.len();
        if !self.lags
            && self.limit - self.bytes >= size
            && self.places.try_push_back(Place::Line(line)).is_ok()
        {
            self.bytes += size;
        } else {
            self.lags = true;
        }
    }

    #[tactic(auto, unfolding(crate::specs::Backlogs::backlog_after))]
    fn give_lines(&mut self, lines: Vec<Arc<Bytes>>)
        ensures { self.new ≡ backlog_after self.old (map (λ line. line.value) lines.items) }
    {
        if self.lags {
            return;
        }
        match size_within(&lines, self.limit - self.bytes) {
            Some(size) if lines.len() <= self.places.capacity() - self.places.len() => {
                self.bytes += size;
                add_lines(&mut self.places, lines);
            }
            _ => self.lags = true,
        }
    }

    /// Adds the line that tells that a user has left (ADC 1.0, "QUI"), as `give` adds a batch of this
    /// one line of 10 bytes. It takes no memory.
    #[tactic(auto, unfolding(crate::specs::Backlogs::backlog_after))]
    pub fn give_quit(&mut self, sid: Sid)
        ensures { self.new ≡ backlog_after self.old (quit_line sid ∷ []) }
    {
        if !self.lags
            && self.limit - self.bytes >= QUIT_BYTES
            && self.places.try_push_back(Place::Quit(sid)).is_ok()
        {
            self.bytes += QUIT_BYTES;
        } else {
            self.lags = true;
        }
    }

    /// Removes the first `k` lines, 1 to 256, or all if fewer wait, and appends their bytes to `out`.
    ///
    /// `Memory` where it runs out; the outbox and `out` are then as before.
    pub fn take(&mut self, k: usize, out: &mut Vec<u8>) -> Result<Taken, TakeRefused>
        requires some { 1 ≤ k }
        requires few { k ≤ 256 }
        ensures lines { IfOk result (λ taken. taken.lines ≡ length (take k self.old.lines)) }
        ensures ended { IfOk result (λ taken. taken.ended ≡ ((length (drop k self.old.lines) == 0) && self.old.lags)) }
        ensures rest { OnOk result (self.new ≡ with_lines self.old (drop k self.old.lines)) }
        ensures bytes { OnOk result (out.new.items ≡ out.old.items ++ concat (take k self.old.lines)) }
        ensures err { OnErr result (self.new ≡ self.old) }
        ensures out_kept { OnErr result (out.new.items ≡ out.old.items) }
    {
        let start = out.len();
        let count = k.min(self.places.len());
        write_first(&self.places, count, out)?;
        self.skip(count, out.len() - start);
        Ok(Taken {
            lines: count as u64,
            ended: self.places.is_empty() && self.lags,
        })
    }

    /// Appends the first `count` lines, at most as many as wait, and removes none.
    ///
    /// `AllocError` where memory runs out; `out` is then as before.
    pub fn write(&self, count: usize, out: &mut Vec<u8>) -> Result<(), AllocError>
        requires { count ≤ length self.now.lines }
        ensures ok { OnOk result (out.new.items ≡ out.old.items ++ concat (take count self.now.lines)) }
        ensures err { OnErr result (out.new.items ≡ out.old.items) }
    {
        write_first(&self.places, count, out)
    }

    /// Removes the first `count` lines, at most as many as wait, which have so many bytes together. It takes no memory.
    pub fn skip(&mut self, count: usize, bytes: usize)
        requires count { count ≤ length self.old.lines }
        requires bytes { bytes ≡ size_of (take count self.old.lines) }
        ensures { self.new ≡ with_lines self.old (drop count self.old.lines) }
    {
        let left = self.places.len() - count;
        self.bytes -= bytes;
        if left == 0 {
            // So the next lines go to the places that were used last, which the processor has at hand.
            self.places.clear();
        } else {
            self.places.truncate_front(left);
        }
    }

    /// Counts the lines that wait.
    pub fn waiting(&self) -> u64
        ensures { result ≡ length self.now.lines }
    {
        self.places.len() as u64
    }

    /// Counts the bytes of the lines that wait.
    pub fn bytes(&self) -> usize
        ensures { result ≡ size_of self.now.lines }
    {
        self.bytes
    }

    /// Gives the most lines, and the most bytes, that may wait.
    pub fn limits(&self) -> (usize, usize)
        ensures lines { result.0 ≡ self.now.cap }
        ensures bytes { result.1 ≡ self.now.bytes }
    {
        (self.places.capacity(), self.limit)
    }

    /// Tests whether a share has not fitted: then nothing goes in any more.
    pub fn lagging(&self) -> bool
        ensures { result ≡ self.now.lags }
    {
        self.lags
    }
}
