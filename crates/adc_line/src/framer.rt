ghost use Rattle.std.specs.Prelude.{◌≡◌, ◌++◌, ◌<◌, ◌≤◌, [], take, drop, length, slice_index, vec_len, vec_capacity, OnOk, OnErr, IfOk, IfNone, IfSome};
ghost use Rattle.adc_line.specs.Frames.{lf, max_line, HasNoLf};

use crate::fault::FrameFault;
use crate::line::MAX_LINE;
use memchr::memchr;
use std::alloc::{AllocError, Global};
use std::marker::Model;

/// An answer of a framer about the bytes that were fed and did not come out yet.
#[derive(Clone, Copy, Debug, PartialEq, Eq)]
pub enum Next {
    /// A line came out, without its line feed.
    Line,
    /// No line: its line feed is not there yet.
    More,
    /// The first 65,537 bytes hold no line feed; this is said from now on.
    TooLong,
}

/// A framer, which cuts a stream of bytes that comes in pieces at its line feeds (ADC 1.0, "Message syntax").
///
/// Contracts see it as the bytes that were fed and did not come out, without the line feeds behind
/// the lines that did.
pub struct Framer {
    buffer: Vec<u8>,
    start: usize,
    // So many bytes from `start` on hold no line feed: a line that comes byte by byte is searched once.
    searched: usize,
}

impl Drop for Framer {
    fn drop(self) {
        let Framer {
            buffer,
            start: _,
            searched: _,
        } = self;
        drop(buffer);
    }
}

impl Model for Framer {
    ghost use Rattle.std.specs.Prelude.{ℕ, List};

    ghost Value = { List ℕ };

    ghost use Rattle.adc_line.specs.Buffer.{unread, IsSearched};

    ghost view = { unread };

    ghost invariant = { IsSearched };
}

impl Framer {
    ghost use Rattle.adc_line.specs.NextLine.{IsNext, IsFirstLine};

    /// Makes a framer that was fed nothing.
    pub fn new(alloc: Global) -> Framer
        ensures { result ≡ [] }
    {
        Framer {
            buffer: Vec::new(alloc),
            start: 0,
            searched: 0,
        }
    }

    /// Gives the number of bytes that were fed and did not come out, with the line feeds among them.
    pub fn unread(&self) -> usize
        ensures { result ≡ length self.now }
    {
        self.buffer.len() - self.start
    }

    /// Takes the next piece of the stream. After `Memory` it is as before.
    pub fn feed(&mut self, piece: &[u8]) -> Result<(), FrameFault>
        ensures ok { OnOk result (self.new ≡ self.old ++ piece.now) }
        ensures err { OnErr result (self.new ≡ self.old) }
    {
        drop_front(&mut self.buffer, self.start);
        self.start = 0;
        self.buffer.extend_from_slice(piece)?;
        Ok(())
    }

    /// Puts the next line, of at most 65,536 bytes and without its line feed, into `out` in place of
    /// what it held.
    ///
    /// `out` and the unread bytes change only where the answer is `Line`. After `Memory` both are as
    /// before, and the same call may be made again.
    pub fn next(&mut self, out: &mut Vec<u8>) -> Result<Next, FrameFault>
        ensures ok { IfOk result (λ said. IsNext self.old out.old.items said self.new out.new.items) }
        ensures first { IfOk result (λ said. IsFirstLine self.old said self.new out.new.items) }
        ensures err { OnErr result (self.new ≡ self.old) }
        ensures out_kept { OnErr result (out.new.items ≡ out.old.items) }
    {
        self.take_line(out)
    }

    fn take_line(&mut self, out: &mut Vec<u8>) -> Result<Next, FrameFault>
        ensures ok { IfOk result (λ said. IsNext self.old out.old.items said self.new out.new.items) }
        ensures err { OnErr result (self.new ≡ self.old) }
        ensures out_kept { OnErr result (out.new.items ≡ out.old.items) }
    {
        let unread = &self.buffer[self.start..];
        let Some(at) = first_lf(unread, self.searched) else {
            self.searched = unread.len();
            if self.searched > MAX_LINE {
                return Ok(Next::TooLong);
            }
            return Ok(Next::More);
        };
        if at > MAX_LINE {
            return Ok(Next::TooLong);
        }
        replace(out, &unread[..at])?;
        self.start += at + 1;
        self.searched = 0;
        Ok(Next::Line)
    }
}

/// Finds the place of the first line feed, of bytes of which the first `searched` hold none.
fn first_lf(bytes: &[u8], searched: usize) -> Option<usize>
    requires within { searched ≤ length bytes.now }
    requires none_before { HasNoLf (take searched bytes.now) }
    ensures within { IfSome result (λ at. at < length bytes.now) }
    ensures found { IfSome result (λ at. slice_index bytes.now at ≡ lf) }
    ensures first { IfSome result (λ at. HasNoLf (take at bytes.now)) }
    ensures none { IfNone result (HasNoLf bytes.now) }
{
    let at = memchr(b'\n', &bytes[searched..])?;
    Some(searched + at)
}

/// Takes the first `count` elements out.
fn drop_front(items: &mut Vec<u8>, count: usize)
    requires { count ≤ vec_len items.old }
    ensures { items.new.items ≡ drop count items.old.items }
{
    let left = items.len() - count;
    items.rotate_left(count);
    items.truncate(left);
}

/// Makes `out` hold these bytes.
fn replace(out: &mut Vec<u8>, bytes: &[u8]) -> Result<(), AllocError>
    ensures ok { OnOk result (out.new.items ≡ bytes.now) }
    ensures err { OnErr result (out.new.items ≡ out.old.items) }
    ensures full { OnErr result (vec_capacity out.old < length bytes.now) }
{
    out.reserve(bytes.len().saturating_sub(out.len()))?;
    out.clear();
    out.extend_from_slice(bytes)
}
