ghost use Rattle.std.specs.Prelude.{◌≡◌, ◌<◌, length, false, IfOk, OnOk};
ghost use Rattle.std.specs.Io.{ReadsAtMost, WritesAtMost};
ghost use Rattle.std.specs.Io.KnownBytes.{Keeps, ReadConsumes, WriteAppends};
ghost use Rattle.counted_io.specs.Calls.{CountsFailures, inner_of, failures_of};

use crate::counted::{CountedRead, CountedWrite};
use crate::failures::Failures;
use std::io::{self, Read, Write};

/// A reader or a writer of which each call that fails is counted.
#[derive(Drop)]
pub struct Counting<T> {
    inner: T,
    failures: Failures,
}

impl<T> Counting<T> {
    /// Counts the calls of this reader or writer from here on.
    pub fn new(inner: T) -> Counting<T>
        ensures inner { inner_of result ≡ inner }
        ensures failures { failures_of result ≡ record { count = 0; is_last = false } }
    {
        Counting {
            inner,
            failures: Failures {
                count: 0,
                is_last: false,
            },
        }
    }

    /// Gives the calls that failed.
    pub fn failures(&self) -> Failures
        ensures { result ≡ failures_of self.now }
    {
        self.failures
    }

    /// Gives the reader or the writer itself.
    pub fn get_ref(&self) -> &T
        ensures { result.now ≡ inner_of self.now }
    {
        &self.inner
    }
}

impl<R: Read> Read for Counting<R> {
    ghost remaining = { λ counting. R.remaining counting.inner };

    fn read(&mut self, buf: &mut [u8]) -> io::Result<usize>
        ensures bound { ReadsAtMost result buf.new }
        ensures bytes { ReadConsumes (R.remaining self.old.inner) (R.remaining self.new.inner) result buf.new }
        ensures counts { CountsFailures result self.old.failures self.new.failures }
        ensures well { OnOk result (self.new.failures.is_last ≡ false) }
    {
        let read = self.inner.read(buf);
        self.failures.note(&read);
        read
    }
}

impl<R: Read> CountedRead for Counting<R> {
    ghost failures = { λ counting. counting.failures };

    fn read_counted(&mut self, buf: &mut [u8]) -> io::Result<usize> {
        self.read(buf)
    }
}

impl<W: Write> Write for Counting<W> {
    ghost contents = { λ counting. W.contents counting.inner };

    /// It fails with `WriteZero` where no byte of some is taken.
    fn write(&mut self, buf: &[u8]) -> io::Result<usize>
        ensures bound { WritesAtMost result buf.now }
        ensures bytes { WriteAppends (W.contents self.old.inner) (W.contents self.new.inner) result buf.now }
        ensures some { IfOk result (λ count. 0 < length buf.now → 0 < count) }
        ensures counts { CountsFailures result self.old.failures self.new.failures }
        ensures well { OnOk result (self.new.failures.is_last ≡ false) }
    {
        let written = write_some(&mut self.inner, buf);
        self.failures.note(&written);
        written
    }

    fn flush(&mut self) -> io::Result<()>
        ensures bytes { Keeps (W.contents self.old.inner) (W.contents self.new.inner) }
        ensures counts { CountsFailures result self.old.failures self.new.failures }
        ensures well { OnOk result (self.new.failures.is_last ≡ false) }
    {
        let flushed = self.inner.flush();
        self.failures.note(&flushed);
        flushed
    }
}

impl<W: Write> CountedWrite for Counting<W> {
    ghost failures = { λ counting. counting.failures };

    fn write_counted(&mut self, buf: &[u8]) -> io::Result<usize> {
        self.write(buf)
    }

    fn flush_counted(&mut self) -> io::Result<()> {
        self.flush()
    }
}

/// Writes some of the bytes, one at least, or fails.
fn write_some<W: Write>(writer: &mut W, buf: &[u8]) -> io::Result<usize>
    ensures bound { WritesAtMost result buf.now }
    ensures bytes { WriteAppends (W.contents writer.old) (W.contents writer.new) result buf.now }
    ensures some { IfOk result (λ count. 0 < length buf.now → 0 < count) }
{
    match writer.write(buf) {
        Ok(0) if !buf.is_empty() => Err(io::ErrorKind::WriteZero.into()),
        Ok(count) => Ok(count),
        Err(error) => Err(error),
    }
}
